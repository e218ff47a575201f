// Why a call is refused: the table of refusals as an error type. The definitions that every contract with a refusal names stand
// in specs/, and the laws about them in proofs/.
#![tactic(auto)]

ghost use Rattle.std.specs.Prelude.{◌≡◌};
ghost use Rattle.outcome.specs.Refusals.{number_of};
ghost use Rattle.outcome.specs.Outcomes.{admission, done, unless};

// The rows of the table of refused calls, in its order.
#[derive(Clone, Copy, Debug, PartialEq, Eq)]
pub enum Refusal {
    WrongLength,
    WrongConfidenceLength,
    WordTooLarge,
    LimitTooLarge,
    FirstBitContradicts,
    OwnAddressReserved,
    AltitudeNotInCode,
    TableUnsound,
    TableFull,
    NothingOpened,
    NumberAboveLast,
    NotSendable,
}

// The number of the row.
impl From<Refusal> for u32 {
    ghost from_gives = { λ refusal n. n ≡ number_of refusal };

    fn from(refusal: Refusal) -> u32 {
        match refusal {
            Refusal::WrongLength => 1,
            Refusal::WrongConfidenceLength => 2,
            Refusal::WordTooLarge => 3,
            Refusal::LimitTooLarge => 4,
            Refusal::FirstBitContradicts => 5,
            Refusal::OwnAddressReserved => 6,
            Refusal::AltitudeNotInCode => 7,
            Refusal::TableUnsound => 8,
            Refusal::TableFull => 9,
            Refusal::NothingOpened => 10,
            Refusal::NumberAboveLast => 11,
            Refusal::NotSendable => 12,
        }
    }
}

// A row of the table: the call is refused unless the test is passed. A check is its rows in their order, each with a `?`.
pub fn refuse_unless(test: bool, refusal: Refusal) -> Result<(), Refusal>
    ensures { admission result ≡ unless test (number_of refusal) done }
{
    if test { Ok(()) } else { Err(refusal) }
}
