// The number of a few bytes: what a message is read as before it is folded.
ghost use Rattle.std.specs.Prelude.{◌≤◌, ◌≡◌, length};
ghost use Rattle.message.specs.Message.{number};

#[tactic(auto, using(crate::proofs::Numbers::byte_steps))]
pub(crate) fn number_of(bytes: &[u8]) -> u64
    requires { length bytes.now ≤ 8 }
    ensures { result ≡ number bytes.now }
{
    let mut number: u64 = 0;
    for &byte in bytes {
        number = number * 256 + u64::from(byte);
    }
    number
}
