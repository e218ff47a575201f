// Which of two replies of one aircraft stands.
ghost use Rattle.std.specs.Prelude.{◌≡◌};
ghost use Rattle.rollcall_table.specs.Standing.{grade_number, record_beats};

use crate::{Grade, Record};

// The better the grade, the lower its number.
impl From<Grade> for u32 {
    ghost from_gives = { λ grade n. n ≡ grade_number grade };

    fn from(grade: Grade) -> u32 {
        match grade {
            Grade::Clean => 0,
            Grade::Sole => 1,
            Grade::Several => 2,
        }
    }
}

impl Record {
    // Whether the reply of a record beats that of another: it is later, or of the same time and better.
    #[tactic(auto, unfolding(crate::specs::Standing::beats))]
    pub fn beats(self, held: Record) -> bool
        ensures { result ≡ record_beats self held }
    {
        self.time > held.time || (self.time == held.time && self.grade < held.grade)
    }
}
