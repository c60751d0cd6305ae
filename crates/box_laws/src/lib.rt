// Theorems about a whole box, each named by the contract of a function.
#![tactic(auto)]

ghost use Rattle.box_laws.specs.Runs.{RecordsStandForIt};
ghost use Rattle.box_laws.specs.Again.{RecordsInRange, SameBytesAgain};
ghost use Rattle.box_laws.specs.Away.{TurnedAwayByABox};

// Whatever came to a box, stops too: its records are read back, and stand for what is stored of it.
pub fn records_stand_for_it()
    ensures { RecordsStandForIt }
{}

// A line that is turned away changes nothing; a message that is turned away changes no section and no engine.
pub fn turned_away_by_a_box()
    ensures { TurnedAwayByABox }
{}

// Where all that came was in range, so is all that was recorded.
#[tactic(auto, using(crate::proofs::Twice::records_in_range))]
pub fn records_in_range()
    ensures { RecordsInRange }
{}

// The same bytes from the same box again change nothing.
#[tactic(auto, using(crate::proofs::Twice::same_bytes_again))]
pub fn same_bytes_again()
    ensures { SameBytesAgain }
{}
