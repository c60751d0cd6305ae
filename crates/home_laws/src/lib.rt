// Theorems about a home, each named by the contract of a function.
#![tactic(auto)]

ghost use Rattle.home_laws.specs.Told.{EventTells};
ghost use Rattle.home_laws.specs.Again.{OrderedKept, SameAgain};
ghost use Rattle.home_laws.specs.Held.{FreedIsNotHeld, ToldOfWhatIsHeld};
ghost use Rattle.home_laws.specs.Puts.{PutOne};
ghost use Rattle.home_laws.specs.Steps.{TurnedAwayChangesNothing, StoredByRecord};

// After every answer, change and sign the event tells what became of the engine.
#[tactic(auto, using(crate::proofs::Telling::event_tells))]
pub fn event_tells()
    ensures { EventTells }
{}

// What is refused or passed over leaves the home as it was.
#[tactic(auto, using(crate::proofs::Steps::turned_away_changes_nothing))]
pub fn turned_away_changes_nothing()
    ensures { TurnedAwayChangesNothing }
{}

// What is stored after an input is what the event's record makes of what was stored.
#[tactic(auto, using(crate::proofs::Steps::stored_by_record))]
pub fn stored_by_record()
    ensures { StoredByRecord }
{}

// The own sign is never above the sign shown.
#[tactic(auto, using(crate::proofs::Again::ordered_kept))]
pub fn own_below_shown()
    ensures { OrderedKept }
{}

// The same answer, change or sign again changes nothing.
#[tactic(auto, using(crate::proofs::Again::same_again))]
pub fn same_again()
    ensures { SameAgain }
{}

// A section that is being freed is held no more.
#[tactic(auto, using(crate::proofs::Held::freed_is_not_held))]
pub fn freed_is_not_held()
    ensures { FreedIsNotHeld }
{}

// A waiter is told only of an engine that holds what it waits for.
#[tactic(auto, using(crate::proofs::Held::told_of_what_is_held))]
pub fn told_of_what_is_held()
    ensures { ToldOfWhatIsHeld }
{}

// After a change of one engine it reads as put, and every other as it was.
#[tactic(auto, using(crate::proofs::Puts::put_in_one))]
pub fn put_one()
    ensures { PutOne }
{}
