// The keeper's half of a box: calls to its sections, in the order of their numbers, each answered once and for all.
#![tactic(auto)]

ghost use Rattle.std.specs.Prelude.{◌≡◌, length};

mod asking;
mod calls;
mod homes;
pub mod promises;
mod queries;
mod words;

use messages::{Refusal, Reply};
use sections::Sections;

// Holder and change number are those of the call's section after the call.
pub use messages::Answer;

// The last call of an engine that used up its number.
// Not an Option: numbers begin at 1, so 0 is the last number of one that never called, and the next is always one more.
#[derive(Clone, Copy, PartialEq, Eq)]
pub struct LastCall {
    pub number: u32,
    pub answer: Answer,
}

// What came of a call.
#[derive(Clone, Copy, PartialEq, Eq)]
pub enum Verdict {
    // No such engine or section.
    Malformed,
    // The number is neither that of the last call nor the next: nothing is sent.
    PassedOver,
    // The last call again: its answer, as it was.
    Again(Answer),
    // The section's change number has no next one; the call's number isn't used up.
    AtLimit(Answer),
    // Refused, and its number used up.
    Refused(Refusal, Answer),
    Done(Answer),
    // Done, and the section went on to the first of its queue: the homes of all concerned are told.
    PassedOn(Answer),
}

// What stands for an engine that never called here.
pub const NEVER: LastCall = LastCall {
    number: 0,
    answer: Answer {
        reply: Reply::Done,
        holder: None,
        change: 0,
    },
};

// A box's sections, and by engine its last call to them.
#[derive(Clone, Copy)]
pub struct Keeper {
    sections: Sections,
    calls: [LastCall; 64],
    ghost whole: { length calls ≡ 64 },
}
