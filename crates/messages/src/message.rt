// What boxes say to each other, and what a box's file holds.
use crate::yard::{BoxNumber, Engine, Section};

// What an engine's home asks of the box of a section.
#[derive(Clone, Copy, PartialEq, Eq)]
pub enum Act {
    Take = 1,
    Free = 2,
    GiveUp = 3,
}

// One call of an engine to the keeper of a section. `number` is one higher each time.
#[derive(Clone, Copy, PartialEq, Eq)]
pub struct Call {
    pub act: Act,
    pub engine: Engine,
    pub section: Section,
    pub number: u32,
}

// Why something is turned away, with the number by which it is told.
#[derive(Clone, Copy, PartialEq, Eq)]
pub enum Refusal {
    Malformed = 1,
    WrongCall = 2,
    Waiting = 3,
    Mismatch = 4,
    Stale = 6,
    Exhausted = 7,
}

// What becomes of a call.
#[derive(Clone, Copy, PartialEq, Eq)]
pub enum Reply {
    Done,
    Waits,
    Refused(Refusal),
}

// What a keeper answers a call: what becomes of it, who has the section, and its change number.
#[derive(Clone, Copy, PartialEq, Eq)]
pub struct Answer {
    pub reply: Reply,
    pub holder: Option<Engine>,
    pub change: u32,
}

// Who has `section` since its change `change`.
#[derive(Clone, Copy, PartialEq, Eq)]
pub struct Change {
    pub section: Section,
    pub holder: Option<Engine>,
    pub change: u32,
}

// The sign that `by` shows, told to `to`, which waits for it by its beginning `count`.
// The two engines stand side by side: so a sign takes 16 bytes, and a message 24.
#[derive(Clone, Copy, PartialEq, Eq)]
pub struct Sign {
    pub to: Engine,
    pub by: Engine,
    pub count: u32,
    pub sign: u64,
}

// `engine` waits for `section` by its beginning `count`, of the section's change `change`.
#[derive(Clone, Copy, PartialEq, Eq)]
pub struct Waits {
    pub engine: Engine,
    pub section: Section,
    pub count: u32,
    pub change: u32,
}

// A beginning to wait: for whom, by which count, of which change, and the own sign it gave.
#[derive(Clone, Copy, PartialEq, Eq)]
pub struct Beginning {
    pub engine: Engine,
    pub section: Section,
    pub change: u32,
    pub holder: Engine,
    pub count: u32,
    pub own: u64,
}

#[derive(Clone, Copy, PartialEq, Eq)]
pub enum Message {
    Call(Call),
    Answer {
        engine: Engine,
        call: u32,
        answer: Answer,
    },
    Change(Change),
    WhichChange {
        engine: Engine,
        section: Section,
    },
    Sign(Sign),
    Waits(Waits),
}

#[derive(Clone, Copy, PartialEq, Eq)]
pub enum Record {
    // A call that the keeper of the section did or refused.
    Kept(Call),
    // A call that the engine's home made.
    Made(Call),
    // A beginning to wait: whom the engine waits for, what the section's box is told of it, and the own sign it gave.
    // Fields, and no struct of them with the sign in it: so a record takes 24 bytes, and with such a struct 32. A box holds all records of its file while it opens.
    Beginning {
        holder: Engine,
        waits: Waits,
        own: u64,
    },
    // A sign that `engine` heard and shows.
    Heard {
        engine: Engine,
        sign: u64,
    },
}
