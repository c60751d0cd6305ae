// The records of a box's file: each alone, and one after another up to one that is cut.
pub mod reading;

use crate::message::Record;
use std::alloc::AllocFailed;

// What stands first in a file's bytes. Not a Result: what is cut is no error, and no record.
#[derive(Clone, Copy, PartialEq, Eq)]
pub enum First {
    // A whole record, and how many bytes it takes.
    Whole { record: Record, length: usize },
    // Nothing, or the beginning of a record: what is left of a write that a stop cut short.
    Cut,
    // Neither: no stop leaves such bytes.
    Damaged,
}

// The whole records of a file, and how many of its bytes they take.
#[derive(Drop)]
pub struct Replay {
    pub records: Vec<Record>,
    pub length: usize,
}

#[derive(Clone, Copy, PartialEq, Eq)]
pub enum Unread {
    // At byte `at` stands neither a record nor the beginning of one.
    Damaged { at: usize },
    NoMemory,
}

impl From<AllocFailed<Record>> for Unread {
    ghost use Rattle.std.specs.Prelude.{◌≡◌};
    ghost use Rattle.messages.specs.declared.records.Unread.TheVariants.{NoMemory};

    ghost from_gives = { λ _ unread. unread ≡ NoMemory };

    fn from(_failed: AllocFailed<Record>) -> Unread {
        Unread::NoMemory
    }
}
