// One box's 64 sections: who has each, who waits for it and in what order.
#![tactic(auto)]

ghost use Rattle.std.specs.Prelude.{◌≡◌, length};
ghost use Rattle.sections.specs.Bytes.{number_of, answer_byte, who_byte};
ghost use Rattle.sections.specs.Layout.{table_of_rows};
ghost use Rattle.sections.specs.Sound.{OneQueue};

mod calls;
pub mod promises;
mod queue;
mod row;

use row::Row;

// Engines, and the places of a box's sections, are numbered from 0 to 63. The constants are this crate's own, since it leans on no other.
pub const ENGINES: u8 = 64;

pub const PLACES: u8 = 64;

// What a call did.
#[derive(Clone, Copy, PartialEq, Eq, Debug)]
pub enum Done {
    // The engine has the section now.
    Had,
    // It stands at the end of the queue; the number is that of the engine that has the section.
    Waits(u8),
    // The section was let go, and who has it now.
    LetGo(Option<u8>),
    // The engine left the queue.
    Left,
}

// Why a call was refused; nothing has changed then. Messages and programs speak of each by its number.
#[derive(Clone, Copy, PartialEq, Eq, Debug)]
pub enum Refusal {
    // There is no such engine or section.
    OutOfRange = 1,
    // The engine waits for a section of this box.
    Waiting = 3,
    // Take: it has the section already; free: it hasn't; give up: it isn't in that queue.
    Mismatch = 4,
    // The section's change number has no next one.
    AtLimit = 7,
}

// One box's sections by place; nobody waits for two of them.
#[derive(Clone, Copy)]
pub struct Sections {
    rows: [Row; 64],
    ghost whole: { length rows ≡ 64 },
    ghost apart: { OneQueue (table_of_rows rows) },
}

impl Refusal {
    // The number by which messages and programs speak of the refusal.
    pub fn number(self) -> u8
        ensures { result ≡ number_of self }
    {
        self as u8
    }
}

// Who has a section, as one byte: the engine's number, or 255 for nobody.
pub fn holder_byte(holder: Option<u8>) -> u8
    ensures { result ≡ who_byte holder }
{
    holder.unwrap_or(255)
}

// The answer byte of a call: 1 done, 2 waits, 0 not. A function, since nobody writes an impl for a `Result`.
pub fn answer_byte(answer: Result<Done, Refusal>) -> u8
    ensures { result ≡ answer_byte answer }
{
    match answer {
        Ok(Done::Waits(_)) => 2,
        Ok(_) => 1,
        Err(_) => 0,
    }
}
