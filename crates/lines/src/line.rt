// What a line says, and the bytes of one.
pub mod digits;
pub mod reading;
pub mod writing;

use messages::{BoxNumber, Bytes, Engine, Section};

// The longest line: a number of two digits, a blank, and two digits for each of 21 bytes.
pub const WIDEST: usize = 45;

// The bytes of a line or of a message.
pub type Buffer = Bytes<WIDEST>;

#[derive(Clone, Copy)]
pub enum Line {
    Message { from: BoxNumber, message: Buffer },
    Take { engine: Engine, section: Section },
    Free { engine: Engine, section: Section },
    Second,
}

// A number of one or two digits, and how many they are: what a line says goes by the place at which a number ends.
#[derive(Clone, Copy)]
pub(crate) struct Number {
    value: u8,
    width: usize,
}

// The section that an engine asks for.
#[derive(Clone, Copy)]
pub(crate) struct Wish {
    engine: Engine,
    section: Section,
}
