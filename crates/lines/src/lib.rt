// A box's lines: messages in hexadecimal behind a box's number, and what a driver asks for.
#![tactic(auto)]

mod line;
mod promises;

pub use line::reading::read;
pub use line::writing::write;
pub use line::{Buffer, Line};
pub use promises::{driver_read, either_case, every_message, line_to_message, reads_back};
