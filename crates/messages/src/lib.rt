// Messages between boxes and records of a box's file: their bytes, and what is turned away.
#![tactic(auto)]

mod decoder;
mod encoded;
mod encoder;
mod message;
mod promises;
mod records;
mod yard;

pub use decoder::decode;
pub use encoded::{Bytes, Encoded, LONGEST};
pub use encoder::{encode, encode_into};
pub use message::{
    Act, Answer, Beginning, Call, Change, Message, Record, Refusal, Reply, Sign, Waits,
};
pub use promises::{
    cut_is_short, cut_reads_back, cut_refused, none_begins_another, one_form, one_list, reads_back,
};
pub use records::reading::{encode_record, first_record, read_records};
pub use records::{First, Replay, Unread};
pub use yard::{BoxNumber, Engine, MOST_BOXES, MOST_ENGINES, PLACES, Section, Yard};
