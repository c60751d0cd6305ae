// A message as it is sent: its bytes, from a box to a box.
use messages::{BoxNumber, Encoded};

#[derive(Clone, Copy)]
pub struct Envelope {
    pub from: BoxNumber,
    pub to: BoxNumber,
    pub bytes: Encoded,
}
