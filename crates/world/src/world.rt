// Boxes, their files, and all messages ever sent.
mod playing;

use crate::envelope::Envelope;
use crate::station::Station;
use messages::Yard;
use std::alloc::Global;

#[derive(Drop)]
pub struct World {
    yard: Yard,
    heap: Global,
    stations: Vec<Station>,
    sent: Vec<Envelope>,
}
