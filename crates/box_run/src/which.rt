// Which box of which yard a program is.
pub mod asked;

use messages::{BoxNumber, Yard};

#[derive(Clone, Copy)]
pub struct Which {
    pub yard: Yard,
    pub number: BoxNumber,
}
