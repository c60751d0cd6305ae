// A box that has come up, and what it says first.
pub mod opening;

use boxes::SignalBox;
use journal::Said;

#[derive(Drop)]
pub struct CameUp {
    pub state: SignalBox,
    pub said: Said,
}

// A box, and how many bytes its records take.
#[derive(Clone, Copy)]
pub struct Standing {
    state: SignalBox,
    length: usize,
}
