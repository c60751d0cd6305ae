// A signal box: the keeper of its sections and the home of its engines, as one function from an input to effects.
#![tactic(auto)]

mod emit;
mod handle;
mod keeping;
mod opening;
mod parts;
mod second;
mod signal_box;

pub use opening::Unwritten;
pub use signal_box::{Input, SignalBox};
