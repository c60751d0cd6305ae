// One engine at its home: its calls, its waits, what it holds, and what comes of each input, by value.
#![tactic(auto)]

mod inputs;
mod places;
mod state;

pub use places::Places;
pub use state::{Asked, Event, Known, Mode, State, Stored, Wait};
