// Boxes that run together: whatever was sent can be delivered late, twice, cut short or never, and every box can stop.
#![tactic(auto)]

mod envelope;
mod station;
mod step;
mod world;

pub use envelope::Envelope;
pub use step::{Outcome, Step};
pub use world::World;
