// Boxes that run together from nothing on, and what is promised of each step.
#![tactic(auto)]

mod port;
mod walk;

pub use port::Port;
