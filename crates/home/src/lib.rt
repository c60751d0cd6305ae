// The home's half of a signal box: its engines, each input at one of them, without input or output.
#![tactic(auto)]

mod home;
mod inputs;
mod queries;
mod shape;

pub use home::{Home, Note, is_home};
