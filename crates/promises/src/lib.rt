// What is promised of every world that steps lead to, each named by the contract of a function.
#![tactic(auto)]

mod had;
mod rings;
mod steps;

pub use had::had_until_freed;
pub use rings::{ring_stays, told_in_a_ring};
pub use steps::{
    again_changes_nothing, cut_changes_nothing, in_turn, same_after_a_stop, turned_away,
};
