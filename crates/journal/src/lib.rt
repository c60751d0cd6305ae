// The file of a box: what is recorded, synced, said only then, and read back after a stop.
#![tactic(auto)]

mod after_stop;
mod disk;
mod effects;
mod fault;
mod file;
mod memory;
mod opening;
mod output;
mod promises;
mod store;

pub use after_stop::restart;
pub use disk::DiskFile;
pub use effects::{Effects, Said};
pub use fault::Fault;
pub use file::File;
pub use memory::MemoryFile;
pub use opening::{OpenFault, cut_back, open, read_back};
pub use output::Output;
pub use promises::{appended_reads_back, opened_twice};
