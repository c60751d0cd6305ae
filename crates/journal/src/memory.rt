// A file in memory that can stop anywhere: what the rules of stopping are proved and tested on.
ghost use Rattle.std.specs.Prelude.{◌≤◌, vec_len};

pub mod storing;

#[derive(Drop)]
pub struct MemoryFile {
    bytes: Vec<u8>,
    synced: usize,
    ghost within: { synced ≤ vec_len bytes },
}
