// A box with its file.
ghost use Rattle.std.specs.Prelude.{◌≡◌, vec_len};

mod running;

use boxes::SignalBox;
use journal::MemoryFile;

#[derive(Drop)]
pub struct Station {
    state: SignalBox,
    file: MemoryFile,
    ghost synced: { file.synced ≡ vec_len file.bytes },
}
