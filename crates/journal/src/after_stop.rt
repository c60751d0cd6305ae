// A stop anywhere, and the opening after it.
ghost use Rattle.std.specs.Prelude.{◌≡◌, List, ◌++◌, length};
ghost use Rattle.messages.specs.declared.message.Record.{Record as Stored};
ghost use Rattle.messages.specs.Journal.{AllIn, written};
ghost use Rattle.journal.specs.Memory.{held_by};
ghost use Rattle.journal.specs.Opening.{Restarted};

use crate::memory::MemoryFile;
use crate::opening::{OpenFault, open};
use messages::{Record, Yard};
use std::alloc::Global;

// The machine stops, with `keep` bytes left of what wasn't synced, and the file is opened again.
pub fn restart(
    file: &mut MemoryFile,
    keep: usize,
    yard: Yard,
    heap: Global,
) -> Result<Vec<Record>, OpenFault>
    ensures { (rs others : List Stored) → AllIn yard rs → AllIn yard others → held_by file.old ≡ written (rs ++ others) → file.old.synced ≡ length (written rs) → Restarted rs others (held_by file.new) result }
{
    file.stop(keep);
    open(file, yard, heap)
}
