// The file in memory, held to the promises of a file.
ghost use Rattle.std.specs.Prelude.{◌≡◌, ◌+◌, List, [], ◌++◌, take, vec_len};
ghost use Rattle.journal.specs.Memory.{held_by};
ghost use Rattle.std.proofs.Common.{rules, arith};

use crate::fault::Fault;
use crate::file::File;
use crate::memory::MemoryFile;
use std::alloc::Global;

impl MemoryFile {
    pub fn new(heap: Global) -> MemoryFile
        ensures bytes { held_by result ≡ [] }
        ensures synced { result.synced ≡ 0 }
    {
        MemoryFile {
            bytes: Vec::new(heap),
            synced: 0,
        }
    }

    // The machine stops: what was synced is left, and `keep` bytes more, if there are so many.
    pub fn stop(&mut self, keep: usize)
        ensures bytes { held_by self.new ≡ take (self.old.synced + keep) (held_by self.old) }
        ensures synced { self.new.synced ≡ self.old.synced }
    {
        self.bytes.truncate(self.synced.saturating_add(keep));
    }
}

impl File for MemoryFile {
    ghost holds = { λ f xs n. (held_by f ≡ xs) × (f.synced ≡ n) };

    ghost settled = { λ f. f.synced ≡ vec_len f.bytes };

    ghost within = { first_of (Prim.search rules, Prim.grind (arith, Self.row.coded.inj)) };

    ghost all = { first_of (Prim.search rules, Prim.grind (arith, Self.row.coded.inj)) };

    fn append(&mut self, bytes: &[u8]) -> Result<(), Fault> {
        self.bytes.extend_from_slice(bytes)?;
        Ok(())
    }

    fn sync(&mut self) -> Result<(), Fault> {
        self.synced = self.bytes.len();
        Ok(())
    }

    fn read_all(&mut self, heap: Global) -> Result<Vec<u8>, Fault> {
        Ok(Vec::from_slice(heap, self.bytes.as_slice())?)
    }

    fn cut(&mut self, kept: usize) -> Result<(), Fault> {
        self.synced = self.synced.min(kept);
        self.bytes.truncate(kept);
        Ok(())
    }
}
