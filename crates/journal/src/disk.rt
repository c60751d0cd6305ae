// A file of the system. No proof can say what it holds: that it keeps the promises of a file is assumed.
ghost use Rattle.std.specs.Prelude.{◌≡◌, ℕ, List, false, IfOk, IsTrue};
ghost use Rattle.std.proofs.Common.{rules};

use crate::fault::Fault;
use crate::file::File;
use std::alloc::Global;
use std::fs;
use std::fs::OpenOptions;
use std::io::{Read, Seek, SeekFrom, Write};

#[derive(Drop)]
pub struct DiskFile {
    file: fs::File,
    // Whether a sync succeeded after the last append or cut.
    synced: bool,
}

impl DiskFile {
    // The file at `path`, made if it isn't there; `folder` is the one that it is in, synced so that it stays there.
    pub fn open(rt: &HostRuntime, folder: &str, path: &str) -> Result<DiskFile, Fault>
        ensures { IfOk result (λ f. f.synced ≡ false) }
    {
        let file = OpenOptions::new()
            .read(true)
            .append(true)
            .create(true)
            .open(rt, path)
            .map_err(|_| Fault::Open)?;
        let directory = fs::open(rt, folder).map_err(|_| Fault::Open)?;
        directory.sync_all().map_err(|_| Fault::Open)?;
        Ok(DiskFile {
            file,
            synced: false,
        })
    }
}

impl File for DiskFile {
    // Never known here, so nothing is promised of its bytes.
    ghost holds = { λ _ _ _. ⊥ };

    ghost settled = { λ f. IsTrue f.synced };

    ghost within = { Prim.search rules };

    ghost all = { Prim.search rules };

    fn append(&mut self, bytes: &[u8]) -> Result<(), Fault> {
        self.synced = false;
        self.file.write_all(bytes).map_err(|_| Fault::Append)
    }

    fn sync(&mut self) -> Result<(), Fault> {
        self.file.sync_data().map_err(|_| Fault::Sync)?;
        self.synced = true;
        Ok(())
    }

    fn read_all(&mut self, heap: Global) -> Result<Vec<u8>, Fault> {
        self.file.seek(SeekFrom::Start(0)).map_err(|_| Fault::Read)?;
        let mut bytes = Vec::new(heap);
        self.file.read_to_end(&mut bytes).map_err(|_| Fault::Read)?;
        Ok(bytes)
    }

    fn cut(&mut self, kept: usize) -> Result<(), Fault> {
        self.synced = false;
        self.file.set_len(kept as u64).map_err(|_| Fault::Cut)
    }
}
