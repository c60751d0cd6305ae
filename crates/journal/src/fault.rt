// Why the file can't be gone on with. After one the program ends: what it had synced is what it comes up with.
ghost use Rattle.std.specs.Prelude.{◌≡◌, Some};
ghost use Rattle.journal.specs.declared.fault.Fault.TheVariants as fault;
ghost use Rattle.journal.specs.Fault.{fault_text};

use std::alloc::{AllocError, AllocFailed};
use std::fmt;

#[derive(Clone, Copy, PartialEq, Eq, Debug)]
pub enum Fault {
    Memory,
    Open,
    Append,
    Sync,
    Read,
    Cut,
}

impl From<AllocError> for Fault {
    ghost from_gives = { λ _ f. f ≡ fault.Memory };

    fn from(_error: AllocError) -> Fault {
        Fault::Memory
    }
}

impl<T: Drop> From<AllocFailed<T>> for Fault {
    ghost from_gives = { λ _ f. f ≡ fault.Memory };

    fn from(_refused: AllocFailed<T>) -> Fault {
        Fault::Memory
    }
}

impl fmt::Display for Fault {
    ghost output = { λ fault. Some (fault_text fault) };

    fn fmt<W: fmt::Write>(&self, f: &mut fmt::Formatter<W>) -> fmt::Result {
        f.write_str(match *self {
            Fault::Memory => "no memory",
            Fault::Open => "can't be opened",
            Fault::Append => "can't be written",
            Fault::Sync => "can't be synced",
            Fault::Read => "can't be read",
            Fault::Cut => "can't be cut back",
        })
    }
}
