// A file opened: its whole records, or the byte at which it is damaged.
ghost use Rattle.std.specs.Prelude.{◌≡◌, ℕ, ◌≤◌, min, List, length as size, take, IfOk, MatchResult, OnOk};
ghost use Rattle.journal.specs.declared.fault.Fault.TheVariants as file_fault;
ghost use Rattle.journal.specs.declared.opening.OpenFault.TheVariants as fault;
ghost use Rattle.journal.specs.Opening.{Found, Leaves, Reads, fault_of};
ghost use Rattle.journal.specs.Storage.{Remains};
ghost use Rattle.messages.specs.Journal.{written};

use crate::fault::Fault;
use crate::file::File;
use messages::{Record, Replay, Unread, Yard, read_records};
use std::alloc::{AllocFailed, Global};

#[derive(Clone, Copy, PartialEq, Eq, Debug)]
pub enum OpenFault {
    Fault(Fault),
    // At this byte stands what no stop leaves: a record that is whole and wrong.
    Damaged(usize),
}

impl From<Fault> for OpenFault {
    ghost from_gives = { λ f e. e ≡ fault.Fault f };

    fn from(fault: Fault) -> OpenFault {
        OpenFault::Fault(fault)
    }
}

impl<T: Drop> From<AllocFailed<T>> for OpenFault {
    ghost from_gives = { λ _ e. e ≡ fault.Fault file_fault.Memory };

    fn from(refused: AllocFailed<T>) -> OpenFault {
        OpenFault::from(Fault::from(refused))
    }
}

impl From<Unread> for OpenFault {
    ghost from_gives = { λ u e. e ≡ fault_of u };

    fn from(unread: Unread) -> OpenFault {
        match unread {
            Unread::Damaged { at } => OpenFault::Damaged(at),
            Unread::NoMemory => OpenFault::Fault(Fault::Memory),
        }
    }
}

// What the file has; it isn't changed. Here and below file, yard and heap are lent or handed in by three owners.
pub fn read_back<F: File>(file: &mut F, yard: Yard, heap: Global) -> Result<Replay, OpenFault>
    ensures found { (xs : List ℕ) (n : ℕ) → F.File.holds file.old xs n → F.File.holds file.new xs n × Found yard xs result }
    ensures whole { IfOk result (λ p. p.length ≡ size (written p.records.items)) }
{
    let bytes = file.read_all(heap)?;
    Ok(read_records(heap, yard, bytes.as_slice())?)
}

// Cuts the file back to its first `whole` bytes, and syncs them: what they say may be acted on.
pub fn cut_back<F: File>(file: &mut F, whole: usize) -> Result<(), Fault>
    ensures held { (xs : List ℕ) (n : ℕ) → F.File.holds file.old xs n → whole ≤ size xs → MatchResult result (λ _. F.File.holds file.new (take whole xs) (size (take whole xs))) (λ _. Remains (F.File.holds file.new) xs (min n whole)) }
    ensures settled { OnOk result (F.File.settled file.new) }
{
    file.cut(whole)?;
    file.sync()
}

// The whole records of the file. One that a stop cut short is cut away, and the others are synced before anything rests on them.
pub fn open<F: File>(file: &mut F, yard: Yard, heap: Global) -> Result<Vec<Record>, OpenFault>
    ensures reads { (xs : List ℕ) (n : ℕ) → F.File.holds file.old xs n → Reads yard xs result }
    ensures leaves { (xs : List ℕ) (n : ℕ) → F.File.holds file.old xs n → Leaves yard xs n (F.File.holds file.new) result }
    ensures settled { OnOk result (F.File.settled file.new) }
{
    // A rule of this repository: what the reader answers is taken apart where it stands.
    let answer = read_back(file, yard, heap);
    let Ok(Replay { records, length }) = answer else {
        return Err(answer.unwrap_err());
    };
    cut_back(file, length)?;
    Ok(records)
}
