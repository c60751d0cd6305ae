// Records written to a file: one append, then a sync.
ghost use Rattle.std.specs.Prelude.{◌≡◌, ℕ, List, ◌++◌, length, IfOk, MatchResult, OnOk};
ghost use Rattle.messages.specs.Journal.{written};
ghost use Rattle.journal.specs.Storage.{Remains};

use crate::fault::Fault;
use crate::file::File;
use messages::{Record, encode_record};
use std::alloc::Global;

// Nothing is written where there are no records, and then there is nothing to sync.
pub(crate) fn store<F: File>(file: &mut F, records: &[Record], heap: Global) -> Result<(), Fault>
    ensures stored { (xs : List ℕ) → F.File.holds file.old xs (length xs) → MatchResult result (λ _. F.File.holds file.new (xs ++ written records.now) (length (xs ++ written records.now))) (λ _. Remains (F.File.holds file.new) (xs ++ written records.now) (length xs)) }
    ensures settled { F.File.settled file.old → OnOk result (F.File.settled file.new) }
{
    if !records.is_empty() {
        append_and_sync(file, records, heap)?;
    }
    Ok(())
}

fn append_and_sync<F: File>(file: &mut F, records: &[Record], heap: Global) -> Result<(), Fault>
    ensures stored { (xs : List ℕ) (n : ℕ) → F.File.holds file.old xs n → MatchResult result (λ _. F.File.holds file.new (xs ++ written records.now) (length (xs ++ written records.now))) (λ _. Remains (F.File.holds file.new) (xs ++ written records.now) n) }
    ensures settled { OnOk result (F.File.settled file.new) }
{
    let bytes = encode_all(records, heap)?;
    file.append(bytes.as_slice())?;
    file.sync()
}

fn encode_all(records: &[Record], heap: Global) -> Result<Vec<u8>, Fault>
    ensures { IfOk result (λ v. v.items ≡ written records.now) }
{
    let mut bytes = Vec::new(heap);
    for record in records {
        bytes.extend_from_slice(encode_record(*record).as_slice())?;
    }
    Ok(bytes)
}
