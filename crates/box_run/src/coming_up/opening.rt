// From a file to the box that it stands for, or to the byte at which it is damaged.
ghost use Rattle.std.specs.Prelude.{◌≡◌, ℕ, ◌^◌, ◌<◌, List, length as size, take, sum_by, IfOk, OnOk};
ghost use Rattle.messages.specs.Table.{record_bytes};
ghost use Rattle.messages.specs.Journal.{written};
ghost use Rattle.journal.specs.Effect.{said_of};
ghost use Rattle.boxes.specs.Handle.{reminders_of};
ghost use Rattle.boxes.specs.Log.{none};
ghost use Rattle.box_run.specs.Opening.{ComesUp, ReadUp, StandsFor};

use crate::coming_up::{CameUp, Standing};
use crate::which::Which;
use boxes::SignalBox;
use journal::{Effects, Fault, File, OpenFault, Said, cut_back, read_back};
use messages::{Record, Replay, encode_record};
use std::alloc::Global;

// How many bytes records take.
fn bytes_of(records: &[Record]) -> usize
    requires { sum_by (λ r. size (record_bytes r)) records.now < 2 ^ 64 }
    ensures { result ≡ sum_by (λ r. size (record_bytes r)) records.now }
{
    records
        .iter()
        .map(|record| encode_record(*record).as_slice().len())
        .sum()
}

// The byte at which a record begins; past the last, where they end.
fn byte_of(records: &[Record], index: usize) -> usize
    requires { size (written records.now) < 2 ^ 64 }
    ensures { result ≡ size (written (take index records.now)) }
{
    bytes_of(&records[..index.min(records.len())])
}

// The box that records stand for, or the byte of the first that it couldn't have written.
fn stand_for(which: Which, records: &[Record]) -> Result<SignalBox, OpenFault>
    requires { size (written records.now) < 2 ^ 64 }
    ensures { StandsFor which.yard which.number records.now result }
{
    SignalBox::open(which.yard, which.number, records).map_err(|unwritten| OpenFault::Damaged(
        byte_of(records, unwritten.index),
    ))
}

// Who was told to give back and still holds a section. Nothing is recorded.
fn say_reminders<F: File>(state: &SignalBox, file: &mut F, heap: Global) -> Result<Said, Fault>
    ensures said { IfOk result (λ s. said_of s ≡ (reminders_of state.now.home none).outputs) }
    ensures kept { (xs : List ℕ) → F.File.holds file.old xs (size xs) → F.File.holds file.new xs (size xs) }
    ensures settled { F.File.settled file.old → OnOk result (F.File.settled file.new) }
{
    Effects::gather(heap, &mut (), |_, effects| state.remind(effects))?.commit(file)
}

// What the file stands for; it isn't changed.
fn read_up<F: File>(file: &mut F, which: Which, heap: Global) -> Result<Standing, OpenFault>
    ensures { (xs : List ℕ) (n : ℕ) → F.File.holds file.old xs n → F.File.holds file.new xs n × ReadUp which.yard which.number xs result }
{
    let Replay { records, length } = read_back(file, which.yard, heap)?;
    let state = stand_for(which, records.as_slice())?;
    Ok(Standing { state, length })
}

// The box that the file stands for. What a stop cut short is cut away; damage is left as it is.
pub fn come_up<F: File>(file: &mut F, which: Which, heap: Global) -> Result<CameUp, OpenFault>
    ensures up { (xs : List ℕ) (n : ℕ) → F.File.holds file.old xs n → ComesUp which.yard which.number xs n (F.File.holds file.new) result }
    ensures settled { OnOk result (F.File.settled file.new) }
{
    let Standing { state, length } = read_up(file, which, heap)?;
    cut_back(file, length)?;
    let said = say_reminders(&state, file, heap)?;
    Ok(CameUp { state, said })
}
