// Group commit: all lines of a text are handled before one sync, and nothing of them is said before it.
ghost use Rattle.std.specs.Prelude.{◌≡◌, OnOk};
ghost use Rattle.boxes.specs.Model.{state_of};
ghost use Rattle.box_run.specs.Lines.{lines_in};
ghost use Rattle.box_run.specs.Serve.{Serves};

use crate::feeding::feed_all;
use boxes::SignalBox;
use journal::{Effects, Fault, File, Said};
use std::alloc::Global;

pub fn serve<F: File>(
    state: &mut SignalBox,
    file: &mut F,
    text: &[u8],
    heap: Global,
) -> Result<Said, Fault>
    ensures serves { Serves (lines_in text.now) (state_of state.old) (state_of state.new) (F.File.holds file.old) (F.File.holds file.new) result }
    ensures settled { F.File.settled file.old → OnOk result (F.File.settled file.new) }
{
    Effects::gather(heap, state, |state, effects| feed_all(state, text, effects))?.commit(file)
}
