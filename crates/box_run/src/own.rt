// What a box sends to itself is handled in the order of sending, before anything else comes in.
ghost use Rattle.std.specs.Prelude.{◌≡◌, OnOk};
ghost use Rattle.boxes.specs.Log.{log_of};
ghost use Rattle.boxes.specs.Model.{state_of};
ghost use Rattle.box_run.specs.Own.{SettlesOneWay, own_handled};
ghost use Rattle.box_run.specs.Serve.{Settled};

use boxes::{Input, SignalBox};
use journal::{Effects, Fault};
use messages::BoxNumber;

// The output at a place, if it is for the box itself.
fn handle_own(
    state: &mut SignalBox,
    own: BoxNumber,
    at: usize,
    effects: &mut Effects,
) -> Result<(), Fault>
    ensures { OnOk result ((state_of state.new, log_of effects.new) ≡ own_handled own at (state_of state.old, log_of effects.old)) }
{
    match effects.to_itself(own, at) {
        Some(message) => state.handle(Input::Received { from: own, message }, effects),
        None => Ok(()),
    }
}

// All outputs from a place on, those too that come of them: it ends, since memory does.
pub(crate) fn settle(state: &mut SignalBox, from: usize, effects: &mut Effects) -> Result<(), Fault>
    ensures { OnOk result (Settled from (state_of state.old, log_of effects.old) (state_of state.new, log_of effects.new)) }
{
    let own = state.home().number();
    let mut at = from;
    // Outputs are added while these are gone through, so no iterator goes over them.
    while at < effects.said_so_far() {
        handle_own(state, own, at, effects)?;
        at += 1;
    }
    Ok(())
}

// What comes of it is pinned.
pub fn settles_one_way()
    ensures { SettlesOneWay }
{}
