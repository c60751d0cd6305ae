// Lines, one after another.
ghost use Rattle.std.specs.Prelude.{◌≡◌, ◌<◌, [], ◌∷◌, length, Ok, IfNone, IfSome, OnOk};
ghost use Rattle.lines.specs.Lines.{said_of};
ghost use Rattle.boxes.specs.Log.{log_of};
ghost use Rattle.boxes.specs.Model.{state_of};
ghost use Rattle.box_run.specs.Lines.{lines_in};
ghost use Rattle.box_run.specs.Serve.{Fed, FedEach, done, heard};

use crate::own::settle;
use boxes::{Input, SignalBox};
use journal::{Effects, Fault, Output};
use lines::{Line, read};
use words::split_once;

// The box and its effects are lent by two owners, and each clause speaks of both: a struct of the two `&mut` would say no less.

// What a line says, done.
fn obey(state: &mut SignalBox, line: Line, effects: &mut Effects) -> Result<(), Fault>
    ensures { OnOk result ((state_of state.new, log_of effects.new) ≡ done (state_of state.old) (Ok (said_of line)) (log_of effects.old)) }
{
    match line {
        Line::Message { from, message } => state.deliver(from, message.as_slice(), effects),
        Line::Take { engine, section } => state.handle(Input::Take { engine, section }, effects),
        Line::Free { engine, section } => state.handle(Input::Free { engine, section }, effects),
        Line::Second => state.handle(Input::Second, effects),
    }
}

// The same for the line's text; what says nothing is refused.
fn hear(state: &mut SignalBox, line: &[u8], effects: &mut Effects) -> Result<(), Fault>
    ensures { OnOk result ((state_of state.new, log_of effects.new) ≡ heard line.now (state_of state.old, log_of effects.old)) }
{
    match read(state.home().yard(), line) {
        Ok(line) => obey(state, line, effects),
        Err(refusal) => effects.say(Output::Refused(refusal)),
    }
}

// One line, and then all that the box sends to itself because of it.
fn feed(state: &mut SignalBox, line: &[u8], effects: &mut Effects) -> Result<(), Fault>
    ensures { OnOk result (Fed line.now (state_of state.old, log_of effects.old) (state_of state.new, log_of effects.new)) }
{
    let before = effects.said_so_far();
    hear(state, line, effects)?;
    settle(state, before, effects)
}

// A text's first line, and what follows its newline; no line, where there is no text.
fn first_line(text: &[u8]) -> Option<(&[u8], &[u8])>
    ensures none { IfNone result (lines_in text.now ≡ []) }
    ensures line { IfSome result (λ (line, rest). lines_in text.now ≡ line.now ∷ lines_in rest.now) }
    ensures less { IfSome result (λ (line, rest). length rest.now < length text.now) }
{
    match split_once(text, b'\n') {
        Some(both) => Some(both),
        None if text.is_empty() => None,
        None => Some((text, &[])),
    }
}

// The lines of a text; the last need have no newline.
pub(crate) fn feed_all(
    state: &mut SignalBox,
    text: &[u8],
    effects: &mut Effects,
) -> Result<(), Fault>
    ensures { OnOk result (FedEach (lines_in text.now) (state_of state.old, log_of effects.old) (state_of state.new, log_of effects.new)) }
{
    // A line and what follows it: pieces that keep their newlines would have to be stripped of them again.
    let mut rest = text;
    while let Some((line, after)) = first_line(rest) {
        feed(state, line, effects)?;
        rest = after;
    }
    Ok(())
}
