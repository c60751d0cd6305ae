// What is said again every second, and what is said on opening.
ghost use Rattle.std.specs.Prelude.{◌≡◌, OnOk};
ghost use Rattle.boxes.specs.Log.{log_of};
ghost use Rattle.boxes.specs.Handle.{reminder_for, reminders_of, second_for, second_of, wait_again};

use crate::emit::{send, tell_waiters};
use crate::signal_box::SignalBox;
use engine_state::Wait;
use home::Home;
use journal::{Effects, Fault, Output};
use messages::{Engine, Message, Waits};

// A wait, to the section's box, and the question what the last change is.
fn wait_again(engine: Engine, wait: Wait, effects: &mut Effects) -> Result<(), Fault>
    ensures { OnOk result (log_of effects.new ≡ wait_again engine (Some wait) (log_of effects.old)) }
{
    let section = wait.section;
    let waits = Waits {
        engine,
        section,
        count: wait.count,
        change: wait.change,
    };
    send(section.keeper, Message::Waits(waits), effects)?;
    send(
        section.keeper,
        Message::WhichChange { engine, section },
        effects,
    )
}

fn second_for(home: &Home, engine: Engine, effects: &mut Effects) -> Result<(), Fault>
    ensures { OnOk result (log_of effects.new ≡ second_for home.now engine (log_of effects.old)) }
{
    if let Some(call) = home.open_call(engine) {
        send(call.section.keeper, Message::Call(call), effects)?;
    }
    if let Some(wait) = home.wait(engine) {
        wait_again(engine, wait, effects)?;
    }
    if let Some(signs) = home.signs(engine) {
        tell_waiters(home, engine, signs.shown, effects)?;
    }
    Ok(())
}

fn remind(home: &Home, engine: Engine, effects: &mut Effects) -> Result<(), Fault>
    ensures { OnOk result (log_of effects.new ≡ reminder_for home.now engine (log_of effects.old)) }
{
    if home.is_giving_back(engine) {
        effects.say(Output::GivingBack { engine })?;
    }
    Ok(())
}

impl SignalBox {
    // Open calls, waits and signs again: what was lost comes in the end.
    // The box's loops over engines or boxes are each a `for` of one line: a function that took the step as a closure would say no less, and owe a clause of its own.
    pub(crate) fn second(&self, effects: &mut Effects) -> Result<(), Fault>
        ensures { OnOk result (log_of effects.new ≡ second_of self.now.home (log_of effects.old)) }
    {
        for engine in (0..self.home.yard().engines).map(Engine) {
            second_for(&self.home, engine, effects)?;
        }
        Ok(())
    }

    // On opening: who was told to give back and still holds a section.
    pub fn remind(&self, effects: &mut Effects) -> Result<(), Fault>
        ensures { OnOk result (log_of effects.new ≡ reminders_of self.now.home (log_of effects.old)) }
    {
        for engine in (0..self.home.yard().engines).map(Engine) {
            remind(&self.home, engine, effects)?;
        }
        Ok(())
    }
}
