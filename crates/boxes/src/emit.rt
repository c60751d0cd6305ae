// From an event at a home to what is recorded, sent and printed.
ghost use Rattle.std.specs.Prelude.{◌≡◌, OnOk};
ghost use Rattle.boxes.specs.Log.{log_of, sent};
ghost use Rattle.boxes.specs.Emit.{tell_of, tells_of, called_of, found_of, began_of, emit_of, sign_sent};

use engine_state::Event;
use home::Home;
use journal::{Effects, Fault, Output};
use messages::{Beginning, BoxNumber, Call, Engine, Message, Record, Sign, Waits};

// The home and the effects are lent by two owners, and each clause speaks of both: a struct of the two references would say no less.

pub(crate) fn send(to: BoxNumber, message: Message, effects: &mut Effects) -> Result<(), Fault>
    ensures { OnOk result (log_of effects.new ≡ sent (log_of effects.old) to message) }
{
    effects.say(Output::Send { to, message })
}

// A sign, to the home of the engine that it is told to.
fn send_sign(home: &Home, sign: Sign, effects: &mut Effects) -> Result<(), Fault>
    ensures { OnOk result (log_of effects.new ≡ sign_sent home.now sign (log_of effects.old)) }
{
    send(home.yard().home(sign.to), Message::Sign(sign), effects)
}

// The sign that `by` shows, to `to` if it is noted as waiting for what `by` holds.
fn tell(home: &Home, by: Engine, sign: u64, to: Engine, effects: &mut Effects) -> Result<(), Fault>
    ensures { OnOk result (log_of effects.new ≡ tell_of home.now by sign to (log_of effects.old)) }
{
    if let Some(note) = home.note(to)
        && home.holds(by, note.section)
    {
        let told = Sign {
            to,
            count: note.count,
            by,
            sign,
        };
        send_sign(home, told, effects)?;
    }
    Ok(())
}

// The sign that `by` shows, to all of its waiters.
pub(crate) fn tell_waiters(
    home: &Home,
    by: Engine,
    sign: u64,
    effects: &mut Effects,
) -> Result<(), Fault>
    ensures { OnOk result (log_of effects.new ≡ tells_of home.now by sign (log_of effects.old)) }
{
    for to in (0..home.yard().engines).map(Engine) {
        tell(home, by, sign, to, effects)?;
    }
    Ok(())
}

fn send_call(call: Call, effects: &mut Effects) -> Result<(), Fault>
    ensures { OnOk result (log_of effects.new ≡ called_of call (log_of effects.old)) }
{
    effects.record(Record::Made(call))?;
    send(call.section.keeper, Message::Call(call), effects)
}

// A ring is found: the driver is told, and the engine leaves its queue.
fn tell_to_give_back(call: Call, effects: &mut Effects) -> Result<(), Fault>
    ensures { OnOk result (log_of effects.new ≡ found_of call (log_of effects.old)) }
{
    effects.say(Output::GiveBack {
        engine: call.engine,
    })?;
    send_call(call, effects)
}

// An engine begins to wait: the section's box is told, and those that wait for the engine are told its new sign.
fn say_beginning(home: &Home, beginning: Beginning, effects: &mut Effects) -> Result<(), Fault>
    ensures { OnOk result (log_of effects.new ≡ began_of home.now beginning.engine beginning.section beginning.change beginning.holder beginning.count beginning.own (log_of effects.old)) }
{
    let waits = Waits {
        engine: beginning.engine,
        section: beginning.section,
        count: beginning.count,
        change: beginning.change,
    };
    effects.record(Record::Beginning {
        holder: beginning.holder,
        waits,
        own: beginning.own,
    })?;
    send(beginning.section.keeper, Message::Waits(waits), effects)?;
    tell_waiters(home, beginning.engine, beginning.own, effects)
}

// What an event gives: records, and what may be said once they are stored.
pub(crate) fn emit(home: &Home, event: Event, effects: &mut Effects) -> Result<(), Fault>
    ensures { OnOk result (log_of effects.new ≡ emit_of home.now event (log_of effects.old)) }
{
    match event {
        Event::PassedOver | Event::Closed => Ok(()),
        Event::Refused(refusal) | Event::RefusedBy(refusal) => effects.say(Output::Refused(
            refusal,
        )),
        Event::Had { engine, section } => effects.say(Output::Had { engine, section }),
        Event::Called(call) => send_call(call, effects),
        Event::Found(call) => tell_to_give_back(call, effects),
        Event::Began(beginning) => say_beginning(home, beginning, effects),
        Event::Heard { engine, sign } => {
            effects.record(Record::Heard { engine, sign })?;
            tell_waiters(home, engine, sign, effects)
        }
        Event::Noted(sign) => send_sign(home, sign, effects),
    }
}
