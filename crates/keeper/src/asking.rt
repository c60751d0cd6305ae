// A call whose number is the next, put to the sections.
ghost use Rattle.std.specs.Prelude.{◌≡◌, ◌<◌};
ghost use Rattle.keeper.specs.Model.{State, model_of};
ghost use Rattle.keeper.specs.Calls.{ask_of, answer_of, tried_of};
ghost use Rattle.sections.specs.Model.{table_of};

use crate::{Answer, Keeper, LastCall, Verdict, words};
use messages::{Act, Call, Engine};
use sections::{Done, Refusal, Sections};

// The sections do what is called for.
fn ask(sections: &mut Sections, call: Call) -> Result<Done, Refusal>
    ensures { (table_of sections.new, result) ≡ ask_of (table_of sections.old) call }
{
    let engine = call.engine.0;
    let place = call.section.place;
    match call.act {
        Act::Take => sections.take_or_wait(engine, place),
        Act::Free => sections.free(engine, place),
        Act::GiveUp => sections.give_up(engine, place),
    }
}

// What a call is answered: who has its section now, of which change.
fn answer_at(sections: &Sections, place: u8, outcome: Result<Done, Refusal>) -> Answer
    ensures { result ≡ answer_of (table_of sections.now) place outcome }
{
    Answer {
        reply: words::reply(outcome),
        holder: sections.holder(place).map(Engine),
        change: sections.change(place),
    }
}

impl Keeper {
    // A call whose number is the next.
    pub(crate) fn tried(&mut self, call: Call) -> Verdict
        requires { call.engine.0 < 64 }
        ensures { (model_of self.new, result) ≡ tried_of (model_of self.old) call }
    {
        let result = ask(&mut self.sections, call);
        let answer = answer_at(&self.sections, call.section.place, result);
        let verdict = Verdict::of(answer, result);
        if let Some(answer) = verdict.recorded() {
            self.calls[call.engine.0 as usize] = LastCall {
                number: call.number,
                answer,
            };
        }
        verdict
    }
}
