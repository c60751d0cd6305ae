// Messages' words for what the sections answer.
// Functions: both types are of other crates, and an impl of From stands beside one of its types.
ghost use Rattle.std.specs.Prelude.{◌≡◌};
ghost use Rattle.keeper.specs.Words.{recorded_of, refusal_of, reply_of, verdict_of};

use crate::{Answer, Verdict};
use messages::{Refusal, Reply};
use sections::Done;

fn refusal(from: sections::Refusal) -> Refusal
    ensures { result ≡ refusal_of from }
{
    match from {
        sections::Refusal::OutOfRange => Refusal::Malformed,
        sections::Refusal::Waiting => Refusal::Waiting,
        sections::Refusal::Mismatch => Refusal::Mismatch,
        sections::Refusal::AtLimit => Refusal::Exhausted,
    }
}

pub(crate) fn reply(outcome: Result<Done, sections::Refusal>) -> Reply
    ensures { result ≡ reply_of outcome }
{
    match outcome {
        Ok(Done::Waits(_)) => Reply::Waits,
        Ok(Done::Had | Done::LetGo(_) | Done::Left) => Reply::Done,
        Err(why) => Reply::Refused(refusal(why)),
    }
}

impl Verdict {
    // What came of a call that was put to the sections.
    pub(crate) fn of(answer: Answer, outcome: Result<Done, sections::Refusal>) -> Verdict
        ensures { result ≡ verdict_of answer outcome }
    {
        match outcome {
            Ok(Done::LetGo(Some(_))) => Verdict::PassedOn(answer),
            Ok(Done::LetGo(None) | Done::Had | Done::Waits(_) | Done::Left) => Verdict::Done(
                answer,
            ),
            Err(sections::Refusal::OutOfRange) => Verdict::Malformed,
            Err(sections::Refusal::AtLimit) => Verdict::AtLimit(answer),
            Err(why) => Verdict::Refused(refusal(why), answer),
        }
    }

    // The answer, if the call used up its number: such a call is recorded.
    pub fn recorded(self) -> Option<Answer>
        ensures { result ≡ recorded_of self }
    {
        match self {
            Verdict::Refused(_, answer) | Verdict::Done(answer) | Verdict::PassedOn(answer) => {
                Some(answer)
            }
            Verdict::Malformed | Verdict::PassedOver | Verdict::Again(_) | Verdict::AtLimit(_) =>
                None,
        }
    }
}
