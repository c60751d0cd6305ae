// From a message to its bytes, field by field as the table has them.
ghost use Rattle.std.specs.Prelude.{◌≡◌, ◌<◌, ◌++◌};
ghost use Rattle.messages.specs.Table.{bytes_of, holder_byte, refusal_number, reply_byte, reply_end};
ghost use Rattle.messages.specs.Written.{encoded};

use crate::encoded::Encoded;
use crate::message::{Act, Message, Refusal, Reply};
use crate::yard::{Engine, NOBODY};

pub fn encode(message: Message) -> Encoded
    ensures { encoded result ≡ bytes_of message }
{
    let mut out = Encoded::empty();
    encode_into(message, &mut out);
    out
}

// Writes `message` in place of what `out` had. Each kind is written there at once: a place that all kinds
// share on the way is copied byte by byte.
pub fn encode_into(message: Message, out: &mut Encoded)
    ensures { encoded out.new ≡ bytes_of message }
{
    match message {
        Message::Call(call) => *out = Encoded::empty().call(call),
        Message::Answer {
            engine,
            call,
            answer,
        } => {
            let start = Encoded::empty()
                .byte(4)
                .byte(engine.0)
                .four(call)
                .byte(answer.reply.byte())
                .byte(holder_byte(answer.holder))
                .four(answer.change);
            *out = reply_end(start, answer.reply);
        }
        Message::Change(change) => {
            *out = Encoded::empty()
                .byte(5)
                .section(change.section)
                .byte(holder_byte(change.holder))
                .four(change.change);
        }
        Message::WhichChange { engine, section } => {
            *out = Encoded::empty().byte(6).byte(engine.0).section(section);
        }
        Message::Sign(sign) => {
            *out = Encoded::empty()
                .byte(7)
                .byte(sign.to.0)
                .four(sign.count)
                .byte(sign.by.0)
                .eight(sign.sign);
        }
        Message::Waits(waits) => {
            *out = Encoded::empty()
                .byte(12)
                .byte(waits.engine.0)
                .section(waits.section)
                .four(waits.count)
                .four(waits.change);
        }
    }
}

// A refusal's number is the last byte of an answer, and of no other answer.
fn reply_end(out: Encoded, reply: Reply) -> Encoded
    requires { out.used < 21 }
    ensures { encoded result ≡ encoded out ++ reply_end reply }
{
    match reply {
        Reply::Done | Reply::Waits => out,
        Reply::Refused(refusal) => out.byte(refusal.number()),
    }
}

impl From<Act> for u8 {
    ghost use Rattle.std.specs.Prelude.{◌≡◌};
    ghost use Rattle.messages.specs.Table.{act_byte};

    ghost from_gives = { λ act byte. byte ≡ act_byte act };

    fn from(act: Act) -> u8 {
        act as u8
    }
}

// A function: neither type is of this crate alone.
fn holder_byte(holder: Option<Engine>) -> u8
    ensures { result ≡ holder_byte holder }
{
    holder.map_or(NOBODY, |engine| engine.0)
}

impl Reply {
    // Not a conversion: a refusal's byte is 0 whichever it is, and its number follows.
    pub(crate) fn byte(self) -> u8
        ensures { result ≡ reply_byte self }
    {
        match self {
            Reply::Done => 1,
            Reply::Waits => 2,
            Reply::Refused(_) => 0,
        }
    }
}

impl Refusal {
    // The number by which a refusal is told.
    pub fn number(self) -> u8
        ensures { result ≡ refusal_number self }
    {
        self as u8
    }
}
