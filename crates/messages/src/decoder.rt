// From bytes to a message: the whole of them is one, or it is turned away. Each reader is a function of the yard and of the bytes that are left, as its definition is.
ghost use Rattle.std.specs.Prelude.{◌≡◌, ◌+◌, ◌≤◌, length};
ghost use Rattle.std.specs.Option.{ok_or};
ghost use Rattle.messages.specs.Journal.{whole_call};
ghost use Rattle.messages.specs.Promises.{Decoded};
ghost use Rattle.messages.specs.Reading.{answer_of, call_of, change_of, eight_at, four_at, kind_of, message_of, refusal_of, reply_of, sign_of, waits_of, which_of};

use crate::message::{Act, Answer, Call, Change, Message, Refusal, Reply, Sign, Waits};
use crate::yard::Yard;

// The message that `bytes` are, all of them.
pub fn decode(yard: Yard, bytes: &[u8]) -> Result<Message, Refusal>
    ensures value { result ≡ ok_or (message_of yard bytes.now) Refusal.Malformed }
    ensures exact { Decoded yard bytes.now result }
{
    whole(yard, bytes).ok_or(Refusal::Malformed)
}

fn whole(yard: Yard, bytes: &[u8]) -> Option<Message>
    ensures { result ≡ message_of yard bytes.now }
{
    let [first, rest @ ..] = bytes else {
        return None;
    };
    match *first {
        1..=3 => whole_call(yard, bytes).map(Message::Call),
        4 => answer(yard, rest),
        5 => change(yard, rest),
        6 => which_change(yard, rest),
        7 => sign(yard, rest),
        12 => waits(yard, rest),
        0 | 8..=11 | 13..=255 => None,
    }
}

// A call: its act, and what follows.
pub(crate) fn whole_call(yard: Yard, bytes: &[u8]) -> Option<Call>
    ensures { result ≡ whole_call yard bytes.now }
{
    let [first, rest @ ..] = bytes else {
        return None;
    };
    let act = Act::try_from(*first).ok()?;
    call(yard, act, rest)
}

fn call(yard: Yard, act: Act, rest: &[u8]) -> Option<Call>
    ensures { result ≡ call_of yard act rest.now }
{
    let [engine, keeper, place, _, _, _, _] = rest else {
        return None;
    };
    let engine = yard.engine(*engine)?;
    let section = yard.section(*keeper, *place)?;
    let number = four_at(rest, 3);
    Some(Call {
        act,
        engine,
        section,
        number,
    })
}

// An act, by the first byte of a call.
impl TryFrom<u8> for Act {
    ghost use Rattle.std.specs.Prelude.{◌≡◌};
    ghost use Rattle.std.specs.Option.{ok_or};
    ghost use Rattle.messages.specs.Journal.{act_of};
    ghost use Rattle.messages.specs.declared.message.Refusal.TheVariants.{Malformed};

    type Error = Refusal;

    ghost try_from_gives = { λ byte act. act ≡ ok_or (act_of byte) Malformed };

    fn try_from(byte: u8) -> Result<Act, Refusal> {
        match byte {
            1 => Ok(Act::Take),
            2 => Ok(Act::Free),
            3 => Ok(Act::GiveUp),
            0 | 4..=255 => Err(Refusal::Malformed),
        }
    }
}

fn answer(yard: Yard, rest: &[u8]) -> Option<Message>
    ensures { result ≡ answer_of yard rest.now }
{
    let [engine, _, _, _, _, byte, holder, _, _, _, _, end @ ..] = rest else {
        return None;
    };
    let engine = yard.engine(*engine)?;
    let call = four_at(rest, 1);
    let answer = Answer {
        reply: reply(*byte, end)?,
        holder: yard.holder(*holder)?,
        change: four_at(rest, 7),
    };
    Some(Message::Answer {
        engine,
        call,
        answer,
    })
}

// An answer's byte, and what follows its change number: the refusal's number, and only that.
fn reply(byte: u8, end: &[u8]) -> Option<Reply>
    ensures { result ≡ reply_of byte end.now }
{
    match (byte, end) {
        (1, []) => Some(Reply::Done),
        (2, []) => Some(Reply::Waits),
        (0, [number]) => Some(Reply::Refused(refusal(*number)?)),
        _ => None,
    }
}

// Not each refusal is an answer's, so this is no `TryFrom`. The match names every byte, as that over first bytes does.
fn refusal(number: u8) -> Option<Refusal>
    ensures { result ≡ refusal_of number }
{
    match number {
        3 => Some(Refusal::Waiting),
        4 => Some(Refusal::Mismatch),
        7 => Some(Refusal::Exhausted),
        0..=2 | 5..=6 | 8..=255 => None,
    }
}

fn change(yard: Yard, rest: &[u8]) -> Option<Message>
    ensures { result ≡ change_of yard rest.now }
{
    let [keeper, place, holder, _, _, _, _] = rest else {
        return None;
    };
    let section = yard.section(*keeper, *place)?;
    let holder = yard.holder(*holder)?;
    let change = four_at(rest, 3);
    Some(Message::Change(Change {
        section,
        holder,
        change,
    }))
}

fn which_change(yard: Yard, rest: &[u8]) -> Option<Message>
    ensures { result ≡ which_of yard rest.now }
{
    let [engine, keeper, place] = rest else {
        return None;
    };
    let engine = yard.engine(*engine)?;
    let section = yard.section(*keeper, *place)?;
    Some(Message::WhichChange { engine, section })
}

fn sign(yard: Yard, rest: &[u8]) -> Option<Message>
    ensures { result ≡ sign_of yard rest.now }
{
    let [to, _, _, _, _, by, _, _, _, _, _, _, _, _] = rest else {
        return None;
    };
    let to = yard.engine(*to)?;
    let by = yard.engine(*by)?;
    let count = four_at(rest, 1);
    let sign = eight_at(rest, 6);
    Some(Message::Sign(Sign {
        to,
        count,
        by,
        sign,
    }))
}

fn waits(yard: Yard, rest: &[u8]) -> Option<Message>
    ensures { result ≡ waits_of yard rest.now }
{
    let [engine, keeper, place, _, _, _, _, _, _, _, _] = rest else {
        return None;
    };
    let engine = yard.engine(*engine)?;
    let section = yard.section(*keeper, *place)?;
    let count = four_at(rest, 3);
    let change = four_at(rest, 7);
    Some(Message::Waits(Waits {
        engine,
        section,
        count,
        change,
    }))
}

// The number in the four bytes from `at` on.
pub(crate) fn four_at(bytes: &[u8], at: usize) -> u32
    requires { at + 4 ≤ length bytes.now }
    ensures { result ≡ four_at bytes.now at }
{
    u32::from_be_bytes([bytes[at], bytes[at + 1], bytes[at + 2], bytes[at + 3]])
}

// The number in the eight bytes from `at` on: twice four.
pub(crate) fn eight_at(bytes: &[u8], at: usize) -> u64
    requires { at + 8 ≤ length bytes.now }
    ensures { result ≡ eight_at bytes.now at }
{
    (u64::from(four_at(bytes, at)) << 32) + u64::from(four_at(bytes, at + 4))
}
