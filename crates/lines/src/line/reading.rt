// From a line to what it says.
ghost use Rattle.std.specs.Prelude.{◌≡◌};
ghost use Rattle.std.specs.Option.{ok_or, option_map};
ghost use Rattle.lines.specs.Lines.{answered, line_of, message_in, past, place_of, sent_of, shown, wish_of};
ghost use Rattle.lines.specs.Written.{held};

use crate::line::digits::{hex_value, number};
use crate::line::{Buffer, Line, Wish};
use messages::{Refusal, Section, Yard};

// What a line says: a message from another box, or what a driver asks for, or that a second has passed.
pub fn read(yard: Yard, line: &[u8]) -> Result<Line, Refusal>
    ensures { answered result ≡ ok_or (line_of yard line.now) Refusal.Malformed }
{
    whole(yard, line).ok_or(Refusal::Malformed)
}

fn whole(yard: Yard, line: &[u8]) -> Option<Line>
    ensures { shown result ≡ line_of yard line.now }
{
    // The two of an engine and a section are alike, two lines each: a function of both would be longer.
    if let Some(text) = line.strip_prefix(b"take ") {
        let Wish { engine, section } = wish(yard, text)?;
        return Some(Line::Take { engine, section });
    }
    if let Some(text) = line.strip_prefix(b"free ") {
        let Wish { engine, section } = wish(yard, text)?;
        return Some(Line::Free { engine, section });
    }
    if line == b"second".as_slice() {
        return Some(Line::Second);
    }
    sent(yard, line)
}

// An engine and a section, `E B:P`.
fn wish(yard: Yard, text: &[u8]) -> Option<Wish>
    ensures { result ≡ wish_of yard text.now }
{
    let engine = number(text)?;
    let rest = past(b' ', engine.width, text)?;
    let engine = yard.engine(engine.value)?;
    let section = section(yard, rest)?;
    Some(Wish { engine, section })
}

// A section, `B:P`.
fn section(yard: Yard, text: &[u8]) -> Option<Section>
    ensures { result ≡ place_of yard text.now }
{
    let keeper = number(text)?;
    let rest = past(b':', keeper.width, text)?;
    let place = number(rest)?;
    if place.width != rest.len() {
        return None;
    }
    yard.section(keeper.value, place.value)
}

// A message, `FROM HEX`.
fn sent(yard: Yard, text: &[u8]) -> Option<Line>
    ensures { shown result ≡ sent_of yard text.now }
{
    let from = number(text)?;
    let rest = past(b' ', from.width, text)?;
    let from = yard.box_number(from.value)?;
    let message = message(rest)?;
    Some(Line::Message { from, message })
}

// What follows the byte `c` that has to stand at a place.
fn past(c: u8, at: usize, text: &[u8]) -> Option<&[u8]>
    ensures { option_map (λ rest. rest.now) result ≡ past c at text.now }
{
    let [first, rest @ ..] = text.get(at..)? else {
        return None;
    };
    (*first == c).then_some(rest)
}

// The bytes of a message, two digits for each.
fn message(text: &[u8]) -> Option<Buffer>
    ensures { held result ≡ message_in text.now }
{
    let (pairs, odd) = text.as_chunks::<2>();
    if pairs.len() > 21 || !odd.is_empty() {
        return None;
    }
    let mut out = Buffer::empty();
    for [high, low] in pairs {
        let high = hex_value(*high)?;
        let low = hex_value(*low)?;
        out = out.push(high * 16 + low)?;
    }
    Some(out)
}
