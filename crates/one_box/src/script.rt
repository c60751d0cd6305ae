// A script's lines, read from their bytes.
ghost use Rattle.std.specs.Prelude.{◌≡◌, codes};
ghost use Rattle.words.specs.Words.{after_of};
ghost use Rattle.one_box.specs.Script.{ReadsBack, call_of, command_of, line_of, number_of, place_of, yard_of};

use words::{after, digit, short_number};

// What an engine asks for.
#[derive(Clone, Copy, PartialEq, Eq, Debug)]
pub enum Verb {
    Take,
    Free,
    GiveUp,
}

// One call, for the section of box 0 at a place.
#[derive(Clone, Copy, PartialEq, Eq, Debug)]
pub struct Call {
    pub verb: Verb,
    pub engine: u8,
    pub place: u8,
}

#[derive(Clone, Copy, PartialEq, Eq, Debug)]
pub enum Line {
    // Empty, or a comment.
    Passed,
    Called(Call),
    Show,
}

// A number of one digit or of two, the first of which is not 0.
fn number(text: &[u8]) -> Option<u8>
    ensures { result ≡ number_of text.now }
{
    match text {
        [b'0', _] => None,
        _ => short_number(text),
    }
}

// A section of box 0 behind an engine: ` 0:P`.
fn place(text: &[u8]) -> Option<u8>
    ensures { result ≡ place_of (after_of (codes " 0:") text.now) }
{
    number(after(text, b" 0:")?)
}

// An engine and a section, `E 0:P`.
fn read_call(verb: Verb, text: &[u8]) -> Option<Call>
    ensures { result ≡ call_of verb text.now }
{
    let (engine, rest) = text.split_first()?;
    Some(Call {
        verb,
        engine: digit(*engine)?,
        place: place(rest)?,
    })
}

// The call that a line asks for.
fn command(line: &[u8]) -> Option<Call>
    ensures { result ≡ command_of line.now }
{
    // One word has a blank inside, so a `match` on what stands before the first blank is no plainer.
    if let Some(text) = after(line, b"take ") {
        read_call(Verb::Take, text)
    } else if let Some(text) = after(line, b"free ") {
        read_call(Verb::Free, text)
    } else {
        read_call(Verb::GiveUp, after(line, b"give up ")?)
    }
}

// What a line of the script says, if it says anything.
pub fn read(line: &[u8]) -> Option<Line>
    ensures { result ≡ line_of line.now }
{
    match line {
        [] | [b'#', ..] => Some(Line::Passed),
        b"show" => Some(Line::Show),
        _ => command(line).map(Line::Called),
    }
}

// How many engines the first line asks for: `yard 1 ENGINES`.
pub fn yard(line: &[u8]) -> Option<u8>
    ensures { result ≡ yard_of line.now }
{
    let engines = number(after(line, b"yard 1 ")?)?;
    (1..=8).contains(&engines).then_some(engines)
}

// A call that is written is read as it was meant.
pub fn reads_back()
    ensures { ReadsBack }
{}
