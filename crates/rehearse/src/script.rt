// A script's lines, read from their bytes.
ghost use Rattle.std.specs.Prelude.{◌≡◌};
ghost use Rattle.std.specs.Option.{option_map};
ghost use Rattle.rehearse.specs.Script.{is_blank, is_passed, is_space, line_of, named, pair_of, section_of, sizes, step_of, wish_of, yard_of};

use messages::{BoxNumber, Engine, Section, Yard};
use words::{after, number, small_number, split_once};
use world::Step;

// The most boxes, and the most engines, of a script's yard.
const MOST: u32 = 8;

#[derive(Clone, Copy)]
pub enum Line {
    // Blank, or a comment.
    Passed,
    Step(Step),
    Show,
}

// Two numbers with a blank between them.
fn two_numbers(text: &[u8]) -> Option<(u32, u32)>
    ensures { result ≡ pair_of text.now }
{
    let (first, second) = split_once(text, b' ')?;
    Some((number(first)?, number(second)?))
}

// A section, `B:P`.
fn section(text: &[u8]) -> Option<Section>
    ensures { result ≡ section_of text.now }
{
    let (keeper, place) = split_once(text, b':')?;
    Some(Section {
        keeper: BoxNumber(small_number(keeper)?),
        place: small_number(place)?,
    })
}

// An engine and the section that it asks for, `E B:P`.
fn wish(text: &[u8]) -> Option<(Engine, Section)>
    ensures { result ≡ wish_of text.now }
{
    let (engine, wanted) = split_once(text, b' ')?;
    Some((Engine(small_number(engine)?), section(wanted)?))
}

// The step that a word and what stands behind it ask for.
fn named(word: &[u8], text: &[u8]) -> Option<Step>
    ensures { result ≡ named word.now text.now }
{
    match word {
        b"take" => wish(text).map(|(engine, section)| Step::Take { engine, section }),
        b"free" => wish(text).map(|(engine, section)| Step::Free { engine, section }),
        b"deliver" => number(text).map(|message| Step::Deliver {
            message: message as usize,
        }),
        b"cut" => two_numbers(text).map(|(message, length)| Step::Cut {
            message: message as usize,
            length: length as usize,
        }),
        b"second" => small_number(text).map(|number| Step::Second(BoxNumber(number))),
        b"stop" => small_number(text).map(|number| Step::Stop(BoxNumber(number))),
        _ => None,
    }
}

// The step that a line asks for.
fn step(line: &[u8]) -> Option<Step>
    ensures { result ≡ step_of line.now }
{
    let (word, text) = split_once(line, b' ')?;
    named(word, text)
}

// A blank, a tab, and what else parts words: the vertical tab too.
fn is_space(byte: u8) -> bool
    ensures { result ≡ is_space byte }
{
    matches!(byte, 9..=13 | b' ')
}

fn is_blank(line: &[u8]) -> bool
    ensures { result ≡ is_blank line.now }
{
    line.iter().all(|byte| is_space(*byte))
}

// Is a line blank, or a comment.
pub fn is_passed(line: &[u8]) -> bool
    ensures { result ≡ is_passed line.now }
{
    match line {
        [b'#', ..] => true,
        _ => is_blank(line),
    }
}

// What a line of the script says, if it says anything.
pub fn read(line: &[u8]) -> Option<Line>
    ensures { result ≡ line_of line.now }
{
    if is_passed(line) {
        return Some(Line::Passed);
    }
    match line {
        b"show" => Some(Line::Show),
        _ => step(line).map(Line::Step),
    }
}

// The yard of the first line, `yard BOXES ENGINES`.
pub fn yard(line: &[u8]) -> Option<Yard>
    ensures { option_map sizes result ≡ yard_of line.now }
{
    let (boxes, engines) = two_numbers(after(line, b"yard ")?)?;
    if boxes > MOST || engines > MOST {
        return None;
    }
    Yard::new(u8::try_from(boxes).ok()?, u8::try_from(engines).ok()?)
}
