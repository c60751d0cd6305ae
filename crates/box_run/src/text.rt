// What a box says, as lines of text.
ghost use Rattle.std.specs.Prelude.{◌≡◌, ◌∷◌, ◌++◌, IfOk, codes, OnOk};
ghost use Rattle.std.specs.List.{flat_map};
ghost use Rattle.box_run.specs.Text.{digits, is_own, line_for, numbered, printed, section_text};

use itoa::Buffer;
use journal::Output;
use lines::write;
use messages::{BoxNumber, Message, Section, encode};
use std::alloc::{AllocError, Global};

// By hand, into the bytes of all lines: a message's line is bytes in place, and as text it would have to be tested again, by a branch that can't come.
fn add_number(text: &mut Vec<u8>, n: u8) -> Result<(), AllocError>
    ensures { OnOk result (text.new.items ≡ text.old.items ++ digits n) }
{
    text.extend_from_slice(Buffer::new().format(n).as_bytes())
}

fn add_section(text: &mut Vec<u8>, section: Section) -> Result<(), AllocError>
    ensures { OnOk result (text.new.items ≡ text.old.items ++ section_text section) }
{
    add_number(text, section.keeper.0)?;
    text.extend_from_slice(b":")?;
    add_number(text, section.place)
}

fn add_numbered(text: &mut Vec<u8>, word: &[u8], n: u8) -> Result<(), AllocError>
    ensures { OnOk result (text.new.items ≡ text.old.items ++ numbered word.now n) }
{
    text.extend_from_slice(word)?;
    add_number(text, n)
}

fn add_had(text: &mut Vec<u8>, engine: u8, section: Section) -> Result<(), AllocError>
    ensures { OnOk result (text.new.items ≡ text.old.items ++ (numbered (codes "had ") engine ++ 32 ∷ section_text section)) }
{
    add_numbered(text, b"had ", engine)?;
    text.extend_from_slice(b" ")?;
    add_section(text, section)
}

fn add_message(text: &mut Vec<u8>, to: BoxNumber, message: Message) -> Result<(), AllocError>
    ensures { OnOk result (text.new.items ≡ text.old.items ++ line_for (Output.Send to message)) }
{
    match write(to, encode(message).as_slice()) {
        Some(line) => text.extend_from_slice(line.as_slice()),
        None => Ok(()),
    }
}

fn add_output(text: &mut Vec<u8>, output: Output) -> Result<(), AllocError>
    ensures { OnOk result (text.new.items ≡ text.old.items ++ line_for output) }
{
    match output {
        Output::Send { to, message } => add_message(text, to, message),
        Output::Had { engine, section } => add_had(text, engine.0, section),
        Output::GiveBack { engine } => add_numbered(text, b"give back ", engine.0),
        Output::GivingBack { engine } => add_numbered(text, b"giving back ", engine.0),
        Output::Refused(refusal) => add_numbered(text, b"refused ", refusal.number()),
    }
}

fn is_own(own: BoxNumber, output: Output) -> bool
    ensures { result ≡ is_own own output }
{
    output.sent_to(own).is_some()
}

fn add_line(text: &mut Vec<u8>, own: BoxNumber, output: Output) -> Result<(), AllocError>
    ensures { OnOk result (text.new.items ≡ text.old.items ++ printed own output) }
{
    if is_own(own, output) {
        return Ok(());
    }
    add_output(text, output)?;
    text.extend_from_slice(b"\n")
}

// The lines of all outputs but those that the box sends to itself.
pub fn print(own: BoxNumber, outputs: &[Output], heap: Global) -> Result<Vec<u8>, AllocError>
    ensures { IfOk result (λ v. v.items ≡ flat_map (printed own) outputs.now) }
{
    let mut text = Vec::new(heap);
    for output in outputs {
        add_line(&mut text, own, *output)?;
    }
    Ok(text)
}
