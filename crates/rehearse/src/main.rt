// Plays a script over boxes that run together, and prints what they send and say.
#![tactic(auto)]

mod script;
mod show;
mod text;

use anyhow::anyhow;
use journal::Output;
use keeper::Keeper;
use messages::{BoxNumber, Engine, PLACES, Section};
use script::Line;
use show::{EngineLine, SectionLine};
use std::alloc::Global;
use std::io::{self, BufRead, BufReader, BufWriter, Write};
use text::OutputLine;
use world::{Outcome, World};

const REFUSED: &str = "refused 1";

// Prints what a box said, each message with its number.
fn print_said<W: Write>(
    out: &mut W,
    from: BoxNumber,
    before: usize,
    outputs: &[Output],
) -> io::Result<()> {
    let mut number = before;
    for output in outputs {
        // Only messages have numbers, so they are counted, and not the outputs.
        if let Output::Send { .. } = output {
            number = number.saturating_add(1);
        }
        let line = OutputLine {
            number,
            from,
            output: *output,
        };
        writeln!(out, "{line}")?;
    }
    Ok(())
}

fn print_sections<W: Write>(out: &mut W, number: BoxNumber, keeper: &Keeper) -> io::Result<()> {
    // Places are numbers, by which everything of a section is asked for.
    for place in 0..PLACES {
        if let Some(holder) = keeper.holder(place) {
            let line = SectionLine {
                section: Section {
                    keeper: number,
                    place,
                },
                holder,
                keeper,
            };
            writeln!(out, "{line}")?;
        }
    }
    Ok(())
}

// Prints the sections that somebody has, then every engine.
fn print_world<W: Write>(out: &mut W, world: &World) -> io::Result<()> {
    let yard = world.yard();
    for number in (0..yard.boxes).map(BoxNumber) {
        if let Some(signal_box) = world.signal_box(number) {
            print_sections(out, number, signal_box.keeper())?;
        }
    }
    for engine in (0..yard.engines).map(Engine) {
        let Some(signal_box) = world.signal_box(yard.home(engine)) else {
            continue;
        };
        let home = signal_box.home();
        if let Ok(state) = home.state(engine) {
            let line = EngineLine {
                engine,
                state,
                boxes: yard.boxes,
            };
            writeln!(out, "{line}")?;
        }
    }
    Ok(())
}

// Plays one line.
fn play<W: Write>(out: &mut W, world: &mut World, line: &[u8]) -> anyhow::Result<()> {
    match script::read(line) {
        Some(Line::Passed) => Ok(()),
        Some(Line::Show) => Ok(print_world(out, world)?),
        Some(Line::Step(step)) => match world.play(step) {
            Ok(Outcome::Refused(_)) => Ok(writeln!(out, "{REFUSED}")?),
            Ok(Outcome::Said { from, before, said }) => {
                Ok(print_said(out, from, before, said.as_slice())?)
            }
            Err(_) => Err(anyhow!("a box's file can't be gone on with")),
        },
        None => Ok(writeln!(out, "{REFUSED}")?),
    }
}

// The yard that a line names; until there is one every other line is refused.
fn begin<W: Write>(out: &mut W, heap: Global, line: &[u8]) -> anyhow::Result<Option<World>> {
    if script::is_passed(line) {
        return Ok(None);
    }
    match script::yard(line) {
        Some(yard) => Ok(Some(World::new(yard, heap)?)),
        None => {
            writeln!(out, "{REFUSED}")?;
            Ok(None)
        }
    }
}

fn main(rt: HostRuntime) -> anyhow::Result<()> {
    let heap = rt.alloc();
    let mut out = BufWriter::new(heap, rt.stdout())?;
    let mut playing: Option<World> = None;
    for line in BufReader::new(heap, rt.stdin())?.lines(heap) {
        let line = line?;
        match &mut playing {
            Some(world) => play(&mut out, world, line.as_bytes())?,
            None => {
                playing = begin(&mut out, heap, line.as_bytes())?;
            }
        }
    }
    out.flush()?;
    Ok(())
}
