// Plays a script of calls on the sections of one box, and prints one line of answer for each.
#![tactic(auto)]

mod play;
mod script;

use play::{Answer, Section};
use script::Line;
use sections::{PLACES, Sections};
use std::io;

const REFUSED: &str = "refused 1";

// Prints each section that somebody has, by place.
fn show(rt: &HostRuntime, sections: &Sections) -> io::Result<()> {
    // Places are numbers, by which everything of a section is asked for.
    for place in 0..PLACES {
        if let Some(holder) = sections.holder(place) {
            let section = Section {
                place,
                holder,
                change: sections.change(place),
                queue: sections.queue(place),
            };
            println!(rt; "{section}")?;
        }
    }
    Ok(())
}

// Plays one line.
fn step(rt: &HostRuntime, sections: &mut Sections, engines: u8, line: &[u8]) -> io::Result<()> {
    match script::read(line) {
        Some(Line::Passed) => Ok(()),
        Some(Line::Called(call)) => {
            let outcome = play::play(sections, engines, call);
            println!(rt; "{}", Answer { call, outcome })
        }
        Some(Line::Show) => show(rt, sections),
        None => println!(rt; "{REFUSED}"),
    }
}

fn main(rt: HostRuntime) -> io::Result<()> {
    let mut lines = rt.lines(rt.alloc());
    let Some(first) = lines.next() else {
        return Ok(());
    };
    let Some(engines) = script::yard(first?.as_bytes()) else {
        return println!(rt; "{REFUSED}");
    };
    let mut sections = Sections::new();
    for line in lines {
        step(&rt, &mut sections, engines, line?.as_bytes())?;
    }
    Ok(())
}
