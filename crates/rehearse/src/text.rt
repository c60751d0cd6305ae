// The lines of what boxes send and say.
use journal::Output;
use messages::{BoxNumber, Section, encode};
use std::fmt;

// A section, `B:P`.
#[derive(Clone, Copy)]
pub struct Spot(pub Section);

impl fmt::Display for Spot {
    fn fmt<W: fmt::Write>(&self, f: &mut fmt::Formatter<W>) -> fmt::Result {
        write!(f, "{}:{}", self.0.keeper.0, self.0.place)
    }
}

// Bytes in hexadecimal.
#[derive(Clone, Copy)]
struct Hex<'a>(&'a [u8]);

impl fmt::Display for Hex<'_> {
    fn fmt<W: fmt::Write>(&self, f: &mut fmt::Formatter<W>) -> fmt::Result {
        for byte in self.0 {
            write!(f, "{byte:02x}")?;
        }
        Ok(())
    }
}

// The line of an output; `number` is a message's.
#[derive(Clone, Copy)]
pub struct OutputLine {
    pub number: usize,
    pub from: BoxNumber,
    pub output: Output,
}

impl fmt::Display for OutputLine {
    fn fmt<W: fmt::Write>(&self, f: &mut fmt::Formatter<W>) -> fmt::Result {
        match self.output {
            Output::Send { to, message } => {
                let bytes = encode(message);
                let hex = Hex(bytes.as_slice());
                write!(f, "{} {} {} {hex}", self.number, self.from.0, to.0)
            }
            Output::Had { engine, section } => write!(f, "had {} {}", engine.0, Spot(section)),
            Output::GiveBack { engine } => write!(f, "give back {}", engine.0),
            Output::GivingBack { engine } => write!(f, "giving back {}", engine.0),
            Output::Refused(refusal) => write!(f, "refused {}", refusal.number()),
        }
    }
}
