// A box with 64 engines: engine e has section e, but the last has none; all but engine 0 wait for section 0, and are noted.
use crate::kind::{Kind, ONLY_BOX, WANTED};
use boxes::{Input, SignalBox};
use journal::{Effects, Fault, MemoryFile, OpenFault, open};
use messages::{Engine, MOST_ENGINES, Message, Section, Yard, encode};
use std::alloc::Global;
use std::collections::VecDeque;

// More than filling the box takes at any of its inputs.
const ENOUGH: usize = 1000;

#[derive(Drop)]
pub struct Full {
    signal_box: SignalBox,
    heap: Global,
}

// Why the box can't be filled.
#[derive(Clone, Copy, PartialEq, Eq, Debug)]
pub enum Unfilled {
    NoYard,
    Endless,
    Fault(Fault),
}

impl From<Fault> for Unfilled {
    fn from(fault: Fault) -> Unfilled {
        Unfilled::Fault(fault)
    }
}

// How much came of a turn.
#[derive(Clone, Copy)]
pub struct Count {
    pub records: usize,
    pub said: usize,
}

impl Full {
    pub fn new(heap: Global) -> Result<Full, Unfilled> {
        let yard = Yard::new(1, MOST_ENGINES).ok_or(Unfilled::NoYard)?;
        let mut full = Full {
            signal_box: SignalBox::new(yard, ONLY_BOX),
            heap,
        };
        // Numbers, and not places of a list: each engine takes the section of its own number, then all but the first want one.
        for place in 0u8..MOST_ENGINES - 1 {
            full.run_out(
                Engine(place),
                Section {
                    keeper: ONLY_BOX,
                    place,
                },
            )?;
        }
        for engine in 1u8..MOST_ENGINES {
            full.run_out(Engine(engine), WANTED)?;
        }
        Ok(full)
    }

    // Lets an engine take a section, and delivers all that the box sends to itself because of it.
    fn run_out(&mut self, engine: Engine, section: Section) -> Result<(), Unfilled> {
        let mut file = MemoryFile::new(self.heap);
        let mut own = VecDeque::new(self.heap);
        let effects = self.handle(Input::Take { engine, section })?;
        finish(effects, &mut file, &mut own)?;
        // Bounded, as each loop has to have an end.
        for _ in 0..ENOUGH {
            let Some(message) = own.pop_front() else {
                return Ok(());
            };
            let effects = self.deliver(message)?;
            finish(effects, &mut file, &mut own)?;
        }
        Err(Unfilled::Endless)
    }

    fn handle(&mut self, input: Input) -> Result<Effects, Fault> {
        Effects::gather(self.heap, &mut self.signal_box, |signal_box, effects| {
            signal_box.handle(input, effects)
        })
    }

    fn deliver(&mut self, message: Message) -> Result<Effects, Fault> {
        Effects::gather(self.heap, &mut self.signal_box, |signal_box, effects| {
            signal_box.deliver(ONLY_BOX, encode(message).as_slice(), effects)
        })
    }

    // The message of a turn; where it is none, a second.
    fn turn(&mut self, message: Option<Message>) -> Result<Effects, Fault> {
        match message {
            Some(message) => self.deliver(message),
            None => self.handle(Input::Second),
        }
    }

    // Handles the message that many times, and once more; how much came of the last time.
    pub fn turns(&mut self, kind: Kind, times: u32) -> Result<Count, OpenFault> {
        // So many times, and the message goes by the number of the turn.
        for turn in 0u32..times {
            self.turn(kind.message(turn))?.abandon();
        }
        let mut file = MemoryFile::new(self.heap);
        let said = self.turn(kind.message(times))?.commit(&mut file)?;
        let records = open(&mut file, self.signal_box.home().yard(), self.heap)?;
        Ok(Count {
            records: records.len(),
            said: said.as_slice().len(),
        })
    }
}

// Stores what was recorded, and adds what the box sends to those that are to be delivered.
fn finish(
    effects: Effects,
    file: &mut MemoryFile,
    own: &mut VecDeque<Message>,
) -> Result<(), Fault> {
    let said = effects.commit(file)?;
    for output in said.as_slice() {
        if let Some((_, message)) = output.sent() {
            own.push_back(message)?;
        }
    }
    Ok(())
}
