// One step of boxes that run together, and what comes of it.
use journal::Said;
use messages::{BoxNumber, Engine, Refusal, Section};

#[derive(Clone, Copy)]
pub enum Step {
    // A driver's line, at the engine's home.
    Take { engine: Engine, section: Section },
    Free { engine: Engine, section: Section },
    // A message by its number in the order of sending, from 1 on; and only its first `length` bytes.
    Deliver { message: usize },
    Cut { message: usize, length: usize },
    Second(BoxNumber),
    Stop(BoxNumber),
}

#[derive(Drop)]
pub enum Outcome {
    // There is no such box or message, or it wouldn't be cut: nothing changed.
    Refused(Refusal),
    // What the box `from` said; so many messages had been sent before, and those that it sends are the next.
    Said {
        from: BoxNumber,
        before: usize,
        said: Said,
    },
}
