// A box's state, and what comes to it.
use home::Home;
use keeper::Keeper;
use messages::{BoxNumber, Engine, Message, Section};

#[derive(Clone, Copy)]
pub struct SignalBox {
    pub(crate) keeper: Keeper,
    pub(crate) home: Home,
}

// A driver's line, a message with its sender, or a second.
#[derive(Clone, Copy)]
pub enum Input {
    Take { engine: Engine, section: Section },
    Free { engine: Engine, section: Section },
    Received { from: BoxNumber, message: Message },
    Second,
}
