// What a box says: messages to boxes, and lines to the driver.
ghost use Rattle.std.specs.Prelude.{◌≡◌};
ghost use Rattle.journal.specs.Effect.{message_to, sending_of};

use messages::{BoxNumber, Engine, Message, Refusal, Section};

#[derive(Clone, Copy)]
pub enum Output {
    Send { to: BoxNumber, message: Message },
    // The engine has the section.
    Had { engine: Engine, section: Section },
    // The engine found a ring: its driver is to free what it has.
    GiveBack { engine: Engine },
    // The reminder of that, on opening.
    GivingBack { engine: Engine },
    Refused(Refusal),
}

impl Output {
    // The message that it sends, and the box that it is for.
    pub fn sent(self) -> Option<(BoxNumber, Message)>
        ensures { result ≡ sending_of self }
    {
        match self {
            Output::Send { to, message } => Some((to, message)),
            Output::Had { .. }
            | Output::GiveBack { .. }
            | Output::GivingBack { .. }
            | Output::Refused(_) => None,
        }
    }

    // The message that it sends to the box `own`.
    pub fn sent_to(self, own: BoxNumber) -> Option<Message>
        ensures { result ≡ message_to own self }
    {
        match self.sent() {
            Some((to, message)) if to == own => Some(message),
            _ => None,
        }
    }
}
