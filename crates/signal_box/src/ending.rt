// Why the program ends before its input does.
use journal::{Fault, OpenFault};
use std::alloc::AllocError;
use std::fmt;

#[derive(Clone, Copy)]
pub enum Ending {
    Arguments,
    Fault(Fault),
    Damaged(usize),
    Input,
    Output,
}

impl fmt::Display for Ending {
    fn fmt<W: fmt::Write>(&self, f: &mut fmt::Formatter<W>) -> fmt::Result {
        match *self {
            Ending::Arguments => write!(f, "usage: box NUMBER ENGINES [BOXES]"),
            Ending::Fault(fault @ Fault::Memory) => write!(f, "box: {fault}"),
            Ending::Fault(fault) => write!(f, "box: yard: {fault}"),
            Ending::Damaged(at) => write!(f, "box: yard: damage at byte {at}"),
            Ending::Input => write!(f, "box: its input can't be read"),
            Ending::Output => write!(f, "box: its output can't be written"),
        }
    }
}

impl From<AllocError> for Ending {
    fn from(_error: AllocError) -> Ending {
        Ending::Fault(Fault::Memory)
    }
}

impl From<Fault> for Ending {
    fn from(fault: Fault) -> Ending {
        Ending::Fault(fault)
    }
}

impl From<OpenFault> for Ending {
    fn from(fault: OpenFault) -> Ending {
        match fault {
            OpenFault::Fault(fault) => Ending::Fault(fault),
            OpenFault::Damaged(at) => Ending::Damaged(at),
        }
    }
}
