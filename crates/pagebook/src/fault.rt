// Why the program stops early.
ghost use Rattle.std.specs.Prelude.{◌≡◌};
ghost use Rattle.pagebook.specs.Faults.{fault_at};

use std::{fmt, io};
use words::refusal::Refusal;

#[derive(Debug, Drop)]
pub(crate) enum Fault {
    // The line of this number is not in the grammar, or not allowed where it stands.
    Malformed(u64),
    // No memory was left.
    Memory,
    // A file that was named could not be opened.
    Unopened(String, io::Error),
    // Reading the input or printing failed.
    Stream(io::Error),
}

impl Fault {
    // Why a line with a number was refused.
    pub(crate) fn at(number: u64, refusal: Refusal) -> Fault
        ensures { result ≡ fault_at number refusal }
    {
        match refusal {
            Refusal::Malformed => Fault::Malformed(number),
            Refusal::OutOfMemory => Fault::Memory,
        }
    }
}

impl From<io::Error> for Fault {
    fn from(e: io::Error) -> Fault {
        Fault::Stream(e)
    }
}

impl fmt::Display for Fault {
    fn fmt<W: fmt::Write>(&self, f: &mut fmt::Formatter<W>) -> fmt::Result {
        match self {
            Fault::Malformed(number) => write!(f, "line {number}: malformed"),
            Fault::Memory => write!(f, "no memory is left"),
            Fault::Unopened(name, e) => write!(f, "cannot open {name}: {e}"),
            Fault::Stream(e) => write!(f, "standard input or output failed: {e}"),
        }
    }
}
