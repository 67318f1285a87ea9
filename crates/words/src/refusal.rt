// Why a word, a line or a command is refused.
ghost use Rattle.std.specs.Prelude.{◌≡◌, Some as some};
ghost use Rattle.words.specs.declared.refusal.Refusal.TheVariants.{Malformed, OutOfMemory};
ghost use Rattle.words.specs.Refusals.{refusal_text, hex_refusal};

use hex::FromHexError;
use std::alloc::AllocError;
use std::error::Error;
use std::fmt;
use std::num::ParseIntError;
use std::str::Utf8Error;

#[derive(Clone, Copy, Debug, PartialEq, Eq)]
pub enum Refusal {
    // What stands there is outside the grammar.
    Malformed,
    // No memory was left to read it.
    OutOfMemory,
}

impl fmt::Display for Refusal {
    ghost output = { λ r. some (refusal_text r) };

    fn fmt<W: fmt::Write>(&self, f: &mut fmt::Formatter<W>) -> fmt::Result {
        f.write_str(match self {
            Refusal::Malformed => "malformed input",
            Refusal::OutOfMemory => "no memory is left",
        })
    }
}

impl Error for Refusal {}

impl From<AllocError> for Refusal {
    ghost from_gives = { λ _ r. r ≡ OutOfMemory };

    fn from(_e: AllocError) -> Refusal {
        Refusal::OutOfMemory
    }
}

impl From<FromHexError> for Refusal {
    ghost from_gives = { λ e r. r ≡ hex_refusal e };

    fn from(e: FromHexError) -> Refusal {
        match e {
            FromHexError::OutOfMemory => Refusal::OutOfMemory,
            _ => Refusal::Malformed,
        }
    }
}

impl From<ParseIntError> for Refusal {
    ghost from_gives = { λ _ r. r ≡ Malformed };

    fn from(_e: ParseIntError) -> Refusal {
        Refusal::Malformed
    }
}

impl From<Utf8Error> for Refusal {
    ghost from_gives = { λ _ r. r ≡ Malformed };

    fn from(_e: Utf8Error) -> Refusal {
        Refusal::Malformed
    }
}
