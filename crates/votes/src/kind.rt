// The six kinds of vote by name, with the number and the shape of each.
ghost use Rattle.std.specs.Prelude.{◌≡◌, ◌++◌, Some, codes};
ghost use Rattle.std.specs.Fmt.{decimal};
ghost use Rattle.votes.specs.Votes.{code_of, Names, ballot, shape_of};

use crate::vote::MAX_CP;
use std::error::Error;
use std::fmt;

#[derive(Clone, Copy, Debug, PartialEq, Eq, Hash)]
pub enum Kind {
    Proposal,
    Precommit,
    PreVote,
    MainVote,
    Decided,
    Announcement,
}

// A number that no kind has.
#[derive(Clone, Copy, Debug, PartialEq, Eq, Hash)]
pub struct UnknownKind(pub u8);

// What a kind asks of its votes: the highest cp, the lowest and the highest val, and whether the value is other than blank.
#[derive(Clone, Copy, Debug, PartialEq, Eq)]
pub struct Shape {
    pub cp: u8,
    pub low: u8,
    pub high: u8,
    pub valued: bool,
}

impl Shape {
    // Of the kinds that carry a value.
    const CARRYING: Shape = Shape {
        cp: 0,
        low: 0,
        high: 0,
        valued: true,
    };

    // Of the kinds that vote on the proposer.
    const fn ballot(low: u8, high: u8) -> Shape
        ensures { result ≡ ballot low high }
    {
        Shape {
            cp: MAX_CP,
            low,
            high,
            valued: false,
        }
    }
}

impl From<Kind> for u8 {
    ghost from_gives = { λ kind code. code ≡ code_of kind };

    // The number that a frame has for this kind.
    fn from(kind: Kind) -> u8 {
        match kind {
            Kind::Proposal => 1,
            Kind::Precommit => 2,
            Kind::PreVote => 3,
            Kind::MainVote => 4,
            Kind::Decided => 5,
            Kind::Announcement => 6,
        }
    }
}

impl TryFrom<u8> for Kind {
    type Error = UnknownKind;

    ghost try_from_gives = { Names };

    // The kind that has this number, if one has.
    fn try_from(code: u8) -> Result<Kind, UnknownKind> {
        match code {
            1 => Ok(Kind::Proposal),
            2 => Ok(Kind::Precommit),
            3 => Ok(Kind::PreVote),
            4 => Ok(Kind::MainVote),
            5 => Ok(Kind::Decided),
            6 => Ok(Kind::Announcement),
            _ => Err(UnknownKind(code)),
        }
    }
}

impl fmt::Display for UnknownKind {
    ghost output = { λ unknown. Some (codes "no kind of vote has number " ++ decimal unknown.0) };

    fn fmt<W: fmt::Write>(&self, f: &mut fmt::Formatter<W>) -> fmt::Result {
        write!(f, "no kind of vote has number {}", self.0)
    }
}

impl Error for UnknownKind {}

impl Kind {
    pub(crate) fn shape(self) -> Shape
        ensures { result ≡ shape_of self }
    {
        match self {
            Kind::Proposal | Kind::Precommit | Kind::Announcement => Shape::CARRYING,
            Kind::PreVote | Kind::Decided => Shape::ballot(0, 1),
            Kind::MainVote => Shape::ballot(1, 2),
        }
    }
}
