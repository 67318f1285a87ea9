// What holds the votes of a post: lent memory, in which a layout says where each vote lies.
ghost use Rattle.std.specs.Prelude.{◌≡◌, ℕ, List, Some as some, codes, if◌then◌else◌, length, nat_lt, slice_set};
ghost use Rattle.std.specs.List.{slice_get};
ghost use Rattle.std.specs.Option.{option_map};
ghost use Rattle.posts.specs.Memories.{too_small_code};
ghost use Rattle.posts.specs.declared.fault.Layer.{Layer as LayerOf};
ghost use Rattle.votes.specs.Votes.{numbers_of};
ghost use Rattle.votes.specs.declared.vote.Vote.{Vote as VoteOf};

use crate::fault::Layer;
use std::error::Error;
use std::fmt;
use values::value::Value;
use votes::numbers::Numbers;
use votes::vote::Vote;

// The most votes that a post holds, however large its memory is.
pub const MOST_VOTES: usize = 1_024;

// Memory of less than one vote.
#[derive(Clone, Copy, Debug, PartialEq, Eq)]
pub struct TooSmall;

impl fmt::Display for TooSmall {
    ghost output = { λ _. some (codes "the memory is too small for a vote") };

    fn fmt<W: fmt::Write>(&self, f: &mut fmt::Formatter<W>) -> fmt::Result {
        f.write_str("the memory is too small for a vote")
    }
}

impl Error for TooSmall {}

impl TooSmall {
    // The text format tells it by a number, beside 0 for memory that holds a vote.
    pub fn code(self) -> u8
        ensures { result ≡ too_small_code }
    {
        1
    }
}

// How votes lie in memory, which is a slice of items.
pub trait Layout {
    type Item: Copy;

    type Value: Value;

    // The layer that the faults of a post over such memory name.
    ghost layer: { LayerOf };

    // The votes that stand in it, one at each place.
    ghost votes: { List Self.Item → List (VoteOf Self.Value) };

    // How many places it has.
    ghost places: { List Self.Item → ℕ };

    // A vote stands at every place.
    ghost long: { (memory : List Self.Item) → length (votes memory) ≡ places memory };

    // What it is after a vote was put at one of its places: that place alone is written.
    ghost put: { ℕ → VoteOf Self.Value → List Self.Item → List Self.Item };

    fn layer() -> Layer
        ensures { result ≡ layer };

    fn places(memory: &[Self::Item]) -> usize
        ensures { result ≡ places memory.now };

    // The vote at a place, if there is the place.
    fn get(memory: &[Self::Item], place: usize) -> Option<Vote<Self::Value>>
        ensures { result ≡ slice_get (votes memory.now) place };

    // The numbers of the vote at a place: counting looks at many numbers for each value that it compares.
    fn numbers(memory: &[Self::Item], place: usize) -> Option<Numbers>
        ensures { result ≡ option_map numbers_of (slice_get (votes memory.now) place) }
    {
        Self::get(memory, place).map(|vote| vote.numbers())
    }

    // Puts a vote at a place, or nothing where there is no such place.
    fn put(memory: &mut [Self::Item], place: usize, vote: &Vote<Self::Value>)
        ensures votes { votes memory.new ≡ slice_set (votes memory.old) place vote.now }
        ensures written { memory.new ≡ (if nat_lt place (places memory.old) then put place vote.now memory.old else memory.old) };
}
