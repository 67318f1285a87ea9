// What a post is: a list of votes and a capacity, whatever memory holds them.
ghost use Rattle.std.specs.Prelude.{◌≡◌, ℕ, ◌≤◌, List, length};
ghost use Rattle.posts.specs.Posts.{most_votes, sent, after_send, fetched, fetched_numbers};
ghost use Rattle.posts.specs.declared.fault.Layer.{Layer};
ghost use Rattle.votes.specs.declared.vote.Vote.{Vote as VoteOf};

use crate::fault::Fault;
use values::value::Value;
use votes::numbers::Numbers;
use votes::vote::Vote;

pub trait Post {
    type Value: Value;

    // The votes, in the order in which they were sent.
    ghost votes: { Self → List (VoteOf Self.Value) };

    // How many votes it may hold.
    ghost capacity: { Self → ℕ };

    // The layer that its faults name.
    ghost layer: { Layer };

    // The list is never longer than the capacity.
    ghost within: { (post : Self) → length (votes post) ≤ capacity post };

    // No post holds more than the limit.
    ghost limited: { (post : Self) → capacity post ≤ most_votes };

    // Adds the vote at the end, or refuses where the post is full.
    fn send(&mut self, vote: &Vote<Self::Value>) -> Result<(), Fault>
        ensures value { result ≡ sent layer (capacity self.old) (votes self.old) }
        ensures after { votes self.new ≡ after_send (capacity self.old) (votes self.old) vote.now }
        ensures same { capacity self.new ≡ capacity self.old };

    fn count(&self) -> usize
        ensures { result ≡ length (votes self.now) };

    // The vote at a place.
    fn fetch(&self, place: usize) -> Result<Vote<Self::Value>, Fault>
        ensures { result ≡ fetched layer (votes self.now) place };

    // The numbers of the vote at a place: counting looks at many numbers for each value that it compares.
    #[tactic(auto, unfolding(crate::specs::Posts::fetched_numbers))]
    fn numbers(&self, place: usize) -> Result<Numbers, Fault>
        ensures { result ≡ fetched_numbers layer (votes self.now) place }
    {
        self.fetch(place).map(|vote| vote.numbers())
    }
}
