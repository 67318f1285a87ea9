// The post over memory of any layout: how many of the votes that stand there are those of the post.
ghost use Rattle.std.specs.Prelude.{◌≡◌, min};
ghost use Rattle.posts.specs.Layouts.{capacity_in, memory_after_send, votes_in};
ghost use Rattle.posts.specs.Memories.{cut_limited, held_within, memory_check};
ghost use Rattle.posts.specs.Posts.{after_send, sent};

use crate::fault::Fault;
use crate::frames::Frames;
use crate::memory::{Layout, MOST_VOTES, TooSmall};
use crate::post::Post;
use crate::table::Table;
use std::marker::PhantomData;
use votes::numbers::Numbers;
use votes::vote::Vote;

pub type TablePost<'a, V> = MemoryPost<'a, Vote<V>, Table<V>>;

pub type FramePost<'a, V> = MemoryPost<'a, u8, Frames<V>>;

#[derive(Drop)]
pub struct MemoryPost<'a, I, L> {
    memory: &'a mut [I],
    // Lent memory has a fixed length, so how many of its votes are those of the post stands beside it.
    count: usize,
    layout: PhantomData<L>,
}

// How many votes a post over this memory may hold.
fn capacity_of<L: Layout>(memory: &[L::Item]) -> usize
    ensures { result ≡ capacity_in L.Layout memory.now }
{
    L::places(memory).min(MOST_VOTES)
}

// The refusal of a place.
fn fault_at<L: Layout>(place: usize) -> Fault
    ensures { result ≡ record { layer = L.layer; place = place } }
{
    Fault {
        layer: L::layer(),
        place,
    }
}

impl<'a, I: Copy, L: Layout<Item = I>> MemoryPost<'a, I, L> {
    // Whether memory can hold a vote.
    pub fn check(memory: &[I]) -> Result<(), TooSmall>
        ensures { result ≡ memory_check (capacity_in L.Layout memory.now) }
    {
        if capacity_of::<L>(memory) == 0 {
            Err(TooSmall)
        } else {
            Ok(())
        }
    }

    // A post whose first votes are those in the memory, as many as stated or as it may hold.
    #[tactic(auto, using(crate::proofs::Holding::held_cut))]
    pub fn new(memory: &'a mut [I], count: usize) -> MemoryPost<'a, I, L>
        ensures count { result.count ≡ min count (capacity_in L.Layout memory.old) }
        ensures votes { votes_in L.Layout result.count result.memory.now ≡ votes_in L.Layout count memory.old }
        ensures same { result.memory.now ≡ memory.old }
        ensures lent { result.memory.ghost_name ≡ memory.entry.ghost_name }
    {
        let cut = count.min(capacity_of::<L>(memory));
        MemoryPost {
            memory,
            count: cut,
            layout: PhantomData,
        }
    }

    fn capacity(&self) -> usize
        ensures { result ≡ capacity_in L.Layout self.now.memory.now }
    {
        capacity_of::<L>(self.memory)
    }
}

impl<'a, I: Copy, L: Layout<Item = I>> Post for MemoryPost<'a, I, L> {
    type Value = L::Value;

    ghost votes = { λ post. votes_in L.Layout post.count post.memory.now };

    ghost capacity = { λ post. capacity_in L.Layout post.memory.now };

    ghost layer = { L.layer };

    ghost within = { λ post. held_within post.count (L.votes post.memory.now) (L.places post.memory.now) (L.long post.memory.now) };

    ghost limited = { λ post. cut_limited (L.places post.memory.now) };

    #[tactic(auto, using(crate::proofs::Calls::sent_there, crate::proofs::Calls::sent_full, crate::proofs::Calls::after_send_full, crate::proofs::Holding::held_put))]
    fn send(&mut self, vote: &Vote<L::Value>) -> Result<(), Fault>
        ensures value { result ≡ sent L.layer (capacity_in L.Layout self.old.memory.now) (votes_in L.Layout self.old.count self.old.memory.now) }
        ensures after { votes_in L.Layout self.new.count self.new.memory.now ≡ after_send (capacity_in L.Layout self.old.memory.now) (votes_in L.Layout self.old.count self.old.memory.now) vote.now }
        ensures same { capacity_in L.Layout self.new.memory.now ≡ capacity_in L.Layout self.old.memory.now }
        ensures memory { self.new.memory.now ≡ memory_after_send L.Layout self.old.count self.old.memory.now vote.now }
        ensures lent { self.new.memory.ghost_name ≡ self.old.memory.ghost_name }
    {
        let count = self.count();
        if count >= self.capacity() {
            return Err(fault_at::<L>(count));
        }
        L::put(self.memory, count, vote);
        self.count = count + 1;
        Ok(())
    }

    // `new` cut it, but a struct that asks nothing of its types can't carry that it stays cut.
    #[tactic(auto, using(crate::proofs::Holding::held_count))]
    fn count(&self) -> usize {
        self.count.min(self.capacity())
    }

    // `fetch` and `numbers` differ in what they read: a closure for that would need a contract as long as both.
    #[tactic(auto, using(crate::proofs::Holding::held_nth, crate::proofs::Holding::held_past, crate::proofs::Calls::fetched_is))]
    fn fetch(&self, place: usize) -> Result<Vote<L::Value>, Fault> {
        let vote = if place < self.count() {
            L::get(self.memory, place)
        } else {
            None
        };
        vote.ok_or(fault_at::<L>(place))
    }

    #[tactic(auto, using(crate::proofs::Holding::held_nth, crate::proofs::Holding::held_past, crate::proofs::Calls::fetched_numbers_is))]
    fn numbers(&self, place: usize) -> Result<Numbers, Fault> {
        let numbers = if place < self.count() {
            L::numbers(self.memory, place)
        } else {
            None
        };
        numbers.ok_or(fault_at::<L>(place))
    }
}
