// The memory of a post, of either kind, and the calls on a post over it.
ghost use Rattle.std.specs.Prelude.{◌≡◌, IfOk, length, string_bytes};
ghost use Rattle.pagebook.specs.Answers.{look_answer};
ghost use Rattle.pagebook.specs.Desks.{Writes, capacity_of, count_after, filled, held_in, memory_after, poked, sent_to, shown};
ghost use Rattle.posts.specs.Layouts.{capacity_in, memory_after_send, votes_in};
ghost use Rattle.posts.specs.Memories.{memory_check};
ghost use Rattle.posts.specs.Posts.{after_send, sent};

use super::answers::look_text;
use super::command::Look;
use posts::fault::Fault;
use posts::frames::Frames;
use posts::memory::{Layout, TooSmall};
use posts::memory_post::{FramePost, MemoryPost, TablePost};
use posts::post::Post;
use posts::table::Table;
use std::alloc::{AllocError, Global};
use text::text_value::TextValue;
use votes::vote::Vote;
use words::refusal::Refusal;

// Two layouts, and no more: each method matches once and calls one generic function.
#[derive(Drop)]
pub(crate) enum Memory<V> {
    Table(Vec<Vote<V>>),
    Frames(Vec<u8>),
}

// Sends a vote to the post over memory with a count, and keeps the count that it has then. A post can't be kept with the memory that it
// borrows, so here and below memory and count come apart, and the post is made of them for each call.
fn send_to<L: Layout>(
    memory: &mut [L::Item],
    count: &mut usize,
    vote: &Vote<L::Value>,
) -> Result<(), Fault>
    ensures value { result ≡ sent L.layer (capacity_in L.Layout memory.old) (votes_in L.Layout count.old memory.old) }
    ensures memory { memory.new ≡ memory_after_send L.Layout count.old memory.old vote.now }
    ensures count { count.new ≡ length (after_send (capacity_in L.Layout memory.old) (votes_in L.Layout count.old memory.old) vote.now) }
{
    let mut post = MemoryPost::<L::Item, L>::new(memory, *count);
    let sent = post.send(vote);
    *count = post.count();
    sent
}

// What a look at the post over memory with a count shows.
fn look_at<V: TextValue, L: Layout<Value = V>>(
    heap: Global,
    memory: &mut [L::Item],
    count: usize,
    look: Look,
) -> Result<String, AllocError>
    ensures value { IfOk result (λ s. string_bytes s ≡ look_answer V.Value V.TextValue.own L.layer (votes_in L.Layout count memory.old) look) }
    ensures same { memory.new ≡ memory.old }
{
    look_text(heap, &MemoryPost::<L::Item, L>::new(memory, count), look)
}

impl<V: TextValue> Memory<V> {
    // Whether the memory can hold a vote.
    pub(crate) fn check(&self) -> Result<(), TooSmall>
        ensures { result ≡ memory_check (capacity_of V.Value (held_in self.now)) }
    {
        match self {
            Memory::Table(table) => TablePost::check(table.as_slice()),
            Memory::Frames(bytes) => FramePost::<V>::check(bytes.as_slice()),
        }
    }

    // Sends a vote to the post with a count, and keeps the count that it has then.
    pub(crate) fn send(&mut self, count: &mut usize, vote: &Vote<V>) -> Result<(), Fault>
        ensures value { result ≡ sent_to V.Value count.old (held_in self.old) }
        ensures memory { held_in self.new ≡ memory_after V.Value vote.now count.old (held_in self.old) }
        ensures count { count.new ≡ count_after V.Value vote.now count.old (held_in self.old) }
    {
        match self {
            Memory::Table(table) => send_to::<Table<V>>(table.as_mut_slice(), count, vote),
            Memory::Frames(bytes) => send_to::<Frames<V>>(bytes.as_mut_slice(), count, vote),
        }
    }

    // Writes a vote at a place below the capacity: a post that starts there sends there.
    #[tactic(auto, using(crate::proofs::Filling::fills))]
    pub(crate) fn fill(&mut self, place: usize, vote: &Vote<V>) -> Result<(), Refusal>
        ensures { Writes (filled V.Value place vote.now (held_in self.old)) result (held_in self.old) (held_in self.new) }
    {
        let mut count = place;
        self.send(&mut count, vote).map_err(|_| Refusal::Malformed)
    }

    // Writes bytes from an offset on, where they lie inside the bytes of frames.
    pub(crate) fn poke(&mut self, offset: usize, new: &[u8]) -> Result<(), Refusal>
        ensures { Writes (poked offset new.now (held_in self.old)) result (held_in self.old) (held_in self.new) }
    {
        let Memory::Frames(bytes) = self else {
            return Err(Refusal::Malformed);
        };
        if offset > bytes.len() || new.len() > bytes.len() - offset {
            return Err(Refusal::Malformed);
        }
        bytes[offset..offset + new.len()].copy_from_slice(new);
        Ok(())
    }

    // What a look at the post with a count shows.
    pub(crate) fn look(
        &mut self,
        heap: Global,
        count: usize,
        look: Look,
    ) -> Result<String, AllocError>
        ensures value { IfOk result (λ s. string_bytes s ≡ shown V.Value V.TextValue.own look count (held_in self.old)) }
        ensures same { held_in self.new ≡ held_in self.old }
    {
        match self {
            Memory::Table(table) => look_at::<V, Table<V>>(heap, table.as_mut_slice(), count, look),
            Memory::Frames(bytes) => look_at::<V, Frames<V>>(
                heap,
                bytes.as_mut_slice(),
                count,
                look,
            ),
        }
    }
}
