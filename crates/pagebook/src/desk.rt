// The desk: the memory of a post, and the commands on it.
ghost use Rattle.std.specs.Prelude.{◌≡◌, None};
ghost use Rattle.words.specs.Refusals.{IfRead};
ghost use Rattle.pagebook.specs.Desks.{Replied, bare, filled, held_in, lay, look_reply, poked, prepare, reply, send_reply, view};

use super::answers::{check_text, frame_text, read_text, sent_text};
use super::command::{Command, Look};
use super::memory::Memory;
use std::alloc::Global;
use text::text_value::TextValue;
use votes::vote::Vote;
use words::refusal::Refusal;

// Contracts see a desk by its `view`. A model would save that word in them, and take as many lines.
#[derive(Drop)]
pub(crate) struct Desk<V> {
    memory: Option<Memory<V>>,
    // The count that the next post over the memory starts with.
    count: usize,
    // Whether the post was called: from then on its memory is not written otherwise. A state of its own would move the memory at that call.
    called: bool,
}

impl<V: TextValue> Desk<V> {
    pub(crate) fn new() -> Desk<V>
        ensures { view result ≡ bare }
    {
        Desk {
            memory: None,
            count: 0,
            called: false,
        }
    }

    // Lays memory for a post on a desk that has none.
    fn lay(&mut self, heap: Global, memory: Memory<V>, count: usize) -> Result<String, Refusal>
        requires { (view self.old).held ≡ None }
        ensures { IfRead result (λ answer. Replied (lay V.Value (held_in memory) count (view self.old)) answer (view self.old) (view self.new)) }
    {
        let text = check_text(heap, memory.check())?;
        self.memory = Some(memory);
        self.count = count;
        Ok(text)
    }

    fn send(&mut self, heap: Global, vote: Vote<V>) -> Result<String, Refusal>
        ensures { IfRead result (λ answer. Replied (send_reply V.Value vote (view self.old)) answer (view self.old) (view self.new)) }
    {
        let memory = self.memory.as_mut().ok_or(Refusal::Malformed)?;
        self.called = true;
        let sent = memory.send(&mut self.count, &vote);
        Ok(sent_text(heap, sent)?)
    }

    fn look(&mut self, heap: Global, look: Look) -> Result<String, Refusal>
        ensures { IfRead result (λ answer. Replied (look_reply V.Value V.TextValue.own look (view self.old)) answer (view self.old) (view self.new)) }
    {
        let memory = self.memory.as_mut().ok_or(Refusal::Malformed)?;
        self.called = true;
        Ok(memory.look(heap, self.count, look)?)
    }

    // `fill` and `poke` differ in one call: a closure for that would need a contract as long as both.
    fn fill(&mut self, heap: Global, place: usize, vote: Vote<V>) -> Result<String, Refusal>
        ensures { IfRead result (λ answer. Replied (prepare (filled V.Value place vote) (view self.old)) answer (view self.old) (view self.new)) }
    {
        let memory = self.memory.as_mut().ok_or(Refusal::Malformed)?;
        if self.called {
            return Err(Refusal::Malformed);
        }
        memory.fill(place, &vote)?;
        Ok(String::from_str(heap, "0")?)
    }

    fn poke(&mut self, heap: Global, offset: usize, new: &[u8]) -> Result<String, Refusal>
        ensures { IfRead result (λ answer. Replied (prepare (poked offset new.now) (view self.old)) answer (view self.old) (view self.new)) }
    {
        let memory = self.memory.as_mut().ok_or(Refusal::Malformed)?;
        if self.called {
            return Err(Refusal::Malformed);
        }
        memory.poke(offset, new)?;
        Ok(String::from_str(heap, "0")?)
    }

    // The answer to a command, which is refused where it is not allowed.
    pub(crate) fn carry_out(&mut self, heap: Global, command: Command<V>) -> Result<String, Refusal>
        ensures { IfRead result (λ answer. Replied (reply V.Value V.TextValue.own command (view self.old)) answer (view self.old) (view self.new)) }
    {
        // The commands are closed, so a match names each step, and the contract each command.
        match command {
            Command::Frame(vote) => Ok(frame_text(heap, vote)?),
            Command::Read(bytes) => Ok(read_text::<V>(heap, bytes.as_slice())?),
            // A second post is refused before memory is allocated for it.
            Command::Table(..) | Command::Frames(..) if self.memory.is_some() => {
                Err(Refusal::Malformed)
            }
            Command::Table(records, count) => {
                let mut table = Vec::new(heap);
                table.resize(records, Vote::empty())?;
                self.lay(heap, Memory::Table(table), count)
            }
            Command::Frames(size, count) => {
                let bytes = vec![in heap; 0; size]?;
                self.lay(heap, Memory::Frames(bytes), count)
            }
            Command::Fill(place, vote) => self.fill(heap, place, vote),
            Command::Poke(offset, new) => self.poke(heap, offset, new.as_slice()),
            Command::Send(vote) => self.send(heap, vote),
            Command::Look(look) => self.look(heap, look),
        }
    }
}
