// What the commands answer, as text. Each clause says in the same words which bytes the text has, where there is memory for it.
ghost use Rattle.std.specs.Prelude.{◌≡◌, ◌++◌, IfOk, codes, string_bytes};
ghost use Rattle.text.specs.VoteWords.{vote_text};
ghost use Rattle.pagebook.specs.Answers.{frame_answer, read_answer, check_answer, sent_answer, fetched_answer, votes_answer, look_answer};

use super::command::Look;
use posts::fault::Fault;
use posts::memory::TooSmall;
use posts::post::Post;
use posts::post_votes::Votes;
use std::alloc::{AllocError, Global};
use text::text_value::TextValue;
use text::vote_text::show_vote;
use votes::frame::{frame_size, is_readable, read_frame, write_frame};
use votes::vote::Vote;
use words::hexadecimal::show_hex;

// A vote's frame in hexadecimal.
pub(crate) fn frame_text<V: TextValue>(heap: Global, vote: Vote<V>) -> Result<String, AllocError>
    ensures { IfOk result (λ s. string_bytes s ≡ frame_answer V.Value vote) }
{
    let mut frame = vec![in heap; 0; frame_size::<V>()]?;
    // The buffer is as long as a frame, so this can't fail.
    let _ = write_frame(vote, frame.as_mut_slice());
    show_hex(heap, frame.as_slice())
}

// A vote as the answers name it.
fn vote_words<V: TextValue>(heap: Global, vote: Vote<V>) -> Result<String, AllocError>
    ensures { IfOk result (λ s. string_bytes s ≡ codes "vote " ++ vote_text V.Value V.TextValue.own vote) }
{
    let words = show_vote(heap, vote)?;
    format!(in heap; "vote {words}")
}

// The vote in a frame, or that the frame is unreadable.
pub(crate) fn read_text<V: TextValue>(heap: Global, bytes: &[u8]) -> Result<String, AllocError>
    ensures { IfOk result (λ s. string_bytes s ≡ read_answer V.Value V.TextValue.own bytes.now) }
{
    let vote = read_frame::<V>(bytes);
    if is_readable::<V>(bytes) {
        vote_words(heap, vote)
    } else {
        String::from_str(heap, "unreadable")
    }
}

// What a memory check found.
pub(crate) fn check_text(heap: Global, checked: Result<(), TooSmall>) -> Result<String, AllocError>
    ensures { IfOk result (λ s. string_bytes s ≡ check_answer checked) }
{
    match checked {
        Ok(()) => String::from_str(heap, "0"),
        Err(small) => {
            let code = small.code();
            format!(in heap; "{code}")
        }
    }
}

// Whether a vote was sent. The numbers 11, here, and 12, below, are of the text format.
pub(crate) fn sent_text(heap: Global, sent: Result<(), Fault>) -> Result<String, AllocError>
    ensures { IfOk result (λ s. string_bytes s ≡ sent_answer sent) }
{
    match sent {
        Ok(()) => String::from_str(heap, "0"),
        Err(fault) => format!(in heap; "11 {fault}"),
    }
}

// The vote that was fetched.
pub(crate) fn fetched_text<V: TextValue>(
    heap: Global,
    fetched: Result<Vote<V>, Fault>,
) -> Result<String, AllocError>
    ensures { IfOk result (λ s. string_bytes s ≡ fetched_answer V.Value V.TextValue.own fetched) }
{
    match fetched {
        Ok(vote) => vote_words(heap, vote),
        Err(fault) => format!(in heap; "12 {fault}"),
    }
}

// The votes of any post, each on a line of its own.
#[tactic(auto, unfolding(crate::specs::Answers::votes_answer))]
pub(crate) fn votes_text<V: TextValue, P: Post<Value = V>>(
    heap: Global,
    post: &P,
) -> Result<String, AllocError>
    ensures { IfOk result (λ s. string_bytes s ≡ votes_answer V.Value V.TextValue.own (P.Post.votes post.now)) }
{
    let mut text = String::from_str(heap, "0")?;
    for (place, vote) in Votes::of(post).enumerate() {
        let words = show_vote(heap, vote)?;
        let line = format!(in heap; "\nvote {place} {words}")?;
        text.push_str(line.as_str())?;
    }
    Ok(text)
}

// What a look at any post shows.
pub(crate) fn look_text<V: TextValue, P: Post<Value = V>>(
    heap: Global,
    post: &P,
    look: Look,
) -> Result<String, AllocError>
    ensures { IfOk result (λ s. string_bytes s ≡ look_answer V.Value V.TextValue.own P.Post.layer (P.Post.votes post.now) look) }
{
    // The looks are closed, so a match names each, and the contract each answer.
    match look {
        Look::Fetch(place) => fetched_text(heap, post.fetch(place)),
        Look::Count => {
            let count = post.count();
            format!(in heap; "{count}")
        }
        Look::Votes => votes_text(heap, post),
    }
}
