// The text of a vote: its six numbers and its value, as seven words.
ghost use Rattle.std.specs.Prelude.{◌≡◌, IfOk, string_bytes};
ghost use Rattle.words.specs.Lines.{texts};
ghost use Rattle.words.specs.Refusals.{IfRead};
ghost use Rattle.text.specs.VoteWords.{vote_text, VoteReads};

use crate::text_value::TextValue;
use crate::value_text::{read_value, show_value};
use std::alloc::{AllocError, Global};
use votes::numbers::Numbers;
use votes::vote::Vote;
use words::number::number_in;
use words::refusal::Refusal;

pub fn show_vote<V: TextValue>(heap: Global, vote: Vote<V>) -> Result<String, AllocError>
    ensures { IfOk result (λ s. string_bytes s ≡ vote_text V.Value V.TextValue.own vote) }
{
    let Numbers {
        kind,
        page,
        round,
        house,
        cp,
        val,
    } = vote.numbers;
    let value = show_value(heap, &vote.value)?;
    format!(in heap; "{kind} {page} {round} {house} {cp} {val} {value}")
}

// The vote that words write, if they are seven and write one.
pub fn read_vote<V: TextValue>(heap: Global, words: &[&str]) -> Result<Vote<V>, Refusal>
    ensures { IfRead result (λ o. VoteReads V.Value V.TextValue.own (texts words.now) o) }
{
    let [kind, page, round, house, cp, val, value] = words else {
        return Err(Refusal::Malformed);
    };
    let numbers = Numbers {
        kind: number_in(kind)?,
        page: number_in(page)?,
        round: number_in(round)?,
        house: number_in(house)?,
        cp: number_in(cp)?,
        val: number_in(val)?,
    };
    let value = read_value(heap, value)?;
    Ok(Vote { numbers, value })
}
