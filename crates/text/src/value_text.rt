// The text of any value: `blank`, or the text of its kind.
ghost use Rattle.std.specs.Prelude.{◌≡◌, IfOk, string_bytes};
ghost use Rattle.words.specs.Refusals.{IfRead};
ghost use Rattle.text.specs.Values.{value_text, ValueReads, ValueReadsBack};

use crate::text_value::TextValue;
use std::alloc::{AllocError, Global};
use words::refusal::Refusal;

// The value that a word writes, if it writes one.
#[tactic(auto, unfolding(crate::specs::Values::ValueReads))]
pub fn read_value<V: TextValue>(heap: Global, word: &str) -> Result<V, Refusal>
    ensures { IfRead result (λ o. ValueReads V.Value V.TextValue.own word.now o) }
{
    if word == "blank" {
        Ok(V::blank())
    } else {
        V::from_word(heap, word)
    }
}

#[tactic(auto, unfolding(crate::specs::Values::ValueReads, crate::specs::Values::value_text))]
pub fn show_value<V: TextValue>(heap: Global, value: &V) -> Result<String, AllocError>
    ensures made { IfOk result (λ s. string_bytes s ≡ value_text V.Value V.TextValue.own value.now) }
    ensures reads_back { IfOk result (λ s. ValueReadsBack V.Value V.TextValue.own value.now (string_bytes s)) }
{
    // `same`, since a kind of value need not have `==`.
    if value.same(&V::blank()) {
        String::from_str(heap, "blank")
    } else {
        value.to_word(heap)
    }
}
