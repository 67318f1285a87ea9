// A kind of value whose values have a text.
ghost use Rattle.std.specs.Prelude.{◌≡◌, ℕ, List, IfOk, Some, string_bytes, codes, Option as Maybe, ◌≢◌};
ghost use Rattle.words.specs.Refusals.{IfRead};

use std::alloc::{AllocError, Global};
use values::value::Value;
use words::refusal::Refusal;

pub trait TextValue: Value {
    // The text of a value, where that is not blank.
    ghost text: { Self → List ℕ };

    // What a word other than `blank` is read as.
    ghost reads: { List ℕ → Maybe Self → Type 0 };

    // The value that a word other than `blank` writes, if it writes one.
    fn from_word(heap: Global, word: &str) -> Result<Self, Refusal>
        ensures { IfRead result (λ o. reads word.now o) };

    // The text of a value that is not blank.
    fn to_word(&self, heap: Global) -> Result<String, AllocError>
        ensures { IfOk result (λ s. string_bytes s ≡ text self.now) };

    // A word is read in one way.
    ghost single: { (word : List ℕ) (o p : Maybe Self) → reads word o → reads word p → o ≡ p };

    // The text of a value reads back as that value.
    ghost back: { (v : Self) (o : Maybe Self) → reads (text v) o → o ≡ Some v };

    // No value's text is the word for blank.
    ghost apart: { (v : Self) → text v ≢ codes "blank" };
}
