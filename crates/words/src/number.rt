// A number as a word of digits.
ghost use Rattle.std.specs.Prelude.{◌≤◌};
ghost use Rattle.std.specs.Option.{SomeIff};
ghost use Rattle.std.specs.Str.Parse.{IsNumeral, digits_value};
ghost use Rattle.words.specs.Numbers.{NumberIn};

use crate::refusal::Refusal;

// The number that a word writes in digits alone, if that is at most `most`.
pub fn number(word: &str, most: u64) -> Option<u64>
    ensures { SomeIff result (IsNumeral 10 word.now × (digits_value 10 word.now ≤ most)) (digits_value 10 word.now) }
{
    if word.starts_with('+') {
        return None;
    }
    word.parse::<u64>().ok().filter(|n| *n <= most)
}

// The number that a word writes in digits alone, if the type has it.
pub fn number_in<N: TryFrom<u64>>(word: &str) -> Result<N, Refusal>
where
    N::Error: Drop,
    ensures { NumberIn N.try_from_gives word.now result }
{
    let n = number(word, u64::MAX).ok_or(Refusal::Malformed)?;
    N::try_from(n).map_err(|_| Refusal::Malformed)
}
