// The text of a rate: a number of ten-thousandths in digits, with a minus where it is negative.
ghost use Rattle.text.specs.Rates.{RateReads, rate_text};
ghost use Rattle.text.specs.Texts.{rate_single, rate_back, rate_apart};

use crate::text_value::TextValue;
use std::alloc::{AllocError, Global};
use values::rate::Rate;
use words::refusal::Refusal;

impl TextValue for Rate {
    ghost text = { rate_text };

    ghost reads = { RateReads };

    ghost single = { rate_single };

    ghost back = { rate_back };

    ghost apart = { rate_apart };

    fn from_word(_heap: Global, word: &str) -> Result<Rate, Refusal> {
        if word.starts_with('+') {
            return Err(Refusal::Malformed);
        }
        let amount = word.parse::<i64>()?;
        Ok(Rate { amount })
    }

    fn to_word(&self, heap: Global) -> Result<String, AllocError> {
        self.amount.to_string(heap)
    }
}
