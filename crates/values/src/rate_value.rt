// Rates as a kind of value: eight bytes in two's complement, and the smallest number for blank.
ghost use Rattle.values.specs.Rates.{rate_bytes, rate_parsed, rate_blank};
ghost use Rattle.values.specs.RatesLemmas.{rate_reading, rate_writing};
ghost use Rattle.values.specs.BigEndian.{length-big, octets-big};
ghost use Rattle.std.proofs.Common.{lit≤, of_z};
ghost use Rattle.std.specs.Int.{w64};

use crate::rate::Rate;
use crate::value::Value;

impl Value for Rate {
    ghost width = { 8 };

    ghost bytes = { rate_bytes };

    ghost parsed = { rate_parsed };

    ghost blank = { rate_blank };

    ghost least = { lit≤ tt };

    ghost most = { lit≤ tt };

    ghost long = { λ r. length-big 8 (of_z w64 r.amount) };

    ghost octets = { λ r. octets-big 8 (of_z w64 r.amount) };

    ghost reading = { rate_reading };

    ghost writing = { rate_writing };

    fn width() -> usize {
        8
    }

    fn write(&self, out: &mut [u8]) {
        out.copy_from_slice(&self.amount.to_be_bytes());
    }

    fn read(from: &[u8]) -> Option<Rate> {
        let amount = i64::from_be_bytes(<[u8; 8]>::try_from(from).ok()?);
        Some(Rate { amount })
    }

    #[tactic(auto, using(crate::specs::RatesLemmas::rate_equal))]
    fn same(&self, other: &Rate) -> bool {
        self == other
    }

    fn blank() -> Rate {
        Rate { amount: i64::MIN }
    }
}
