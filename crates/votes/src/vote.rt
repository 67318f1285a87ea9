// A vote: which votes are void, and when two of them share a slot.
ghost use Rattle.std.specs.Prelude.{◌≡◌};
ghost use Rattle.votes.specs.Votes.{void, in_range, fits_shape, same_slot, numbers_of, empty_vote};

use crate::kind::{Kind, Shape};
use crate::numbers::Numbers;
use values::value::Value;

pub const MAX_PAGE: u32 = 65_535;

pub const MAX_ROUND: u16 = 63;

pub const MAX_CP: u8 = 15;

#[derive(Clone, Copy, Debug, PartialEq, Eq)]
pub struct Vote<V> {
    pub numbers: Numbers,
    pub value: V,
}

impl<V: Value> Vote<V> {
    // What an unreadable frame stands for.
    pub fn empty() -> Vote<V>
        ensures { result ≡ empty_vote V.Value }
    {
        Vote {
            numbers: Numbers::default(),
            value: V::blank(),
        }
    }

    pub fn numbers(&self) -> Numbers
        ensures { result ≡ numbers_of self.now }
    {
        self.numbers
    }

    fn in_range(&self, houses: u8) -> bool
        ensures { result ≡ in_range houses self.now }
    {
        let n = self.numbers;
        n.page <= MAX_PAGE && n.round <= MAX_ROUND && n.house < houses
    }

    fn fits(&self, shape: Shape) -> bool
        ensures { result ≡ fits_shape V.Value shape self.now }
    {
        let blank = self.value.same(&V::blank());
        let n = self.numbers;
        n.cp <= shape.cp && shape.low <= n.val && n.val <= shape.high && blank != shape.valued
    }

    // Whether a circle of this many houses has no such vote.
    pub fn is_void(&self, houses: u8) -> bool
        ensures { result ≡ void V.Value houses self.now }
    {
        match Kind::try_from(self.numbers.kind) {
            Ok(kind) => !(self.in_range(houses) && self.fits(kind.shape())),
            Err(_) => true,
        }
    }

    // Whether the numbers agree in all but val.
    #[tactic(auto, unfolding(crate::specs::Votes::same_slot))]
    pub fn shares_slot(&self, other: &Vote<V>) -> bool
        ensures { result ≡ same_slot self.now other.now }
    {
        let with_this_val = Numbers {
            val: self.numbers.val,
            ..other.numbers
        };
        with_this_val == self.numbers
    }
}
