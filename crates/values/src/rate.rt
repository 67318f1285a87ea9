// A rate: a signed 64-bit number of ten-thousandths.
ghost use Rattle.std.specs.Prelude.{◌^◌, ◌<◌};
ghost use Rattle.std.specs.Int.Signed.{mag};

#[derive(Clone, Copy, Debug, PartialEq, Eq)]
pub struct Rate {
    pub amount: i64,
    ghost fits: { mag amount < 2 ^ 63 },
}
