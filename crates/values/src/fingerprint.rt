// A fingerprint: four unsigned 64-bit numbers in order.
ghost use Rattle.std.specs.Prelude.{◌≡◌, ℕ, ◌^◌, ◌<◌, length, slice_index};

#[derive(Clone, Copy, Debug, PartialEq, Eq)]
pub struct Fingerprint {
    pub words: [u64; 4],
    ghost four: { length words ≡ 4 },
    ghost small: { (k : ℕ) → slice_index words k < 2 ^ 64 },
}
