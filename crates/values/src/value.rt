// A kind of value: what a value means is its bytes, and every kind keeps the same laws.
ghost use Rattle.std.specs.Prelude.{◌≡◌, ℕ, ◌≤◌, List, length, if◌then◌else◌, Some, None, nat_eq};
ghost use Rattle.std.specs.Str.{bytes_eq};
ghost use Rattle.values.specs.Bytes.{Octets};

pub trait Value: Copy {
    // How many bytes a value of this kind has.
    ghost width: { ℕ };

    // The bytes of a value: its meaning.
    ghost bytes: { Self → List ℕ };

    // The value that bytes are read as.
    ghost parsed: { List ℕ → Self };

    // The value that stands for no value.
    ghost blank: { Self };

    fn width() -> usize
        ensures { result ≡ width };

    // Fills `out`, which is as long as a value is wide.
    fn write(&self, out: &mut [u8])
        requires { length out.old ≡ width }
        ensures { out.new ≡ bytes self.now };

    // The value whose bytes these are, or none where there are more or fewer than a value has.
    fn read(from: &[u8]) -> Option<Self>
        ensures { result ≡ (if nat_eq (length from.now) width then Some (parsed from.now) else None) };

    // By bytes, and no `==` is asked: a kind may have none, or one that compares otherwise.
    fn same(&self, other: &Self) -> bool
        ensures { result ≡ bytes_eq (bytes self.now) (bytes other.now) };

    fn blank() -> Self
        ensures { result ≡ blank };

    ghost least: { 1 ≤ width };

    ghost most: { width ≤ 32 };

    ghost long: { (v : Self) → length (bytes v) ≡ width };

    ghost octets: { (v : Self) → Octets (bytes v) };

    // Reading undoes writing.
    ghost reading: { (v : Self) → parsed (bytes v) ≡ v };

    // Writing undoes reading.
    ghost writing: { (bs : List ℕ) → length bs ≡ width → Octets bs → bytes (parsed bs) ≡ bs };
}
