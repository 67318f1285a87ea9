// Frames: a vote as bytes, and the vote that bytes stand for.
ghost use Rattle.std.specs.Prelude.{◌≡◌, ◌+◌, true, false, length, drop, is_ok, if◌then◌else◌, Some, None, MatchOption, ◌==◌, codes};
ghost use Rattle.votes.specs.Votes.{numbers_of};
ghost use Rattle.votes.specs.Frames.{frame, frame_size, frame_length, header as header_of, readable, fields, stands_for, ReadsBack, WritesBack, UnreadableIsEmpty};

use crate::numbers::Numbers;
use crate::vote::Vote;
use std::error::Error;
use std::fmt;
use values::value::Value;

// The version of the frame format.
pub const VERSION: u8 = 1;

// How many bytes stand before the value.
pub const HEADER: usize = 13;

// How many bytes a frame has.
pub fn frame_size<V: Value>() -> usize
    ensures { result ≡ frame_size V.Value }
{
    HEADER + V::width()
}

// What a frame's length says: how many bytes come after it.
fn frame_length<V: Value>() -> u16
    ensures { result ≡ frame_length V.Value }
{
    // No kind of value is wider than 32 bytes (the law `most`), so the cast keeps the number; try_from would have an
    // error that cannot come.
    (HEADER - 2 + V::width()) as u16
}

// A buffer that has more or fewer bytes than a frame.
#[derive(Clone, Copy, Debug, PartialEq, Eq)]
pub struct WrongSize;

impl fmt::Display for WrongSize {
    ghost output = { λ _. Some (codes "the buffer is not as long as a frame") };

    fn fmt<W: fmt::Write>(&self, f: &mut fmt::Formatter<W>) -> fmt::Result {
        f.write_str("the buffer is not as long as a frame")
    }
}

impl Error for WrongSize {}

// The numbers in a frame's header, and the bytes of its value, if size, length and version are right.
fn split<V: Value>(bytes: &[u8]) -> Option<(Numbers, &[u8])>
    ensures { MatchOption result (readable V.Value bytes.now ≡ false) (λ p. (readable V.Value bytes.now ≡ true) × (p.0 ≡ numbers_of (fields V.Value bytes.now)) × (p.1.now ≡ drop 13 bytes.now)) }
{
    let (header, value) = bytes.split_first_chunk::<HEADER>()?;
    let [
        l1,
        l0,
        version,
        kind,
        p3,
        p2,
        p1,
        p0,
        r1,
        r0,
        house,
        cp,
        val,
    ] = *header;
    let length = u16::from_be_bytes([l1, l0]);
    if length != frame_length::<V>() || version != VERSION || value.len() != V::width() {
        return None;
    }
    let numbers = Numbers {
        kind,
        page: u32::from_be_bytes([p3, p2, p1, p0]),
        round: u16::from_be_bytes([r1, r0]),
        house,
        cp,
        val,
    };
    Some((numbers, value))
}

// The vote in a frame, if the frame is readable.
fn parse<V: Value>(bytes: &[u8]) -> Option<Vote<V>>
    ensures { result ≡ (if readable V.Value bytes.now then Some (fields V.Value bytes.now) else None) }
{
    let (numbers, value) = split::<V>(bytes)?;
    let value = V::read(value)?;
    Some(Vote { numbers, value })
}

// What stands before the value.
fn header<V: Value>(vote: Vote<V>) -> [u8; HEADER]
    ensures { result ≡ header_of V.Value vote }
{
    let [l1, l0] = frame_length::<V>().to_be_bytes();
    let n = vote.numbers;
    let [p3, p2, p1, p0] = n.page.to_be_bytes();
    let [r1, r0] = n.round.to_be_bytes();
    [
        l1, l0, VERSION, n.kind, p3, p2, p1, p0, r1, r0, n.house, n.cp, n.val,
    ]
}

// Writes the vote's frame over the whole of `out`, or leaves it as it was where that is not as long as a frame.
pub fn write_frame<V: Value>(vote: Vote<V>, out: &mut [u8]) -> Result<(), WrongSize>
    ensures test { is_ok result ≡ (length out.old == frame_size V.Value) }
    ensures after { out.new ≡ (if is_ok result then frame V.Value vote else out.old) }
    ensures reads_back { is_ok result ≡ true → ReadsBack V.Value vote out.new }
{
    if out.len() != frame_size::<V>() {
        return Err(WrongSize);
    }
    out[..HEADER].copy_from_slice(&header(vote));
    vote.value.write(&mut out[HEADER..]);
    Ok(())
}

pub fn is_readable<V: Value>(bytes: &[u8]) -> bool
    ensures { result ≡ readable V.Value bytes.now }
{
    parse::<V>(bytes).is_some()
}

// The vote that a frame stands for.
pub fn read_frame<V: Value>(bytes: &[u8]) -> Vote<V>
    ensures value { result ≡ stands_for V.Value bytes.now }
    ensures writes_back { WritesBack V.Value bytes.now result }
    ensures unreadable { UnreadableIsEmpty V.Value bytes.now result }
{
    // A closure, since the borrow checker does not take the path `Vote::empty` here yet.
    parse(bytes).unwrap_or_else(|| Vote::empty())
}

// The numbers of the vote that a frame stands for, from its header alone.
#[tactic(auto, unfolding(crate::specs::Frames::stands_for))]
pub fn read_numbers<V: Value>(bytes: &[u8]) -> Numbers
    ensures { result ≡ numbers_of (stands_for V.Value bytes.now) }
{
    split::<V>(bytes)
        .map(|(numbers, _)| numbers)
        .unwrap_or_default()
}
