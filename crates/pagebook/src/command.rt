// What a line asks.
use votes::vote::Vote;

#[derive(Drop)]
pub(crate) enum Command<V> {
    // The frame of a vote.
    Frame(Vote<V>),
    // The vote in a frame.
    Read(Vec<u8>),
    // A post over a table of so many records, with a stated count.
    Table(usize, usize),
    // A post over so many bytes, with a stated count.
    Frames(usize, usize),
    // A vote into the record or the frame at a place of the memory.
    Fill(usize, Vote<V>),
    // Bytes into the memory from an offset on.
    Poke(usize, Vec<u8>),
    // A vote to the post.
    Send(Vote<V>),
    Look(Look),
}

// What a line asks of the post and leaves as it is.
#[derive(Clone, Copy, Debug, PartialEq, Eq)]
pub(crate) enum Look {
    Fetch(usize),
    Count,
    Votes,
}
