// The layout of frames: bytes, in which frames stand one after the other.
ghost use Rattle.std.specs.Prelude.{◌≡◌, ◌<◌, ◌≤◌, MatchOption};
ghost use Rattle.posts.specs.Memories.{frame_at, frame_places, frames_in, frames_long, with_frame};
ghost use Rattle.posts.specs.declared.fault.Layer.TheVariants.{Frame as frame_layer};
ghost use Rattle.votes.specs.Frames.{frame};

use crate::fault::Layer;
use crate::memory::Layout;
use std::marker::PhantomData;
use values::value::Value;
use votes::frame::{frame_size, read_frame, read_numbers, write_frame};
use votes::numbers::Numbers;
use votes::vote::Vote;

// Only a type: nobody makes one.
pub struct Frames<V> {
    kind: PhantomData<V>,
}

// The bytes of the frame at a place, if there is the place.
fn frame_at<V: Value>(bytes: &[u8], place: usize) -> Option<&[u8]>
    ensures { MatchOption result (frame_places V.Value bytes.now ≤ place) (λ f. (place < frame_places V.Value bytes.now) × (f.now ≡ frame_at V.Value place bytes.now)) }
{
    if place >= Frames::<V>::places(bytes) {
        return None;
    }
    let size = frame_size::<V>();
    let from = place * size;
    Some(&bytes[from..from + size])
}

impl<V: Value> Layout for Frames<V> {
    type Item = u8;

    type Value = V;

    ghost layer = { frame_layer };

    ghost votes = { λ bytes. frames_in V.Value bytes };

    ghost places = { λ bytes. frame_places V.Value bytes };

    ghost long = { λ bytes. frames_long V.Value bytes };

    ghost put = { λ place vote bytes. with_frame V.Value place bytes (frame V.Value vote) };

    fn layer() -> Layer
        ensures { result ≡ frame_layer }
    {
        Layer::Frame
    }

    fn places(bytes: &[u8]) -> usize {
        bytes.len() / frame_size::<V>()
    }

    #[tactic(auto, using(crate::proofs::Standing::frames_nth, crate::proofs::Standing::frames_past))]
    fn get(bytes: &[u8], place: usize) -> Option<Vote<V>> {
        Some(read_frame(frame_at::<V>(bytes, place)?))
    }

    #[tactic(auto, using(crate::proofs::Standing::frames_nth, crate::proofs::Standing::frames_past))]
    fn numbers(bytes: &[u8], place: usize) -> Option<Numbers> {
        Some(read_numbers::<V>(frame_at::<V>(bytes, place)?))
    }

    // By a test: what a slice is after a write through `get_mut` has no contract in the library.
    #[tactic(auto, using(crate::proofs::Standing::part_put, crate::proofs::Standing::frames_kept))]
    fn put(bytes: &mut [u8], place: usize, vote: &Vote<V>) {
        if place < Self::places(bytes) {
            let size = frame_size::<V>();
            let from = place * size;
            // The part is as long as a frame, so nothing is refused.
            let _ = write_frame(*vote, &mut bytes[from..from + size]);
        }
    }
}
