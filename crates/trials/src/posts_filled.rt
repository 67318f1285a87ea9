// Posts of both memories at both kinds of value: filled up, refused, and read back.
use posts::fault::{Fault, Layer};
use posts::memory::TooSmall;
use posts::memory_post::{FramePost, TablePost};
use posts::post::Post;
use values::fingerprint::Fingerprint;
use values::rate::Rate;
use values::value::Value;
use votes::numbers::Numbers;
use votes::vote::Vote;

// A vote by a house, with every field of it different.
fn vote_of<V: Value>(house: u8, value: V) -> Vote<V> {
    let numbers = Numbers {
        kind: 2,
        page: 70_000,
        round: 300,
        house,
        cp: 5,
        val: 6,
    };
    Vote { numbers, value }
}

// Sends a vote of each house from 0 on, so many that the last is refused, and reads them back.
fn fills_up<V: Value, P: Post<Value = V>>(post: &mut P, value: V, room: u8) -> bool {
    for (place, house) in (0..room).enumerate() {
        if post.count() != place || post.send(&vote_of(house, value)).is_err() {
            return false;
        }
    }
    let full = usize::from(room);
    matches!(post.send(&vote_of(room, value)), Err(fault) if fault.place == full)
        && post.count() == full
        && holds(post, value, room)
}

// Whether the votes of the houses below `room` are there, and none after them.
fn holds<V: Value, P: Post<Value = V>>(post: &P, value: V, room: u8) -> bool {
    for (place, house) in (0..room).enumerate() {
        let (Ok(vote), Ok(numbers)) = (post.fetch(place), post.numbers(place)) else {
            return false;
        };
        let n = vote.numbers;
        let alike = n.house == house && n.page == 70_000 && n.round == 300;
        if !(alike && vote.value.same(&value) && numbers.house == house && numbers.val == 6) {
            return false;
        }
    }
    let past = usize::from(room);
    matches!(
        (post.fetch(past), post.numbers(past)),
        (Err(a), Err(b)) if a.place == past && b.place == past
    )
}

#[test]
fn a_table_fills_up_and_is_read_back(rt: HostRuntime) {
    let mut rates = [Vote::<Rate>::empty(); 3];
    assert!(rt; fills_up(&mut TablePost::new(&mut rates, 0), Rate { amount: -7 }, 3));
    assert_eq!(rt; rates[2].numbers.house, 2);
    let mut prints = [Vote::<Fingerprint>::empty(); 2];
    let print = Fingerprint {
        words: [1, 2, 3, 4],
    };
    assert!(rt; fills_up(&mut TablePost::new(&mut prints, 0), print, 2));
}

#[test]
fn frames_fill_up_and_leave_the_rest_of_the_bytes(rt: HostRuntime) {
    let mut bytes = [0xee; 70];
    assert!(rt;
        fills_up(
            &mut FramePost::<Rate>::new(&mut bytes, 0),
            Rate { amount: -7 },
            3,
        )
    );
    // Frame 2 begins at 42: length, version, kind, page, round and house stand there; bytes 63 to 69 are no frame's.
    assert!(rt; bytes[42..53] == [0, 19, 1, 2, 0, 1, 0x11, 0x70, 1, 0x2c, 2]);
    assert!(rt; bytes[63..70] == [0xee; 7]);
    let mut bytes = [0xee; 100];
    let print = Fingerprint {
        words: [1, 2, 3, 4],
    };
    assert!(rt; fills_up(&mut FramePost::<Fingerprint>::new(&mut bytes, 0), print, 2));
    assert!(rt; bytes[90..100] == [0xee; 10]);
}

#[test]
fn a_starting_count_is_cut_to_the_capacity(rt: HostRuntime) {
    let mut table = [Vote::<Rate>::empty(); 1_025];
    assert_eq!(rt; TablePost::new(&mut table, 9).count(), 9);
    assert_eq!(rt; TablePost::new(&mut table, usize::MAX).count(), 1_024);
    let mut bytes = [0; 41];
    assert_eq!(rt; FramePost::<Rate>::new(&mut bytes, 5).count(), 1);
    let mut bytes = [0; 21_525];
    assert_eq!(rt; FramePost::<Rate>::new(&mut bytes, 5_000).count(), 1_024);
}

#[test]
fn memory_of_less_than_a_vote_holds_none(rt: HostRuntime) {
    let mut bytes = [0; 20];
    assert!(rt; FramePost::<Rate>::check(&bytes) == Err(TooSmall));
    assert!(rt; FramePost::<Rate>::check(&[0; 21]) == Ok(()));
    assert!(rt; TablePost::<Rate>::check(&[]) == Err(TooSmall));
    let mut post = FramePost::<Rate>::new(&mut bytes, 3);
    assert!(rt;
        post.send(&Vote::empty())
            == Err(Fault {
                layer: Layer::Frame,
                place: 0,
            })
    );
}

#[test]
fn an_unreadable_frame_is_a_vote_of_kind_0(rt: HostRuntime) {
    let mut bytes = [0x77; 42];
    let post = FramePost::<Rate>::new(&mut bytes, 2);
    // The empty vote: kind, page, house and the other numbers are 0, and its value is blank.
    let numbers = Numbers {
        kind: 0,
        page: 0,
        round: 0,
        house: 0,
        cp: 0,
        val: 0,
    };
    let value = Rate::blank();
    assert!(rt; post.fetch(1) == Ok(Vote { numbers, value }));
    assert!(rt; post.numbers(1) == Ok(numbers));
}
