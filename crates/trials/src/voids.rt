// Which votes are void in a circle of four houses, and which share a slot.
use values::rate::Rate;
use values::value::Value;
use votes::numbers::Numbers;
use votes::vote::Vote;

// A vote of page 7, round 0 and house 3, with a value or blank.
fn vote(kind: u8, cp: u8, val: u8, valued: bool) -> Vote<Rate> {
    let value = if valued {
        Rate { amount: 12_500 }
    } else {
        Rate::blank()
    };
    Vote {
        numbers: Numbers {
            kind,
            page: 7,
            round: 0,
            house: 3,
            cp,
            val,
        },
        value,
    }
}

// Kind, cp, val, whether a value stands, and whether the vote is void.
const SHAPES: [(u8, u8, u8, bool, bool); 24] = [
    (0, 0, 0, false, true),
    (1, 0, 0, true, false),
    (1, 0, 0, false, true),
    (1, 1, 0, true, true),
    (2, 0, 0, true, false),
    (2, 0, 1, true, true),
    (2, 0, 0, false, true),
    (3, 0, 0, false, false),
    (3, 15, 1, false, false),
    (3, 16, 1, false, true),
    (3, 0, 2, false, true),
    (3, 0, 0, true, true),
    (4, 0, 0, false, true),
    (4, 0, 1, false, false),
    (4, 15, 2, false, false),
    (4, 0, 3, false, true),
    (4, 0, 1, true, true),
    (5, 0, 0, false, false),
    (5, 15, 1, false, false),
    (5, 0, 2, false, true),
    (6, 0, 0, true, false),
    (6, 0, 1, true, true),
    (6, 0, 0, false, true),
    (7, 0, 0, true, true),
];

#[test]
fn shapes_are_those_of_the_table(rt: HostRuntime) {
    for (kind, cp, val, valued, void) in SHAPES {
        assert!(rt; vote(kind, cp, val, valued).is_void(4) == void);
    }
}

#[test]
fn page_round_and_house_have_limits(rt: HostRuntime) {
    let mut v = vote(2, 0, 0, true);
    assert!(rt; v.is_void(3));
    v.numbers.page = 65_535;
    v.numbers.round = 63;
    assert!(rt; !v.is_void(4));
    v.numbers.round = 64;
    assert!(rt; v.is_void(4));
    v.numbers.round = 63;
    v.numbers.page = 65_536;
    assert!(rt; v.is_void(4));
}

#[test]
fn a_slot_is_kind_page_round_house_and_cp(rt: HostRuntime) {
    let a = vote(3, 1, 0, false);
    let mut b = vote(3, 1, 1, true);
    assert!(rt; a.shares_slot(&b));
    b.numbers.cp = 2;
    assert!(rt; !a.shares_slot(&b));
    b.numbers.cp = 1;
    b.numbers.house = 2;
    assert!(rt; !a.shares_slot(&b));
}
