// Frames: the worked one, frames from outside, and damaged ones.
use crate::worked::worked_frame;
use values::fingerprint::Fingerprint;
use values::rate::Rate;
use values::value::Value;
use votes::frame::{is_readable, read_frame, write_frame};
use votes::kind::Kind;
use votes::numbers::Numbers;
use votes::vote::Vote;

// PRECOMMIT, page 7, round 0, house 2, rate 12,500.
const WORKED: [u8; 21] = [
    0x00, 0x13, 0x01, 0x02, 0x00, 0x00, 0x00, 0x07, 0x00, 0x00, 0x02, 0x00, 0x00, 0x00, 0x00, 0x00,
    0x00, 0x00, 0x00, 0x30, 0xd4,
];

#[test]
fn the_worked_frame_is_written_and_read(rt: HostRuntime) {
    assert!(rt; worked_frame() == WORKED);
    assert!(rt; is_readable::<Rate>(&WORKED));
    let vote = read_frame::<Rate>(&WORKED);
    assert_eq!(rt; vote.numbers.kind, u8::from(Kind::Precommit));
    assert_eq!(rt; vote.numbers.page, 7);
    assert_eq!(rt; vote.numbers.house, 2);
    assert_eq!(rt; vote.value.amount, 12_500);
}

#[test]
fn every_field_has_its_place(rt: HostRuntime) {
    let vote = Vote {
        numbers: Numbers {
            kind: 0x21,
            page: 0x3242_5262,
            round: 0x7383,
            house: 0x94,
            cp: 0xa5,
            val: 0xb6,
        },
        value: Rate { amount: -2 },
    };
    let mut frame = [0; 21];
    assert!(rt; write_frame(vote, &mut frame).is_ok());
    let expected = [
        0x00, 0x13, 0x01, 0x21, 0x32, 0x42, 0x52, 0x62, 0x73, 0x83, 0x94, 0xa5, 0xb6, 0xff, 0xff,
        0xff, 0xff, 0xff, 0xff, 0xff, 0xfe,
    ];
    assert!(rt; frame == expected);
}

#[test]
fn damaged_frames_stand_for_the_empty_vote(rt: HostRuntime) {
    let mut long = [0; 22];
    long[0..21].copy_from_slice(&WORKED);
    assert!(rt; !is_readable::<Rate>(&long));
    assert!(rt; !is_readable::<Rate>(&WORKED[0..20]));
    assert!(rt; !is_readable::<Rate>(&WORKED[0..2]));
    assert!(rt; !is_readable::<Fingerprint>(&WORKED));
    let mut other_length = WORKED;
    other_length[1] = 0x12;
    assert!(rt; !is_readable::<Rate>(&other_length));
    let mut other_version = WORKED;
    other_version[2] = 2;
    assert!(rt; !is_readable::<Rate>(&other_version));
    let vote = read_frame::<Rate>(&other_version);
    assert_eq!(rt; vote.numbers.kind, 0);
    assert_eq!(rt; vote.numbers.page, 0);
    assert_eq!(rt; vote.numbers.house, 0);
    assert!(rt; vote.value.same(&Rate::blank()));
    assert!(rt; vote == Vote::empty());
}

#[test]
fn a_buffer_of_another_size_stays(rt: HostRuntime) {
    let mut short = [7; 20];
    assert!(rt; write_frame(read_frame::<Rate>(&WORKED), &mut short).is_err());
    assert!(rt; short == [7; 20]);
}
