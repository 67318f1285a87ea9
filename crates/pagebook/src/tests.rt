// What a session answers to lines that are malformed, ignored or in order.
use super::session::Session;
use std::alloc::Global;
use words::refusal::Refusal;

// Lines that no session takes once rates are settled.
const MALFORMED: &str = "values rate
nonsense
frame
frame 1 7 0 0 0 0
frame 1 7 0 0 0 0 blank 1
frame 1 7 0 0 0 0 blank\x20
 frame 1 7 0 0 0 0 blank
frame  1 7 0 0 0 0 blank
frame 256 7 0 0 0 0 blank
frame 1 4294967296 0 0 0 0 blank
frame 1 7 65536 0 0 0 blank
frame 1 7 0 256 0 0 blank
frame 1 7 0 0 256 0 blank
frame 1 7 0 0 0 256 blank
frame +1 7 0 0 0 0 blank
frame 1 -7 0 0 0 0 blank
frame 1 7 0 0 0 0 +5
frame 1 7 0 0 0 0 -
frame 1 7 0 0 0 0 9223372036854775808
frame 1 7 0 0 0 0 Blank
read
read\x20
read 001
read 0g
read 00 00
read 00\r";

fn is_malformed(session: &mut Session, heap: Global, line: &[u8]) -> bool {
    matches!(session.respond(heap, line), Err(Refusal::Malformed))
}

fn is_silent(session: &mut Session, heap: Global, line: &[u8]) -> bool {
    matches!(session.respond(heap, line), Ok(None))
}

fn says(session: &mut Session, heap: Global, line: &str, text: &str) -> bool {
    matches!(session.respond(heap, line.as_bytes()), Ok(Some(answer)) if answer.as_str() == text)
}

#[test]
fn malformed_lines_are_refused_and_the_session_stays(rt: HostRuntime) {
    let heap = rt.alloc();
    let mut session = Session::new();
    assert!(rt; is_malformed(&mut session, heap, b"read 00"));
    assert!(rt; is_malformed(&mut session, heap, b"values"));
    assert!(rt; says(&mut session, heap, "values rate", "values rate -> 0"));
    for line in MALFORMED.split('\n') {
        assert!(rt; is_malformed(&mut session, heap, line.as_bytes()));
    }
    assert!(rt; is_malformed(&mut session, heap, &[0x72, 0xff]));
    assert!(rt; says(&mut session, heap, "read 00", "read 00 -> unreadable"));
}

#[test]
fn comments_and_blank_lines_print_nothing(rt: HostRuntime) {
    let heap = rt.alloc();
    let mut session = Session::new();
    assert!(rt; is_silent(&mut session, heap, b""));
    assert!(rt; is_silent(&mut session, heap, b"   "));
    assert!(rt; is_silent(&mut session, heap, b"# values rate"));
    assert!(rt; is_silent(&mut session, heap, b"  # \xff"));
}

#[test]
fn fingerprints_are_framed_and_read_back(rt: HostRuntime) {
    let heap = rt.alloc();
    let mut session = Session::new();
    assert!(rt;
        says(
            &mut session,
            heap,
            "values fingerprint",
            "values fingerprint -> 0",
        )
    );
    let line =
        "frame 6 65535 63 15 0 0 000102030405060708090A0B0C0D0E0F101112131415161718191a1b1c1d1e1f";
    let text =
        "frame 6 65535 63 15 0 0 000102030405060708090A0B0C0D0E0F101112131415161718191a1b1c1d1e1f -> 002b01060000ffff003f0f0000000102030405060708090a0b0c0d0e0f101112131415161718191a1b1c1d1e1f";
    assert!(rt; says(&mut session, heap, line, text));
    let line =
        "read 002b01060000ffff003f0f0000000102030405060708090a0b0c0d0e0f101112131415161718191a1b1c1d1e1f";
    let text =
        "read 002b01060000ffff003f0f0000000102030405060708090a0b0c0d0e0f101112131415161718191a1b1c1d1e1f -> vote 6 65535 63 15 0 0 000102030405060708090a0b0c0d0e0f101112131415161718191a1b1c1d1e1f";
    assert!(rt; says(&mut session, heap, line, text));
}
