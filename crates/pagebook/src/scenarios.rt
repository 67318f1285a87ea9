// What posts answer in whole scenarios: the transcripts of the files in data/.
use super::session::Session;
use std::alloc::Global;
use words::refusal::Refusal;

// What a scenario prints, up to its first line that is refused.
fn transcript(heap: Global, scenario: &str) -> Result<String, Refusal> {
    let mut session = Session::new();
    let mut text = String::new(heap);
    for line in scenario.split('\n') {
        if let Some(answer) = session.respond(heap, line.as_bytes())? {
            text.push_str(answer.as_str())?;
            text.push('\n')?;
        }
    }
    Ok(text)
}

fn prints(heap: Global, scenario: &str, expected: &str) -> bool {
    matches!(transcript(heap, scenario), Ok(text) if text.as_str() == expected)
}

const FULL_TABLE: &str =
    "# Rates in a table of three records: page 7 is proposed and precommitted, and the fourth vote finds the post full.
values rate
post table 3
count
send 1 7 0 0 0 0 12500
send 2 7 0 0 0 0 12500
send 2 7 0 1 0 0 -12500
count
send 2 7 0 2 0 0 12500
count

# Read back: the refused vote left the others as they were.
votes
fetch 2
fetch 3";

const FULL_TABLE_PRINTS: &str = "values rate -> 0
post table 3 -> 0
count -> 0
send 1 7 0 0 0 0 12500 -> 0
send 2 7 0 0 0 0 12500 -> 0
send 2 7 0 1 0 0 -12500 -> 0
count -> 3
send 2 7 0 2 0 0 12500 -> 11 table 3
count -> 3
votes -> 0
vote 0 1 7 0 0 0 0 12500
vote 1 2 7 0 0 0 0 12500
vote 2 2 7 0 1 0 0 -12500
fetch 2 -> vote 2 7 0 1 0 0 -12500
fetch 3 -> 12 table 3
";

#[test]
fn a_table_fills_up_refuses_and_is_read_back(rt: HostRuntime) {
    assert!(rt; prints(rt.alloc(), FULL_TABLE, FULL_TABLE_PRINTS));
}

const FULL_FRAMES: &str =
    "# Fingerprints in 100 bytes: two frames of 45 bytes fit, and the rest of the memory stays unused.
values fingerprint
post frame 100
send 1 7 0 0 0 0 000102030405060708090a0b0c0d0e0f101112131415161718191A1B1C1D1E1F
send 3 7 0 1 0 1 blank
send 2 7 0 2 0 0 000102030405060708090a0b0c0d0e0f101112131415161718191A1B1C1D1E1F
count
votes
fetch 0
fetch 18446744073709551615";

const FULL_FRAMES_PRINTS: &str = "values fingerprint -> 0
post frame 100 -> 0
send 1 7 0 0 0 0 000102030405060708090a0b0c0d0e0f101112131415161718191A1B1C1D1E1F -> 0
send 3 7 0 1 0 1 blank -> 0
send 2 7 0 2 0 0 000102030405060708090a0b0c0d0e0f101112131415161718191A1B1C1D1E1F -> 11 frame 2
count -> 2
votes -> 0
vote 0 1 7 0 0 0 0 000102030405060708090a0b0c0d0e0f101112131415161718191a1b1c1d1e1f
vote 1 3 7 0 1 0 1 blank
fetch 0 -> vote 1 7 0 0 0 0 000102030405060708090a0b0c0d0e0f101112131415161718191a1b1c1d1e1f
fetch 18446744073709551615 -> 12 frame 18446744073709551615
";

#[test]
fn frames_fill_up_refuse_and_are_read_back(rt: HostRuntime) {
    assert!(rt; prints(rt.alloc(), FULL_FRAMES, FULL_FRAMES_PRINTS));
}

const FOUND_FRAMES: &str =
    "# Rates in bytes that held votes before: the stated count of nine is cut to the four frames that fit in 84 bytes.
values rate
post frame 84 9
fill 0 1 7 0 0 0 0 12500
fill 2 2 7 0 1 0 0 12500
fill 3 2 7 0 2 0 0 12500

# A bad disk: the version of frame 3 is 2 now. Frame 1 was never written. Neither is readable.
poke 65 02
votes
send 6 7 0 0 0 0 12500";

const FOUND_FRAMES_PRINTS: &str = "values rate -> 0
post frame 84 9 -> 0
fill 0 1 7 0 0 0 0 12500 -> 0
fill 2 2 7 0 1 0 0 12500 -> 0
fill 3 2 7 0 2 0 0 12500 -> 0
poke 65 02 -> 0
votes -> 0
vote 0 1 7 0 0 0 0 12500
vote 1 0 0 0 0 0 0 blank
vote 2 2 7 0 1 0 0 12500
vote 3 0 0 0 0 0 0 blank
send 6 7 0 0 0 0 12500 -> 11 frame 4
";

#[test]
fn found_frames_are_cut_to_the_capacity_and_read(rt: HostRuntime) {
    assert!(rt; prints(rt.alloc(), FOUND_FRAMES, FOUND_FRAMES_PRINTS));
}

const NO_MEMORY: &str =
    "# Fingerprints in a table of no record: the check answers 1, and the post holds nothing.
values fingerprint
post table 0 5
count
send 1 7 0 0 0 0 blank
fetch 0
votes";

const NO_MEMORY_PRINTS: &str = "values fingerprint -> 0
post table 0 5 -> 1
count -> 0
send 1 7 0 0 0 0 blank -> 11 table 0
fetch 0 -> 12 table 0
votes -> 0
";

#[test]
fn memory_of_no_vote_is_told_and_holds_none(rt: HostRuntime) {
    assert!(rt; prints(rt.alloc(), NO_MEMORY, NO_MEMORY_PRINTS));
}
