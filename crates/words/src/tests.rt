// Words that write bytes or numbers, and words that are refused.
use crate::hexadecimal::{read_hex, show_hex};
use crate::line::words_of;
use crate::number::number_in;
use crate::refusal::Refusal;
use std::test::Fail;

#[test]
fn bytes_are_read_from_digits_of_either_case(rt: HostRuntime) -> Result<(), Fail> {
    let heap = rt.alloc();
    assert_eq!(rt;
        read_hex(heap, "00fFA5")?.as_slice(),
        [0x00, 0xff, 0xa5].as_slice()
    );
    assert!(rt; read_hex(heap, "001") == Err(Refusal::Malformed));
    assert!(rt; read_hex(heap, "0g") == Err(Refusal::Malformed));
    Ok(())
}

#[test]
fn bytes_are_shown_in_lower_case(rt: HostRuntime) -> Result<(), Fail> {
    assert_eq!(rt;
        show_hex(rt.alloc(), &[0x00, 0xff, 0xa5])?.as_str(),
        "00ffa5"
    );
    Ok(())
}

#[test]
fn a_line_is_cut_at_each_space(rt: HostRuntime) -> Result<(), Fail> {
    assert_eq!(rt;
        words_of(rt.alloc(), "send  1")?.as_slice(),
        ["send", "", "1"].as_slice()
    );
    Ok(())
}

#[test]
fn a_number_is_read_if_its_type_has_it(rt: HostRuntime) {
    assert_eq!(rt; number_in("255"), Ok(255u8));
    assert_eq!(rt; number_in("007"), Ok(7u16));
    assert_eq!(rt; number_in("18446744073709551615"), Ok(u64::MAX));
    assert!(rt; number_in::<u8>("256") == Err(Refusal::Malformed));
    assert!(rt; number_in::<u32>("+1") == Err(Refusal::Malformed));
    assert!(rt; number_in::<usize>("") == Err(Refusal::Malformed));
}
