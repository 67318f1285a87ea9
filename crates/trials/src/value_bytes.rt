// Values: their bytes, blank ones, and which are the same.
use values::fingerprint::Fingerprint;
use values::rate::Rate;
use values::value::Value;

fn bytes_of(amount: i64) -> [u8; 8] {
    let mut bytes = [0; 8];
    Rate { amount }.write(&mut bytes);
    bytes
}

#[test]
fn rates_are_in_twos_complement(rt: HostRuntime) {
    assert!(rt; bytes_of(12_500) == [0, 0, 0, 0, 0, 0, 0x30, 0xd4]);
    assert!(rt; bytes_of(-1) == [0xff; 8]);
    assert!(rt; bytes_of(i64::MIN) == [0x80, 0, 0, 0, 0, 0, 0, 0]);
    assert!(rt; bytes_of(i64::MAX) == [0x7f, 0xff, 0xff, 0xff, 0xff, 0xff, 0xff, 0xff]);
}

#[test]
fn a_rate_of_zero_is_not_blank(rt: HostRuntime) {
    assert!(rt; !Rate { amount: 0 }.same(&Rate::blank()));
    assert!(rt; Rate { amount: i64::MIN }.same(&Rate::blank()));
}

#[test]
fn fingerprints_are_four_numbers_in_order(rt: HostRuntime) {
    let words = [
        0x0102_0304_0506_0708,
        0x1112_1314_1516_1718,
        0x2122_2324_2526_2728,
        0x3132_3334_3536_3738,
    ];
    let mut bytes = [0; 32];
    Fingerprint { words }.write(&mut bytes);
    assert!(rt; bytes[0..9] == [1, 2, 3, 4, 5, 6, 7, 8, 0x11]);
    assert!(rt; bytes[16..17] == [0x21]);
    assert!(rt; bytes[31..32] == [0x38]);
    assert!(rt; Fingerprint::read(&bytes) == Some(Fingerprint { words }));
}

#[test]
fn only_zero_is_a_blank_fingerprint(rt: HostRuntime) {
    let last = Fingerprint {
        words: [0, 0, 0, 1],
    };
    assert!(rt; !last.same(&Fingerprint::blank()));
    assert!(rt; Fingerprint { words: [0; 4] }.same(&Fingerprint::blank()));
    assert!(rt; Fingerprint::read(&[0; 31]).is_none());
}
