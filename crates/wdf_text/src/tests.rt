//! Numbers at the bound of 64 bits and past it, through the public call.
use super::small_number;

#[test]
fn digits_write_their_number(rt: HostRuntime) {
    for (digits, number) in [
        ("", Some(0)),
        ("0", Some(0)),
        ("7", Some(7)),
        ("007", Some(7)),
        ("1048576", Some(1_048_576)),
        ("18446744073709551615", Some(u64::MAX)),
        ("18446744073709551616", None),
        ("18446744073709551620", None),
        ("000018446744073709551615", Some(u64::MAX)),
        ("100000000000000000000000000000000000000000", None),
    ] {
        assert_eq!(rt; small_number(digits.as_bytes()), number, "at {digits:?}");
    }
}
