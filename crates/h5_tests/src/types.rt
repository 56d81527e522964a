//! Values at the ends of types; the bytes are those of Python's `int.to_bytes`.

use h5_model::Fixed;
use h5_types::{ValueRange, decode, encode};

/// Whether the bytes are read as the value, and the value is written as the bytes.
fn agree(fixed: &Fixed, value: i128, bytes: &[u8]) -> bool {
    let mut room = [0x55; 8];
    let Some(part) = room.get_mut(..fixed.size()) else {
        return false;
    };
    if bytes.len() != fixed.size() {
        return false;
    }
    decode(fixed, bytes) == value && encode(fixed, value, part) == Ok(()) && *part == *bytes
}

/// Size, sign, order, value, and its bytes.
static VALUES: [(u8, bool, bool, i128, &[u8]); 8] = [
    (1, false, false, 255, b"\xff"),
    (1, true, false, -128, b"\x80"),
    (2, false, true, 258, b"\x01\x02"),
    (2, true, false, -32768, b"\x00\x80"),
    (4, false, false, 258, b"\x02\x01\x00\x00"),
    (4, true, true, 2147483647, b"\x7f\xff\xff\xff"),
    (8, false, false, 258, b"\x02\x01\x00\x00\x00\x00\x00\x00"),
    (8, true, true, -2, b"\xff\xff\xff\xff\xff\xff\xff\xfe"),
];

#[test]
fn reads_and_writes_values(rt: HostRuntime) {
    for k in 0..VALUES.len() {
        let (size, signed, big, value, bytes) = VALUES[k];
        let agrees = match Fixed::new(size, signed, big) {
            Some(fixed) => agree(&fixed, value, bytes),
            None => false,
        };
        assert!(rt; agrees, "{value} in {size} bytes");
    }
}

/// Size, sign, and the values next to the type's, below and above.
static BESIDE: [(u8, bool, i128, i128); 3] = [
    (1, true, -129, 128),
    (4, false, -1, 4294967296),
    (8, true, -9223372036854775809, 9223372036854775808),
];

/// Whether the value is refused, and leaves the bytes.
fn is_refused(fixed: &Fixed, value: i128) -> bool {
    let mut room = [0x55; 8];
    let Some(part) = room.get_mut(..fixed.size()) else {
        return false;
    };
    encode(fixed, value, part) == Err(ValueRange) && room == [0x55; 8]
}

#[test]
fn refuses_what_is_outside(rt: HostRuntime) {
    for k in 0..BESIDE.len() {
        let (size, signed, low, high) = BESIDE[k];
        let refuses = match Fixed::new(size, signed, true) {
            Some(fixed) => is_refused(&fixed, low) && is_refused(&fixed, high),
            None => false,
        };
        assert!(rt; refuses, "{size} bytes");
    }
}
