// The CRC of bytes that fill blocks and of bytes that don't, whole and in pieces.
use crc_field::Crc;
use std::test::Fail;

// Texts and their sums.
const SUMS: [(&str, u32); 3] = [
    ("", 0),
    ("123456789", 0xcbf4_3926),
    ("The quick brown fox jumps over the lazy dog", 0x414f_a339),
];

#[test]
fn sums_are_the_known_ones(rt: HostRuntime) {
    for (text, sum) in SUMS {
        let mut crc = Crc::new();
        crc.update(text.as_bytes());
        assert_eq!(rt; crc.value(), sum);
    }
}

#[test]
fn sums_are_those_of_a_plain_loop(rt: HostRuntime) {
    let bytes = message();
    for len in 0..101usize {
        let mut crc = Crc::new();
        crc.update(&bytes[..len]);
        assert_eq!(rt; crc.value(), divided(&bytes[..len]), "of {len} bytes");
    }
}

#[test]
fn pieces_have_the_sum_of_the_whole(rt: HostRuntime) {
    let bytes = short_message();
    let sum = divided(&bytes);
    for place in 0..51usize {
        let mut crc = Crc::new();
        crc.update(&bytes[..place]);
        crc.update(&bytes[place..]);
        assert_eq!(rt; crc.value(), sum, "cut at {place}");
    }
}

// Three blocks and two bytes.
fn short_message() -> [u8; 50] {
    let mut bytes = [0; 50];
    for k in 0..50usize {
        bytes[k] = (k * 5 + 3) as u8;
    }
    bytes
}

fn message() -> [u8; 100] {
    let mut bytes = [0; 100];
    for k in 0..100usize {
        bytes[k] = ((k * 167 + 13) % 256) as u8;
    }
    bytes
}

// One bit of the message after another, the lowest of each byte first.
fn divided(bytes: &[u8]) -> u32 {
    let mut remainder = u32::MAX;
    for byte in bytes {
        for place in 0..8u32 {
            let bit = u32::from(*byte >> place) % 2;
            if remainder % 2 == bit {
                remainder >>= 1;
            } else {
                remainder = (remainder >> 1) ^ 0xedb8_8320;
            }
        }
    }
    !remainder
}
