// The CRC-32 of gzip and zip, and a number as eight hexadecimal digits.
use text::line::put_words;

const POLYNOMIAL: u32 = 0xEDB88320;

const DIGITS: &[u8; 16] = b"0123456789abcdef";

fn with_bit(sum: u32) -> u32 {
    if sum % 2 == 1 {
        sum / 2 ^ POLYNOMIAL
    } else {
        sum / 2
    }
}

fn with_byte(sum: u32, byte: u8) -> u32 {
    (0..8).fold(sum ^ u32::from(byte), |next, _| with_bit(next))
}

pub(crate) fn crc32(s: &[u8]) -> u32 {
    !s.iter().fold(u32::MAX, |sum, byte| with_byte(sum, *byte))
}

fn digit(figure: u8) -> u8 {
    DIGITS[usize::from(figure % 16)]
}

// Stores the digits, and answers the place behind them.
pub(crate) fn put_hex(line: &mut [u8], at: usize, number: u32) -> usize {
    let [a, b, c, d] = number.to_be_bytes();
    let halves = [a / 16, a, b / 16, b, c / 16, c, d / 16, d];
    put_words(line, at, &halves.map(digit))
}
