//! Numbers in decimal.
ghost use Rattle.std.specs.Prelude.{◌≡◌, ◌++◌, OnOk, OnErr, decimal};
ghost use Rattle.ppm_pieces.specs.Numbers.{is_digit as digit, is_numeral as numeral};
ghost use Rattle.ppm_pieces.specs.Numbers.{value as value_of, number_of};
ghost use Rattle.std.specs.List.{list_all};

use itoa::Buffer;
use std::alloc::AllocError;

/// Whether a byte is a decimal digit.
pub fn is_digit(byte: u8) -> bool
    ensures { result ≡ digit byte }
{
    b'0' <= byte && byte <= b'9'
}

/// Whether all bytes are.
fn are_digits(bytes: &[u8]) -> bool
    ensures { result ≡ list_all digit bytes.now }
{
    let mut left = bytes;
    while let [byte, rest @ ..] = left {
        if !is_digit(*byte) {
            return false;
        }
        left = rest;
    }
    true
}

/// Whether the bytes are the one spelling of a number, of any size. Leading zeros and signs are
/// not.
pub fn is_numeral(bytes: &[u8]) -> bool
    ensures { result ≡ numeral bytes.now }
{
    match bytes {
        [] => false,
        [first, rest @ ..] => {
            if *first == b'0' {
                rest.is_empty()
            } else {
                are_digits(bytes)
            }
        }
    }
}

/// The number of digits; one past 2^64 - 1 stands as that.
pub fn value(digits: &[u8]) -> u64
    ensures { result ≡ value_of digits.now }
{
    let mut number: u64 = 0;
    let mut left = digits;
    while let [digit, rest @ ..] = left {
        number = number
            .saturating_mul(10)
            .saturating_add(u64::from(digit.saturating_sub(b'0')));
        left = rest;
    }
    number
}

/// The number that is written so, if it is below 2^32.
pub fn number(bytes: &[u8]) -> Option<u32>
    ensures { result ≡ number_of bytes.now }
{
    if !is_numeral(bytes) {
        return None;
    }
    let number = value(bytes);
    if number < 0x1_0000_0000 {
        Some(number as u32)
    } else {
        None
    }
}

/// Appends a number in decimal; without memory the text stays.
pub fn push_number(text: &mut Vec<u8>, number: u64) -> Result<(), AllocError>
    ensures ok { OnOk result (text.new.items ≡ text.old.items ++ decimal number) }
    ensures kept { OnErr result (text.new.items ≡ text.old.items) }
{
    let mut buffer = Buffer::new();
    text.extend_from_slice(buffer.format(number).as_bytes())
}
