//! What tokens name: numbers, slots, registers, constants and traps.
ghost use Rattle.std.specs.Prelude.{◌≡◌, ◌-◌, ◌^◌, min};
ghost use Rattle.std.specs.List.{list_all};
ghost use Rattle.ppm_listing_reader.specs.Forms.{number_of as of_number, number_at as at_number};
ghost use Rattle.ppm_listing_reader.specs.Forms.{slot_of as of_slot, register_of as of_register};
ghost use Rattle.ppm_listing_reader.specs.Forms.{register_at as at_register};
ghost use Rattle.ppm_listing_reader.specs.Forms.{constant_of as of_constant, trap_of as of_trap};
ghost use Rattle.ppm_listing_reader.specs.Forms.{is_register as is_register_token};

use crate::form::token_at;
use crate::token::Token;
use ppm_code::Register;
use ppm_words::Trap;

/// A number, or the last of 32 bits.
fn small(number: u64) -> u32
    ensures { result ≡ min number (2 ^ 32 - 1) }
{
    u32::try_from(number).unwrap_or(u32::MAX)
}

/// The number of a token; one past 2^32 - 1 stands as that.
pub(crate) fn number_of(token: Token) -> u32
    ensures { result ≡ of_number token }
{
    match token {
        Token::Number(n) => small(n),
        _ => 0,
    }
}

/// The number of the token at a place.
pub(crate) fn number_at(tokens: &[Token], place: usize) -> u32
    ensures { result ≡ at_number tokens.now place }
{
    number_of(token_at(tokens, place))
}

/// The slot of a token, if it names one.
pub(crate) fn slot_of(token: Token) -> Option<u32>
    ensures { result ≡ of_slot token }
{
    match token {
        Token::Number(n) => Some(small(n)),
        _ => None,
    }
}

/// The register of a token, or the last one.
fn register_of(token: Token) -> Register
    ensures { result ≡ of_register token }
{
    match token {
        Token::Register(n) => {
            if n < 64 {
                Register { index: n as u8 }
            } else {
                Register { index: 63 }
            }
        }
        _ => Register { index: 63 },
    }
}

/// The register of the token at a place.
pub(crate) fn register_at(tokens: &[Token], place: usize) -> Register
    ensures { result ≡ at_register tokens.now place }
{
    register_of(token_at(tokens, place))
}

/// The constant of a token, where it fits 64 bits.
pub(crate) fn constant_of(token: Token) -> Option<i64>
    ensures { result ≡ of_constant token }
{
    match token {
        Token::Number(n) => { if n < 1 << 63 { Some(n as i64) } else { None } }
        Token::Negative(n) => {
            if n <= 1 << 63 {
                Some(-1 - (n.saturating_sub(1) as i64))
            } else {
                None
            }
        }
        _ => None,
    }
}

/// The trap with a number from 1 to 4.
pub(crate) fn trap_of(number: u32) -> Option<Trap>
    ensures { result ≡ of_trap number }
{
    match number {
        1 => Some(Trap::Overflow),
        2 => Some(Trap::DivZero),
        3 => Some(Trap::Index),
        4 => Some(Trap::Split),
        _ => None,
    }
}

/// Whether a token is no register, or one that is there.
fn is_register(token: Token) -> bool
    ensures { result ≡ is_register_token token }
{
    match token {
        Token::Register(n) => n < 64,
        _ => true,
    }
}

/// Whether all registers are there.
pub(crate) fn are_registers(tokens: &[Token]) -> bool
    ensures { result ≡ list_all is_register_token tokens.now }
{
    let mut left = tokens;
    while let [token, rest @ ..] = left {
        if !is_register(*token) {
            return false;
        }
        left = rest;
    }
    true
}
