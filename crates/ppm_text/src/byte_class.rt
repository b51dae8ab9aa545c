//! The classes of bytes.
ghost use Rattle.std.specs.Prelude.{◌≡◌};
ghost use Rattle.ppm_words.specs.Names.{is_letter, is_digit};
ghost use Rattle.ppm_text.specs.Bytes.{class_of, is_blank};

/// What a byte can begin.
#[derive(Clone, Copy, PartialEq, Eq, Debug)]
pub enum ByteClass {
    /// A letter of ASCII or `_`, which begins a name or a keyword.
    Letter,
    /// A decimal digit, which begins a number.
    Digit,
    /// A line feed, which ends a line.
    LineFeed,
    /// A space, a tab or a carriage return.
    Blank,
    /// `#`, which begins a comment.
    Hash,
    /// Any other byte of ASCII, which begins a sign or nothing.
    Mark,
    /// No byte of ASCII: 128 to 255.
    High,
}

/// Whether a byte is a letter of ASCII or `_`.
pub fn is_letter_byte(byte: u8) -> bool
    ensures { result ≡ is_letter byte }
{
    (97 <= byte && byte <= 122) || (65 <= byte && byte <= 90) || byte == 95
}

/// Whether a byte is a decimal digit.
pub fn is_digit_byte(byte: u8) -> bool
    ensures { result ≡ is_digit byte }
{
    48 <= byte && byte <= 57
}

/// Whether a byte is a space, a tab or a carriage return.
fn is_blank_byte(byte: u8) -> bool
    ensures { result ≡ is_blank byte }
{
    byte == 32 || byte == 9 || byte == 13
}

/// The class of a byte.
pub fn class(byte: u8) -> ByteClass
    ensures { result ≡ class_of byte }
{
    if is_letter_byte(byte) {
        ByteClass::Letter
    } else if is_digit_byte(byte) {
        ByteClass::Digit
    } else if byte == b'\n' {
        ByteClass::LineFeed
    } else if is_blank_byte(byte) {
        ByteClass::Blank
    } else if byte == b'#' {
        ByteClass::Hash
    } else if byte <= 127 {
        ByteClass::Mark
    } else {
        ByteClass::High
    }
}
