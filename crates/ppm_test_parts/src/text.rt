//! The scanner at values that the language's rules give.
use ppm_text::{Kind, TextError, Token, have_one_reading, tokens};
use std::alloc::Global;
use std::test::Fail;

/// A token as text, with its place and its line.
fn shown(alloc: Global, token: &Token) -> Result<String, Fail> {
    let place = token.place;
    let line = token.line;
    let text = match &token.kind {
        Kind::Name(name) => {
            let bytes = str::from_utf8(name.as_bytes())?;
            format!(in alloc; "name {bytes} {place}:{line};")?
        }
        Kind::Number(n) => {
            let value = n.to_u64();
            format!(in alloc; "{value} {place}:{line};")?
        }
        Kind::Keyword(keyword) => format!(in alloc; "{keyword:?} {place}:{line};")?,
        Kind::Sign(sign) => format!(in alloc; "{sign:?} {place}:{line};")?,
    };
    Ok(text)
}

/// The tokens of a text, as text.
fn lexed(alloc: Global, text: &[u8]) -> Result<String, Fail> {
    let all = tokens(alloc, text)?;
    let mut shown_all = String::new(alloc);
    for token in all.as_slice() {
        shown_all.push_str(&shown(alloc, token)?)?;
    }
    Ok(shown_all)
}

#[test]
fn lexes_texts(rt: HostRuntime) -> Result<(), Fail> {
    let cases: [(&[u8], &str); 9] = [
        (b"a == b", "name a 0:1;Equal 2:1;name b 5:1;"),
        (b"a=b", "name a 0:1;Assign 1:1;name b 2:1;"),
        (b"===", "Equal 0:1;Assign 2:1;"),
        (b"1a", "1 0:1;name a 1:1;"),
        (b"# c\n\r\tlet _x", "Let 6:2;name _x 10:2;"),
        (b"in int into# end", "In 0:1;Int 3:1;Into 7:1;"),
        (
            b"abcdefghijklmnopqrstuvwxyz_ABC12",
            "name abcdefghijklmnopqrstuvwxyz_ABC12 0:1;",
        ),
        (b"0009223372036854775807", "9223372036854775807 0:1;"),
        (b"", ""),
    ];
    for (text, want) in cases {
        assert_eq!(rt; lexed(rt.alloc(), text)?.as_str(), want);
    }
    Ok(())
}

#[test]
fn refuses_at_the_fault(rt: HostRuntime) {
    let cases: [(&[u8], TextError, u32, u32); 7] = [
        (b"a 9223372036854775808", TextError::NumberTooBig(2), 3, 2),
        (
            b"\nabcdefghijklmnopqrstuvwxyz_ABC123",
            TextError::NameTooLong(1),
            4,
            1,
        ),
        (b"a # \xC8", TextError::NotAscii(4), 1, 4),
        (b"a\xC8", TextError::NotAscii(1), 1, 1),
        (b"a & b", TextError::BadChar(2), 2, 2),
        (b"!a", TextError::BadChar(0), 2, 0),
        (b"&&|", TextError::BadChar(2), 2, 2),
    ];
    for (text, want, number, place) in cases {
        assert_eq!(rt; tokens(rt.alloc(), text).err(), Some(want));
        assert_eq!(rt; (want.number(), want.place()), (number, place));
    }
    have_one_reading();
}

#[test]
fn keeps_the_limit(rt: HostRuntime) -> Result<(), Fail> {
    let mut text = vec![in rt.alloc(); b'\n'; 1_048_576]?;
    let all = tokens(rt.alloc(), &text)?;
    assert_eq!(rt; all.as_slice().len(), 0);
    assert_eq!(rt; all.text_len(), 1_048_576);
    text.push(b'\n')?;
    assert_eq!(rt;
        tokens(rt.alloc(), &text).err(),
        Some(TextError::TooLong(1_048_576))
    );
    Ok(())
}
