//! Texts and numbers from outside, each call once.
use ppm_pieces::{
    behind, is_digit, is_numeral, number, numerals_are_decimals, push_number, same_bytes,
    split_once, value,
};
use std::test::Fail;

#[test]
fn texts_are_cut_at_the_first_separator(rt: HostRuntime) -> Result<(), Fail> {
    let cases = [("1,2,3", "1", "2,3"), (",2", "", "2"), ("1,", "1", "")];
    for (text, front, behind) in cases {
        let halves = split_once(text.as_bytes(), b',');
        assert_eq!(rt;
            halves,
            Some((front.as_bytes(), behind.as_bytes())),
            "{text}"
        );
    }
    for text in ["1", ""] {
        assert_eq!(rt; split_once(text.as_bytes(), b','), None, "{text}");
    }
    Ok(())
}

#[test]
fn numbers_are_spelled_in_one_way(rt: HostRuntime) -> Result<(), Fail> {
    let cases = [
        ("0", true, 0, Some(0)),
        ("42", true, 42, Some(42)),
        ("4294967295", true, 4294967295, Some(4294967295)),
        ("4294967296", true, 4294967296, None),
        ("18446744073709551616", true, 18446744073709551615, None),
        ("07", false, 7, None),
        ("", false, 0, None),
    ];
    for (text, spelled, worth, below) in cases {
        assert_eq!(rt; is_numeral(text.as_bytes()), spelled, "{text}");
        assert_eq!(rt; value(text.as_bytes()), worth, "{text}");
        assert_eq!(rt; number(text.as_bytes()), below, "{text}");
    }
    assert!(rt; is_digit(b'9') && !is_digit(b':'));
    numerals_are_decimals();
    Ok(())
}

#[test]
fn bytes_are_compared_and_left_out(rt: HostRuntime) -> Result<(), Fail> {
    let cases = [("", ""), ("1", "1"), ("1,2", "1,2")];
    for (a, b) in cases {
        assert!(rt; same_bytes(a.as_bytes(), b.as_bytes()), "{a} {b}");
    }
    let cases = [("1", ""), ("1", "2"), ("1", "12"), ("12", "1")];
    for (a, b) in cases {
        assert!(rt; !same_bytes(a.as_bytes(), b.as_bytes()), "{a} {b}");
    }
    let cases = [("1,2", 0, "1,2"), ("1,2", 2, "2"), ("1,2", 3, "")];
    for (text, n, rest) in cases {
        assert_eq!(rt; behind(text.as_bytes(), n), rest.as_bytes(), "{text} {n}");
    }
    let words: [u64; 3] = [7, 8, 9];
    assert_eq!(rt; behind(&words, 1), [8, 9].as_slice());
    Ok(())
}

#[test]
fn numbers_are_appended(rt: HostRuntime) -> Result<(), Fail> {
    let alloc = rt.alloc();
    let mut text = Vec::new(alloc);
    for number in [0, 42, u64::MAX] {
        push_number(&mut text, number)?;
        text.push(b';')?;
    }
    assert_eq!(rt; text.as_slice(), b"0;42;18446744073709551615;".as_slice());
    Ok(())
}
