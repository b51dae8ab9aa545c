//! What can stand at the faults of texts, worked out by hand from the grammar of the language.
use ppm_expected::{Terminal, collects_expected, expected_at_fault};
use ppm_text::tokens;
use std::alloc::Global;
use std::test::Fail;

/// A kind of tokens as text.
fn shown(alloc: Global, terminal: Terminal) -> Result<String, Fail> {
    let text = match terminal {
        Terminal::Name => format!(in alloc; "name ")?,
        Terminal::Number => format!(in alloc; "number ")?,
        Terminal::Word(keyword) => format!(in alloc; "{keyword:?} ")?,
        Terminal::Mark(sign) => format!(in alloc; "{sign:?} ")?,
    };
    Ok(text)
}

/// What can stand where the tokens of the text go no further, as text.
fn told(alloc: Global, text: &[u8]) -> Result<String, Fail> {
    let all = tokens(alloc, text)?;
    let expected = expected_at_fault(alloc, &all)?;
    let mut shown_all = String::new(alloc);
    for terminal in expected.terminals.as_slice() {
        shown_all.push_str(&shown(alloc, *terminal)?)?;
    }
    if expected.end {
        shown_all.push_str("end")?;
    }
    Ok(shown_all)
}

#[test]
fn tells_what_can_stand_in_declarations(rt: HostRuntime) -> Result<(), Fail> {
    let cases: [(&[u8], &str); 9] = [
        (b"", "Array Proc Input end"),
        (b"proc main() { }", "Array Proc Input end"),
        (b"proc main() { } }", "Array Proc Input end"),
        (b"array 5", "name "),
        (b"array a[2;", "CloseBracket "),
        (b"proc main(", "Mut Ref Int CloseParen "),
        (b"proc main(mut a mut b)", "CloseParen Comma "),
        (b"input a = -", "number "),
        (b"input a = 1, ;", "number Minus "),
    ];
    for (text, want) in cases {
        assert_eq!(rt; told(rt.alloc(), text)?.as_str(), want);
    }
    Ok(())
}

#[test]
fn tells_what_can_stand_in_statements(rt: HostRuntime) -> Result<(), Fail> {
    let cases: [(&[u8], &str); 7] = [
        (
            b"proc main() { if 1 { }",
            "name Let If Else While Call Fork Split Each Give CloseBrace ",
        ),
        (b"proc main() { give 1; let", "CloseBrace "),
        (b"proc main() { x +", "OpenBracket Assign "),
        (
            b"proc main() { x = ;",
            "name number Call Len OpenParen Minus ",
        ),
        (b"proc main() { fork x", "OpenParen Assign "),
        (
            b"proc main() { let x = 1 < 2 < 3; }",
            "Semicolon Plus Minus Times Divide Remainder Both Either ",
        ),
        (
            b"proc main() { call f(a }",
            "OpenBracket CloseParen Comma Plus Minus Times Divide Remainder Equal NotEqual Less LessEqual Greater GreaterEqual Both Either ",
        ),
    ];
    for (text, want) in cases {
        assert_eq!(rt; told(rt.alloc(), text)?.as_str(), want);
    }
    Ok(())
}

#[test]
fn collects_by_every_grammar() {
    collects_expected::<u8, u8, u8, u8, u8>();
}
