//! Texts on both sides of each limit and each bound, made of parts.
use crate::program::{Answer, answer};
use ppm_answers::Pass;
use std::alloc::{AllocError, Global};
use std::test::Fail;

/// A part of a text.
#[derive(Clone, Copy, Debug)]
enum Part {
    /// These bytes.
    Once(&'static str),
    /// These bytes, so many times.
    Times(&'static str, u32),
    /// `let vN = 0; ` for each N from one number on, before another.
    Lets(u32, u32),
    /// `if vN { } ` for each N from one number on, before another.
    Uses(u32, u32),
}

/// A text of these parts.
fn text_of(alloc: Global, parts: &[Part]) -> Result<String, AllocError> {
    let mut text = String::new(alloc);
    for part in parts {
        match *part {
            Part::Once(piece) => text.push_str(piece)?,
            Part::Times(piece, times) => {
                for _ in 0..times {
                    text.push_str(piece)?;
                }
            }
            Part::Lets(from, before) => {
                for n in from..before {
                    let line = format!(in alloc; "let v{n} = 0; ")?;
                    text.push_str(line.as_str())?;
                }
            }
            Part::Uses(from, before) => {
                for n in from..before {
                    let line = format!(in alloc; "if v{n} {{ }} ")?;
                    text.push_str(line.as_str())?;
                }
            }
        }
    }
    Ok(text)
}

/// Texts with their answers.
const TEXTS: [(&[Part], Answer); 43] = [
    // The bytes of a text.
    (&[Part::Times(" ", 1_048_576)], Some((Pass::Region, 8, 0))),
    (
        &[Part::Times(" ", 1_048_577)],
        Some((Pass::Text, 5, 1_048_576)),
    ),
    // Arrays, and their words.
    (
        &[Part::Times("array a[1];\n", 64)],
        Some((Pass::Region, 2, 2)),
    ),
    (
        &[Part::Times("array b00[1];\n", 65)],
        Some((Pass::Syntax, 4, 896)),
    ),
    (&[Part::Once("array a[4194304]; proc main() { }")], None),
    (
        &[Part::Once("array a[4194303]; array b[1]; proc main() { }")],
        None,
    ),
    (
        &[Part::Once("array a[4194303]; array b[2]; proc main() { }")],
        Some((Pass::Syntax, 4, 26)),
    ),
    // Procedures, each `each` counted with them.
    (
        &[Part::Times("proc f() { }\n", 1_024)],
        Some((Pass::Region, 2, 2)),
    ),
    (
        &[Part::Times("proc f() { }\n", 1_025)],
        Some((Pass::Syntax, 4, 13_312)),
    ),
    (
        &[
            Part::Once("array a[1]; proc main(mut a) { "),
            Part::Times("each i, x in a { } ", 1_023),
            Part::Once("}"),
        ],
        None,
    ),
    (
        &[
            Part::Once("array a[1]; proc main(mut a) { "),
            Part::Times("each i, x in a { } ", 1_024),
            Part::Once("}"),
        ],
        Some((Pass::Syntax, 4, 19_468)),
    ),
    // Parameters and arguments.
    (
        &[
            Part::Once("proc main("),
            Part::Times("mut a, ", 11),
            Part::Once("mut a) { }"),
        ],
        Some((Pass::Region, 2, 1)),
    ),
    (
        &[
            Part::Once("proc main("),
            Part::Times("mut a, ", 12),
            Part::Once("mut a) { }"),
        ],
        Some((Pass::Syntax, 4, 94)),
    ),
    (
        &[
            Part::Once("proc main() { call f("),
            Part::Times("1, ", 11),
            Part::Once("1); }"),
        ],
        Some((Pass::Region, 1, 1)),
    ),
    (
        &[
            Part::Once("proc main() { call f("),
            Part::Times("1, ", 12),
            Part::Once("1); }"),
        ],
        Some((Pass::Syntax, 4, 57)),
    ),
    // Nodes of a statement: a name alone is one, and so is a unary minus.
    (
        &[
            Part::Once("array a[1]; proc main(mut a) { a[0] = "),
            Part::Times("1 + ", 23),
            Part::Once("1; }"),
        ],
        None,
    ),
    (
        &[
            Part::Once("array a[1]; proc main(mut a) { a[0] = "),
            Part::Times("1 + ", 24),
            Part::Once("1; }"),
        ],
        Some((Pass::Syntax, 4, 132)),
    ),
    (
        &[
            Part::Once("proc main() { let x = 1; x = "),
            Part::Times("x + ", 23),
            Part::Once("-x; }"),
        ],
        None,
    ),
    (
        &[
            Part::Once("proc main() { let x = 1; x = "),
            Part::Times("x + ", 24),
            Part::Once("x; }"),
        ],
        Some((Pass::Syntax, 4, 125)),
    ),
    // Openings.
    (
        &[
            Part::Once("proc main() { let x = "),
            Part::Times("(", 31),
            Part::Once("1"),
            Part::Times(")", 31),
            Part::Once("; }"),
        ],
        None,
    ),
    (
        &[
            Part::Once("proc main() { let x = "),
            Part::Times("(", 33),
            Part::Once("1"),
        ],
        Some((Pass::Syntax, 3, 53)),
    ),
    (
        &[
            Part::Once("proc main() { "),
            Part::Times("if 1 { ", 31),
            Part::Times("} ", 32),
        ],
        None,
    ),
    (
        &[Part::Once("proc main() { "), Part::Times("if 1 { ", 32)],
        Some((Pass::Syntax, 3, 236)),
    ),
    // Names in force: parameters, locals, parts, and two slots for elements.
    (
        &[
            Part::Once("proc main() { "),
            Part::Lets(0, 24),
            Part::Once("v0 = v1; }"),
        ],
        None,
    ),
    (
        &[
            Part::Once("proc main() { "),
            Part::Lets(0, 25),
            Part::Once("}"),
        ],
        Some((Pass::Cut, 1, 0)),
    ),
    (
        &[
            Part::Once("proc f(int p, int q) { "),
            Part::Lets(0, 22),
            Part::Once("} proc main() { }"),
        ],
        None,
    ),
    (
        &[
            Part::Once("proc f(int p, int q) { "),
            Part::Lets(0, 23),
            Part::Once("} proc main() { }"),
        ],
        Some((Pass::Cut, 1, 0)),
    ),
    (
        &[
            Part::Once("array a[1]; proc main(mut a) { a[0] = 1; "),
            Part::Lets(0, 21),
            Part::Once("}"),
        ],
        None,
    ),
    (
        &[
            Part::Once("array a[1]; proc main(mut a) { a[0] = 1; "),
            Part::Lets(0, 22),
            Part::Once("}"),
        ],
        Some((Pass::Cut, 1, 0)),
    ),
    (
        &[
            Part::Once("array a[1]; proc main(mut a) { "),
            Part::Lets(0, 21),
            Part::Once("split a at 0 into l, r { } let x = 0; }"),
        ],
        None,
    ),
    (
        &[
            Part::Once("array a[1]; proc main(mut a) { "),
            Part::Lets(0, 22),
            Part::Once("split a at 0 into l, r { } }"),
        ],
        Some((Pass::Cut, 1, 0)),
    ),
    // Names of outside in the block of an `each`; its own names count for its hidden procedure
    // alone.
    (
        &[
            Part::Once("array z[1]; proc main(mut z) { "),
            Part::Lets(0, 20),
            Part::Once("each i, x in z { "),
            Part::Uses(0, 10),
            Part::Once("} }"),
        ],
        None,
    ),
    (
        &[
            Part::Once("array z[1]; proc main(mut z) { "),
            Part::Lets(0, 20),
            Part::Once("each i, x in z { "),
            Part::Uses(0, 11),
            Part::Once("} }"),
        ],
        Some((Pass::Cut, 3, 0)),
    ),
    (
        &[
            Part::Once("array z[1]; proc main(mut z) { "),
            Part::Lets(0, 22),
            Part::Once("each i, x in z { "),
            Part::Lets(22, 44),
            Part::Once("} }"),
        ],
        None,
    ),
    (
        &[
            Part::Once("array z[1]; proc main(mut z) { "),
            Part::Lets(0, 22),
            Part::Once("each i, x in z { "),
            Part::Lets(22, 45),
            Part::Once("} }"),
        ],
        Some((Pass::Cut, 1, 0)),
    ),
    (
        &[
            Part::Once("array z[1]; proc main(mut z) { each i, x in z { "),
            Part::Lets(0, 20),
            Part::Once("x[0] = 1; } }"),
        ],
        None,
    ),
    (
        &[
            Part::Once("array z[1]; proc main(mut z) { each i, x in z { "),
            Part::Lets(0, 21),
            Part::Once("x[0] = 1; } }"),
        ],
        Some((Pass::Cut, 1, 0)),
    ),
    (
        &[
            Part::Once("array z[1]; proc main(mut z) { "),
            Part::Lets(0, 10),
            Part::Once("each i, x in z { each j, y in x { "),
            Part::Uses(0, 10),
            Part::Once("if j { } } } }"),
        ],
        None,
    ),
    (
        &[
            Part::Once("array z[1]; proc main(mut z) { "),
            Part::Lets(0, 10),
            Part::Once("each i, x in z { each j, y in x { "),
            Part::Uses(0, 10),
            Part::Once("if i { } } } }"),
        ],
        Some((Pass::Cut, 3, 0)),
    ),
    // Slots come before names of outside, in whatever procedure, and both before capsules.
    (
        &[
            Part::Once("array z[1]; proc main(mut z) { "),
            Part::Lets(0, 11),
            Part::Once("each i, x in z { "),
            Part::Uses(0, 11),
            Part::Once("} } proc f(mut z) { "),
            Part::Times("z[0] = 1; ", 16_384),
            Part::Lets(0, 22),
            Part::Once("}"),
        ],
        Some((Pass::Cut, 1, 1)),
    ),
    // Capsules: four a statement and two a procedure; an `each` is five statements and a procedure.
    (
        &[
            Part::Once("array a[1]; proc main(mut a) {"),
            Part::Times(" a[0] = 1;", 16_383),
            Part::Once(" }"),
        ],
        None,
    ),
    (
        &[
            Part::Once("array a[1]; proc main(mut a) {"),
            Part::Times(" a[0] = 1;", 16_384),
            Part::Once(" }"),
        ],
        Some((Pass::Cut, 2, 0)),
    ),
    (
        &[
            Part::Once("array a[1]; proc main(mut a) {"),
            Part::Times(" a[0] = 1;", 16_378),
            Part::Once(" each i, x in a { } }"),
        ],
        Some((Pass::Cut, 2, 0)),
    ),
];

#[test]
fn texts_on_both_sides_of_a_limit_are_answered(rt: HostRuntime) -> Result<(), Fail> {
    for (parts, expected) in TEXTS {
        let text = text_of(rt.alloc(), parts)?;
        assert_eq!(rt; answer(rt.alloc(), text.as_str())?, expected, "{parts:?}");
    }
    Ok(())
}
