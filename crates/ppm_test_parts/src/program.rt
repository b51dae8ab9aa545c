//! Texts of the whole language, and why they are refused.
use ppm_answers::{Pass, Refusal};
use ppm_program::{JudgeError, have_one_answer, program_of};
use ppm_regions::{have_one_fault, keep_rules};
use ppm_rows::{has_one_row, trees_are_within};
use std::alloc::Global;
use std::test::Fail;

/// A pass with the number and the place of its fault; none where the text has a program.
pub(crate) type Answer = Option<(Pass, u32, u32)>;

/// What a text is answered.
pub(crate) fn answer(alloc: Global, text: &str) -> Result<Answer, Fail> {
    match program_of(alloc, text.as_bytes()) {
        Ok(_) => Ok(None),
        Err(
            JudgeError::Refused(
                Refusal {
                    pass,
                    number,
                    place,
                },
            ),
        ) => Ok(Some((pass, number, place))),
        Err(JudgeError::NoMemory) => Err("out of memory".into()),
    }
}

/// Texts with their answers.
const TEXTS: [(&str, Answer); 46] = [
    // Texts that have a program.
    (
        "array a[2]; proc main(mut a) { a[0] = 5; a[1] = a[0] + 2; }",
        None,
    ),
    ("array a[0]; proc main() { }", None),
    ("proc main() { while 1 { } }", None),
    (
        "array a[4]; input a = 1, -2; proc sum(mut a) { if len a > 1 { split a at len a / 2 into l, r { fork sum(l) and sum(r); \
      l[0] = l[0] + r[0]; } } } proc main(mut a) { call sum(a); }",
        None,
    ),
    (
        "array a[1]; proc f(int n) { let r = n; give r; } proc main(mut a) { let v = 0; v = call f(1 - 2 * (3 + 4) % 5); a[0] = v; }",
        None,
    ),
    (
        "array a[5]; array b[5]; proc main(mut a, ref b) { each i, x in a { x[0] = b[i] * b[i] + i; } }",
        None,
    ),
    (
        "proc main() { let x = (1 < 2) == 0 || 3 >= 4 && -5 != 6; if x { } else { x = 2; } }",
        None,
    ),
    // Tokens.
    ("x\u{e8}", Some((Pass::Text, 1, 1))),
    ("array a[9223372036854775808];", Some((Pass::Text, 3, 8))),
    ("array a[2]; proc ma", Some((Pass::Syntax, 2, 19))),
    ("arra", Some((Pass::Syntax, 1, 0))),
    ("array a[2];pro", Some((Pass::Syntax, 1, 11))),
    (
        "proc main() { let x = 1 < 2 < 3; }",
        Some((Pass::Syntax, 1, 28)),
    ),
    (
        "proc main() { let x = ((((((((((((((((((((((((((((((((1",
        Some((Pass::Syntax, 3, 53)),
    ),
    (
        "proc main() { let x = -------------------------------1",
        Some((Pass::Syntax, 2, 54)),
    ),
    (
        "proc main() { let x = --------------------------------1",
        Some((Pass::Syntax, 3, 53)),
    ),
    ("array a[4194305];", Some((Pass::Syntax, 4, 8))),
    (
        "proc main() { call f(1,2,3,4,5,6,7,8,9,10,11,12,13); }",
        Some((Pass::Syntax, 4, 48)),
    ),
    (
        "proc main() { call f(); give 1; let x = 1; }",
        Some((Pass::Syntax, 1, 32)),
    ),
    (
        "proc main() { x = call f(), 1; }",
        Some((Pass::Syntax, 1, 26)),
    ),
    // Names and regions.
    ("", Some((Pass::Region, 8, 0))),
    ("proc main() { let x = y; }", Some((Pass::Region, 1, 1))),
    ("proc main() {\n call f(); }", Some((Pass::Region, 1, 2))),
    (
        "proc main() { let x = 1;\n let x = 2; }",
        Some((Pass::Region, 2, 2)),
    ),
    ("proc main() { let x = x; }", Some((Pass::Region, 1, 1))),
    (
        "array a[1];\n array a[2]; proc main() { }",
        Some((Pass::Region, 2, 2)),
    ),
    (
        "array a[1]; proc main(mut a) { let x = a; }",
        Some((Pass::Region, 3, 1)),
    ),
    (
        "array a[1]; proc f(mut x) { }\n proc main(mut a) { call f((a)); call f(1); }",
        Some((Pass::Region, 3, 2)),
    ),
    (
        "proc f(int x) { }\n proc main() {\n call f(); }",
        Some((Pass::Region, 4, 3)),
    ),
    (
        "array a[1]; proc main(ref a) { a[0] = 1; }",
        Some((Pass::Region, 5, 1)),
    ),
    (
        "array a[1];\n proc w(mut x) { x[0] = 1; }\n proc r(ref y) { let t = y[0]; }\n proc main(mut a) { fork w(a) and r(a); }",
        Some((Pass::Region, 6, 4)),
    ),
    (
        "array a[1];\n proc w(mut x) { x[0] = 1; }\n proc r(ref y) { let t = y[0]; }\n proc main(mut a) { fork r(a) and r(a); }",
        None,
    ),
    (
        "array a[1]; proc f(mut x, ref y) { } proc main(mut a) { call f(a, a); }",
        Some((Pass::Region, 6, 1)),
    ),
    (
        "array a[2]; proc main(mut a) { split a at 0 into l, r { a[0] = 1; } }",
        Some((Pass::Region, 7, 1)),
    ),
    (
        "array a[2]; proc main(mut a) { split a at 0 into l, r { l[0] = 1; } a[0] = 1; }",
        None,
    ),
    ("proc main() { give 1; }", Some((Pass::Region, 8, 1))),
    ("proc main(int n) { }", Some((Pass::Region, 8, 1))),
    (
        "array a[1]; input a = 1, 2; proc main() { }",
        Some((Pass::Region, 9, 1)),
    ),
    (
        "proc f() { }\n proc main() { let v = 0;\n v = call f(); }",
        Some((Pass::Region, 10, 3)),
    ),
    (
        "proc f() { give 1; } proc main() { let v = 0; fork v = f()\n and v = f(); }",
        Some((Pass::Region, 11, 2)),
    ),
    (
        "array a[5]; array b[5]; proc main(mut a, mut b) { each i, x in a { b[i] = 1; } }",
        Some((Pass::Region, 12, 1)),
    ),
    (
        "array a[5]; array b[5]; proc main(mut a, mut b) { each i, x in a {\n split b at 0 into l, r { l[0] = 1; } } }",
        Some((Pass::Region, 12, 2)),
    ),
    (
        "array a[5]; proc main(mut a) { let s = 0; each i, x in a { s = s + x[0]; } }",
        Some((Pass::Region, 13, 1)),
    ),
    // Bounds: 25 names in force, and 11 names of outside in the block of an `each`.
    (
        "proc main() { let a=0; let b=0; let c=0; let d=0; let e=0; let f=0; let g=0; let h=0; let i=0; let j=0; let k=0; let l=0; \
      let m=0; let n=0; let o=0; let p=0; let q=0; let r=0; let s=0; let t=0; let u=0; let v=0; let w=0; let x=0; }",
        None,
    ),
    (
        "proc main() { let a=0; let b=0; let c=0; let d=0; let e=0; let f=0; let g=0; let h=0; let i=0; let j=0; let k=0; let l=0; \
      let m=0; let n=0; let o=0; let p=0; let q=0; let r=0; let s=0; let t=0; let u=0; let v=0; let w=0; let x=0; let y=0; }",
        Some((Pass::Cut, 1, 0)),
    ),
    (
        "array z[1]; proc f() { } proc main(mut z) { let a=0; let b=0; let c=0; let d=0; let e=0; let f=0; let g=0; let h=0; let i=0; let j=0; \
      let k=0; each y, x in z { x[0] = a+b+c+d+e+f+g+h+i+j+k; } }",
        Some((Pass::Cut, 3, 1)),
    ),
];

#[test]
fn texts_are_answered(rt: HostRuntime) -> Result<(), Fail> {
    for (text, expected) in TEXTS {
        assert_eq!(rt; answer(rt.alloc(), text)?, expected, "{text}");
    }
    Ok(())
}

#[test]
fn laws_are_called(_rt: HostRuntime) {
    has_one_row();
    trees_are_within();
    keep_rules();
    have_one_fault();
    have_one_answer();
}
