//! More texts of each kind: what is right beside what is wrong, and the least number before the
//! first line.
use crate::program::{Answer, answer};
use ppm_answers::Pass;
use std::test::Fail;

/// Texts with their answers.
const TEXTS: [(&str, Answer); 40] = [
    (
        "array main[1]; input main = 1; proc main(mut main) { }",
        None,
    ),
    (
        "array a[2]; array b[2]; proc main(mut a) { if 1 { let x = 1; } let x = 2; if 1 { let y = x; } else { let y = 1; } }",
        None,
    ),
    (
        "proc f() { give 1; } proc main() { let v = 0; let w = 0; fork v = f() and w = f(); }",
        None,
    ),
    (
        "array a[2]; array b[2]; input a = -1, 9223372036854775807; proc main() { }",
        None,
    ),
    (
        "array a[2]; array b[2]; proc f(ref x, ref y, int n) { } proc main(ref a) { call f(a, a, a[0]); }",
        None,
    ),
    (
        "array a[2]; array b[2]; proc f(mut x, int n) { } proc main(mut a) { call f(a, a[0]); each i, x in a { let j = i; j = j + 1; x[0] = j; } }",
        None,
    ),
    (
        "array a[1]; proc fib(int n) { let r = n; if n > 1 { let x = 0; let y = 0; fork x = fib(n - 1) and y = fib(n - 2); r = x + y; } give r; } \
      proc main(mut a) { let v = 0; v = call fib(10); a[0] = v; }",
        None,
    ),
    (
        "array a[1]; proc fib(int n) { let r = n; if n > 1 { let x = 0; let y = 0; fork x = fib(n - 1) and y = fib(n - 2); r = x + y; } } \
      proc main(mut a) { let v = 0; v = call fib(10); a[0] = v; }",
        Some((Pass::Region, 10, 1)),
    ),
    ("array a[2];", Some((Pass::Region, 8, 0))),
    ("array a[2]; ", Some((Pass::Region, 8, 0))),
    (
        "array a[2]; proc main(mut a) { a[0] = 5; a[1] = a[0] + 2; ",
        Some((Pass::Syntax, 2, 58)),
    ),
    ("input a = ;", Some((Pass::Syntax, 1, 10))),
    ("proc main() { a[0 = 1; }", Some((Pass::Syntax, 1, 18))),
    (
        "proc main() { if 1 { let x = 1; } let y = x; }",
        Some((Pass::Region, 1, 1)),
    ),
    (
        "array a[1]; proc main(mut a) { split a at 0 into l, r { } l[0] = 1; }",
        Some((Pass::Region, 1, 1)),
    ),
    (
        "array a[1]; proc f() { let x = a[0]; } proc main(mut a) { }",
        Some((Pass::Region, 1, 1)),
    ),
    (
        "array a[1];\n input a = 1;\n input a = 1; proc main() { }",
        Some((Pass::Region, 2, 3)),
    ),
    (
        "proc main() { }\n proc main() { }",
        Some((Pass::Region, 2, 2)),
    ),
    (
        "array a[1]; proc main(mut a) { let l = 1;\n split a at 0 into l, r { } }",
        Some((Pass::Region, 2, 2)),
    ),
    (
        "array a[1]; proc main(mut a) {\n each i, i in a { } }",
        Some((Pass::Region, 2, 2)),
    ),
    (
        "proc f(int x,\n int x) { } proc main() { }",
        Some((Pass::Region, 2, 2)),
    ),
    (
        "array a[1]; proc f(mut x) { } proc main() { let v = 1;\n call f(v); }",
        Some((Pass::Region, 3, 2)),
    ),
    (
        "array a[1]; proc f(mut x) { } proc main(mut a) { call f(\n(\na[0])); }",
        Some((Pass::Region, 3, 2)),
    ),
    (
        "array a[1]; proc main(mut a) {\n a = 1; }",
        Some((Pass::Region, 3, 2)),
    ),
    (
        "proc main() { let v = 1;\n v[0] = 1; }",
        Some((Pass::Region, 3, 2)),
    ),
    (
        "array a[1]; proc f(mut x) { } proc main(mut a) {\n call f(1, 2); }",
        Some((Pass::Region, 3, 2)),
    ),
    (
        "array a[1]; proc f() { } proc main(mut a) { call f(a);\n call f(a + 1); }",
        Some((Pass::Region, 3, 2)),
    ),
    (
        "array a[1]; proc f() { } proc main(mut a) {\n call f(a); }",
        Some((Pass::Region, 4, 2)),
    ),
    (
        "array a[1]; proc f(mut x) { } proc main(ref a) {\n call f(a); }",
        Some((Pass::Region, 5, 2)),
    ),
    (
        "array a[2]; proc main(ref a) { split a at 1 into l, r {\n l[0] = 1; } }",
        Some((Pass::Region, 5, 2)),
    ),
    (
        "array a[1]; proc f(mut x, mut y) { } proc main(mut a) {\n call f(a,\n a); }",
        Some((Pass::Region, 6, 3)),
    ),
    (
        "array a[1]; proc main(mut a) { split a at 0 into l, r {\n let x = len a; } }",
        Some((Pass::Region, 7, 2)),
    ),
    (
        "array a[1]; proc f(ref x) { } proc main(mut a) { each i, x in a {\n call f(a); } }",
        Some((Pass::Region, 7, 2)),
    ),
    (
        "array a[1]; proc main(mut a) { split a at 0 into l, r {\n each i, x in a { } } }",
        Some((Pass::Region, 7, 2)),
    ),
    ("proc main(mut a) { }", Some((Pass::Region, 8, 1))),
    ("input a = 1; proc main() { }", Some((Pass::Region, 9, 1))),
    (
        "array a[1]; array b[1]; proc f(mut x) { } proc main(mut a, mut b) { each i, x in a {\n call f(b); } }",
        Some((Pass::Region, 12, 2)),
    ),
    (
        "array a[1]; proc main(mut a) { each i, x in a {\n i = 1; } }",
        Some((Pass::Region, 13, 2)),
    ),
    (
        "array a[1]; proc f() { give 1; } proc main(mut a) { let v = 0; each i, x in a {\n v = call f(); } }",
        Some((Pass::Region, 13, 2)),
    ),
    (
        "array a[1]; proc main(ref a) { a[0] = 1;\n x = 1; }",
        Some((Pass::Region, 1, 2)),
    ),
];

#[test]
fn texts_with_one_fault_or_several_are_answered(rt: HostRuntime) -> Result<(), Fail> {
    for (text, expected) in TEXTS {
        assert_eq!(rt; answer(rt.alloc(), text)?, expected, "{text}");
    }
    Ok(())
}
