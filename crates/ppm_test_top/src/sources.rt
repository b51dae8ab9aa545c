//! Sources that are run.

/// A source that ends with `a 5 7`.
pub(crate) const FIRST: &str = "array a[2]; proc main(mut a) { a[0] = 5; a[1] = a[0] + 2; }";

/// A sum by halves.
pub(crate) const SUM: &str =
    "array a[4]; input a = 1, 2, 3, 4;\nproc sum(mut a) { if len a > 1 { split a at len a / 2 into l, r { fork sum(l) and sum(r); \
      l[0] = l[0] + r[0]; } } }\nproc main(mut a) { call sum(a); }";
