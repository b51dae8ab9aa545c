//! Parts of slices, and bytes compared.
ghost use Rattle.std.specs.Prelude.{◌≡◌, ◌≤◌, length, drop};
ghost use Rattle.std.specs.Str.{bytes_eq};

/// Whether the bytes are the same.
pub fn same_bytes(a: &[u8], b: &[u8]) -> bool
    ensures { result ≡ bytes_eq a.now b.now }
{
    a == b
}

/// What stands after the first n.
#[tactic(auto, using(std::proofs::lemmas::List::take_rest))]
pub fn behind<T>(items: &[T], n: usize) -> &[T]
    requires { n ≤ length items.now }
    ensures { result.now ≡ drop n items.now }
{
    &items[n..]
}
