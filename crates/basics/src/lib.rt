// Small functions, definitions and laws that several crates use and the kit's libraries lack.
#![tactic(auto)]

ghost use Rattle.std.specs.Prelude.{◌≡◌, ◌<◌, take};

// A number as a place or a position. Rust has no `From<u32>` for `usize`, and sums and products of such numbers are proved to fit by the bound.
pub fn wide(x: u32) -> usize
    ensures { (result ≡ x) × (result < 4294967296) }
{
    x as usize
}

// The first n items, where they stand; all where they are fewer.
pub fn first<T>(s: &[T], n: usize) -> &[T]
    ensures result_value { result.now ≡ take n s.now }
    ensures ref_ptr_value { (result.ref_ptr.0 ≡ s.entry.ref_ptr.0) × (result.ref_ptr.1 ≡ s.entry.ref_ptr.1) }
{
    &s[..n.min(s.len())]
}
