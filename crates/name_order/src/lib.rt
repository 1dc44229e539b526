// Compares names by their bytes.
#![tactic(auto)]

ghost use Rattle.std.specs.Prelude.{◌≡◌};
ghost use Rattle.name_order.specs.Order.{order};
ghost use Rattle.name_order.specs.EightBytes.{high_first, Bytes};

use std::cmp::Ordering;

// Returns eight bytes as a number, the first byte highest.
fn high_first(s: &[u8; 8]) -> u64
    ensures { (result ≡ high_first s.now 0) × Bytes s.now 0 }
{
    u64::from_be_bytes(*s)
}

// Compares two names by the first byte in which they differ; a prefix goes first. Reads eight bytes at a time, as names often begin alike.
pub fn compare(a: &[u8], b: &[u8]) -> Ordering
    ensures { result ≡ order a.now b.now }
{
    let (mut a, mut b) = (a, b);
    while let (Some((x, a_rest)), Some((y, b_rest))) = (
        a.split_first_chunk(),
        b.split_first_chunk(),
    ) {
        let found = high_first(x).cmp(&high_first(y));
        if found.is_ne() {
            return found;
        }
        a = a_rest;
        b = b_rest;
    }
    a.cmp(b)
}
