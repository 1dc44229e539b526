// Swaps the two parts of a list of bytes in place.
#![tactic(auto)]

ghost use Rattle.std.specs.Prelude.{◌≡◌, ◌≤◌, ◌+◌, ◌++◌, length, take, drop};

// Moves the bytes from `m` on to the front; the first `m` bytes follow them.
pub fn exchange(d: &mut [u8], m: usize)
    requires { m ≤ length d.old }
    ensures { d.new ≡ drop m d.old ++ take m d.old }
{
    d[..m].reverse();
    d[m..].reverse();
    d.reverse();
}
