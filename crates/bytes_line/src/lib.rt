// Appends to a text the line of a buffer: its name, and all its bytes in hexadecimal.
#![tactic(auto)]

ghost use Rattle.std.specs.Prelude.{◌≡◌, ◌++◌, ◌+◌, ◌≤◌, length};
ghost use Rattle.bytes_line.specs.BytesLine.{bytes_line};

use text::Text;

// Appends the line of a buffer. Its name comes with the blank after it.
#[tactic(auto, unfolding(crate::specs::BytesLine::bytes_line))]
pub fn push_bytes<const N: usize>(out: &mut Text<N>, name: &[u8], bytes: &[u8])
    requires { length out.old + length (bytes_line name.now bytes.now) ≤ N }
    ensures { out.new ≡ out.old ++ bytes_line name.now bytes.now }
{
    out.push(name);
    out.push_hex_bytes(bytes);
    out.push_byte(b'\n');
}
