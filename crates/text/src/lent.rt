// Writes pieces of text into a lent buffer at `at`. Each function returns where its piece ends.
// kept: a page is laid out in the buffer that the C interface lends to `lay_out`.
ghost use Rattle.std.specs.Prelude.{[], ◌∷◌, ◌+◌, ◌^◌, ◌≤◌, ◌<◌, length};
ghost use Rattle.io.specs.Digits.{last_digits};
ghost use Rattle.text.specs.Text.{Put, hex_bytes};

pub fn put_text(out: &mut [u8], at: usize, text: &[u8]) -> usize
    requires { at + length text.now ≤ length out.old }
    ensures { Put out.old at text.now out.new result }
{
    record::put_all(out, at, text);
    at + text.len()
}

pub fn put_byte(out: &mut [u8], at: usize, byte: u8) -> usize
    requires { at < length out.old }
    ensures { Put out.old at (byte ∷ []) out.new result }
{
    out[at] = byte;
    at + 1
}

// Writes `n` as `width` lower-case hexadecimal digits, with leading zeros.
pub fn put_hex(out: &mut [u8], at: usize, n: u32, width: usize) -> usize
    requires width_nonzero { (0 < width) × (width ≤ 8) × (n < 16 ^ width) }
    requires width_in_bounds { at + width ≤ length out.old }
    ensures { Put out.old at (last_digits 16 width n) out.new result }
{
    let mut text = [0u8; 16];
    let k = io::hex(u64::from(n), width, &mut text);
    put_text(out, at, &text[..k])
}

// Writes each byte as two hexadecimal digits.
pub fn put_hex_bytes(out: &mut [u8], at: usize, bytes: &[u8]) -> usize
    requires { at + length (hex_bytes bytes.now) ≤ length out.old }
    ensures { Put out.old at (hex_bytes bytes.now) out.new result }
{
    let mut end = at;
    for &byte in bytes {
        end = put_hex(&mut *out, end, u32::from(byte), 2);
    }
    end
}
