// A text built piece by piece, and the same pieces written into a lent buffer. specs/Text.antt says what the pieces are.
#![tactic(auto)]

ghost use Rattle.std.specs.Prelude.{◌≡◌, [], ◌∷◌, ◌++◌, ◌+◌, ◌^◌, ◌≤◌, ◌<◌, length, take};
ghost use Rattle.std.specs.Borrow.{sem, Lends, Array, u8 as byte_row};
ghost use Rattle.text.specs.contracts.Text.{the_row};
ghost use Rattle.io.specs.Digits.{last_digits};
ghost use Rattle.refusal.specs.Numbers.{numbered};
ghost use Rattle.text.specs.Text.{decimal, field, last_field, signed_field, hex_bytes, word_text, location_fields, refused_line};

use record::Location;
use refusal::Refusal;
use std::marker::Model;

mod lent;

pub use lent::{put_byte, put_hex, put_hex_bytes, put_text};

// Room for the text of three buffers, each of one byte more than its limit.
pub const MOST: usize = 400_000;

// Room for the longest text that a program prints: a page, and one byte more.
pub const LONGEST: usize = 1_195_960;

// A text with room for what any program prints.
pub type Printed = Text<LONGEST>;

// The file descriptor of standard output.
pub const STDOUT: i32 = 1;

// A text of at most N bytes.
#[derive(Drop)]
pub struct Text<const N: usize> {
    bytes: [u8; N],
    len: usize,
}

impl<const N: usize> Model for Text<N> {
    ghost use Rattle.std.specs.Prelude.{List, ℕ, take, length, ◌≤◌};

    ghost Value = { List ℕ };

    ghost view = { λ t. take t.len t.bytes };

    ghost invariant = { λ t. t.len ≤ N };
}

impl<const N: usize> Text<N> {
    pub fn new() -> Self
        ensures { result ≡ [] }
    {
        Text {
            bytes: [0; N],
            len: 0,
        }
    }

    pub fn clear(&mut self)
        ensures { self.new ≡ [] }
    {
        self.len = 0;
    }

    pub fn as_bytes(&self) -> &[u8]
        ensures value { result.now ≡ self.now }
        ensures fits { length result.now ≤ N }
    {
        &self.bytes[..self.len]
    }

    // Lends the whole room. What is left in it is the text.
    pub fn whole(&mut self) -> &mut [u8; N]
        ensures* writes_back { sem 𝓛 (Lends (the_row N.row) (Array byte_row N) self.entry result (take N)) }
        ensures value { length result.now ≡ N }
    {
        self.len = N;
        &mut self.bytes
    }

    // Cuts the text after its first `len` bytes.
    pub fn truncate(&mut self, len: usize)
        requires { len ≤ length self.old }
        ensures { self.new ≡ take len self.old }
    {
        self.len = len;
    }

    pub fn push(&mut self, text: &[u8])
        requires { length self.old + length text.now ≤ N }
        ensures { self.new ≡ self.old ++ text.now }
    {
        let end = self.len + text.len();
        let room = &mut self.bytes[..];
        room[self.len..end].copy_from_slice(text);
        self.len = end;
    }

    pub fn push_byte(&mut self, byte: u8)
        requires { length self.old < N }
        ensures { self.new ≡ self.old ++ (byte ∷ []) }
    {
        self.bytes[self.len] = byte;
        self.len += 1;
    }

    // Appends `n` as `width` lower-case hexadecimal digits, with leading zeros.
    #[tactic(auto, using(crate::proofs::TextLaws::put_taken))]
    pub fn push_hex(&mut self, n: u32, width: usize)
        requires width_nonzero { (0 < width) × (width ≤ 8) × (n < 16 ^ width) }
        requires width_in_bounds { length self.old + width ≤ N }
        ensures { self.new ≡ self.old ++ last_digits 16 width n }
    {
        let end = lent::put_hex(&mut self.bytes, self.len, n, width);
        self.len = end;
    }

    // Appends each byte as two hexadecimal digits.
    #[tactic(auto, using(crate::proofs::TextLaws::put_taken))]
    pub fn push_hex_bytes(&mut self, bytes: &[u8])
        requires { length self.old + length (hex_bytes bytes.now) ≤ N }
        ensures { self.new ≡ self.old ++ hex_bytes bytes.now }
    {
        let end = lent::put_hex_bytes(&mut self.bytes, self.len, bytes);
        self.len = end;
    }

    // Appends a word of an image: the number's eight digits, or, for a shorter last word, its bytes in memory order.
    #[tactic(auto, using(crate::proofs::TextLaws::text_whole, crate::proofs::TextLaws::text_part, crate::proofs::TextLaws::text_length))]
    pub fn push_word(&mut self, bytes: &[u8])
        requires { length self.old + length (word_text bytes.now) ≤ N }
        ensures { self.new ≡ self.old ++ word_text bytes.now }
    {
        if bytes.len() == 4 {
            self.push_hex(record::word_at(bytes, 0), 8);
        } else {
            self.push_hex_bytes(bytes);
        }
    }

    #[tactic(auto, using(crate::proofs::TextLaws::decimal_made))]
    fn push_decimal(&mut self, n: u64)
        requires { length self.old + length (decimal n) ≤ N }
        ensures { self.new ≡ self.old ++ decimal n }
    {
        let mut text = [0u8; 20];
        let k = io::decimal(n, &mut text);
        self.push(&text[..k]);
    }

    // Appends a blank and a number.
    pub fn push_field(&mut self, n: u64)
        requires { length self.old + length (field n) ≤ N }
        ensures { self.new ≡ self.old ++ field n }
    {
        self.push_byte(b' ');
        self.push_decimal(n);
    }

    // Appends a line's last field and its newline.
    pub fn push_last_field(&mut self, n: u64)
        requires { length self.old + length (last_field n) ≤ N }
        ensures { self.new ≡ self.old ++ last_field n }
    {
        self.push_field(n);
        self.push_byte(b'\n');
    }

    // Appends a line of a name and a number.
    pub fn push_number_line(&mut self, name: &[u8], n: u64)
        requires { length self.old + length (name.now ++ last_field n) ≤ N }
        ensures { self.new ≡ self.old ++ (name.now ++ last_field n) }
    {
        self.push(name);
        self.push_last_field(n);
    }

    // Appends a blank and a number, with a minus if it is negative.
    #[tactic(auto, using(crate::proofs::TextLaws::positive_is, crate::proofs::TextLaws::negative_is, std::proofs::lemmas::Grind::common_steps))]
    fn push_signed_field(&mut self, n: i64)
        requires { length self.old + length (signed_field n) ≤ N }
        ensures { self.new ≡ self.old ++ signed_field n }
    {
        if n.is_negative() {
            self.push(b" -");
            self.push_decimal(n.unsigned_abs());
        } else {
            self.push_field(n.unsigned_abs());
        }
    }

    fn push_location(&mut self, location: Location)
        requires { length self.old + length (location_fields location) ≤ N }
        ensures { self.new ≡ self.old ++ location_fields location }
    {
        self.push_field(u64::from(location.source));
        self.push_field(u64::from(location.index));
    }

    // Appends the line of a refusal: "refused" and number, source, index, a, b.
    #[tactic(auto, using(crate::proofs::TextLaws::refused_length), unfolding(crate::specs::Text::refused_line))]
    pub fn push_refusal(&mut self, refusal: Refusal)
        requires { length self.old + length (refused_line (numbered refusal)) ≤ N }
        ensures { self.new ≡ self.old ++ refused_line (numbered refusal) }
    {
        let n = refusal::numbers(refusal);
        self.push(b"refused");
        self.push_field(u64::from(n.number));
        self.push_location(n.location);
        self.push_signed_field(n.a);
        self.push_last_field(u64::from(n.b));
    }
}
