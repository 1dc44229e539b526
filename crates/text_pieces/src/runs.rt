// Reads what a text begins with: letters and digits, printable bytes, or a number.
ghost use Rattle.std.specs.Prelude.{◌≡◌, ◌<◌, ◌≤◌, length};
ghost use Rattle.byte_class.specs.Class.{word_byte};
ghost use Rattle.text_pieces.specs.Leading.{leading, plain};
ghost use Rattle.text_pieces.specs.Numbers.{number_in};

use byte_class::ByteClasses;

// Returns how many letters and digits the text begins with.
pub fn word_len(classes: &ByteClasses, text: &[u8]) -> usize
    ensures { (result ≡ length (leading word_byte text.now)) × (result ≤ length text.now) }
{
    text.iter()
        .position(|byte| !classes.is_word_byte(*byte))
        .unwrap_or(text.len())
}

// Returns how many bytes the text begins with that are 0x20 to 0x7E and not `end`.
pub fn text_len(text: &[u8], end: u8) -> usize
    ensures { (result ≡ length (leading (plain end) text.now)) × (result ≤ length text.now) }
{
    text.iter()
        .position(|byte| !((0x20..=0x7e).contains(byte) && *byte != end))
        .unwrap_or(text.len())
}

// Reads the digits below `base` that the text begins with. Returns their value and how many they are; none if the value is over 64 bits.
pub fn number_in(text: &[u8], base: u64) -> Option<(u64, usize)>
    requires { (1 < base) × (base ≤ 16) }
    ensures { result ≡ number_in base text.now }
{
    let mut value: u64 = 0;
    for (i, byte) in text.iter().enumerate() {
        let Some(digit) = char::from(*byte).to_digit(base as u32) else {
            return Some((value, i));
        };
        value = value.checked_mul(base)?.checked_add(u64::from(digit))?;
    }
    Some((value, text.len()))
}
