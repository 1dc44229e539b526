// The lines of an image.
ghost use Rattle.std.specs.Prelude.{◌≡◌, ◌++◌, ◌+◌, ◌≤◌, length};
ghost use Rattle.text.specs.Text.{word_text};
ghost use Rattle.image_text.specs.Image.{entry_line, region_line, word_line};

use text::Text;

#[tactic(auto, using(crate::proofs::ImageLaws::entry_length, std::proofs::lemmas::Grind::common_steps), unfolding(crate::specs::Image::entry_line))]
pub(crate) fn put_entry<const N: usize>(out: &mut Text<N>, entry: u32)
    requires { length out.old + length (entry_line entry) ≤ N }
    ensures { out.new ≡ out.old ++ entry_line entry }
{
    out.push(b"entry ");
    out.push_hex(entry, 8);
    out.push_byte(b'\n');
}

#[tactic(auto, using(crate::proofs::ImageLaws::region_length), unfolding(crate::specs::Image::region_line))]
pub(crate) fn put_region_line<const N: usize>(out: &mut Text<N>, number: u64, address: u32)
    requires { length out.old + length (region_line number address) ≤ N }
    ensures { out.new ≡ out.old ++ region_line number address }
{
    out.push(b"region");
    out.push_field(number);
    out.push_byte(b' ');
    out.push_hex(address, 8);
    out.push_byte(b'\n');
}

// Appends the line of a word, or of a shorter last word.
#[tactic(auto, using(crate::proofs::ImageLaws::word_length), unfolding(crate::specs::Image::word_line))]
pub(crate) fn put_row<const N: usize>(out: &mut Text<N>, pc: u32, bytes: &[u8])
    requires { length out.old + length (word_line pc (word_text bytes.now)) ≤ N }
    ensures { out.new ≡ out.old ++ word_line pc (word_text bytes.now) }
{
    out.push_hex(pc, 8);
    out.push_byte(b' ');
    out.push_word(bytes);
    out.push_byte(b'\n');
}
