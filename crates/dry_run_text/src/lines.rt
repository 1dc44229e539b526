// Writes the lines of a dry run.
ghost use Rattle.std.specs.Prelude.{◌≡◌, ◌++◌, ◌+◌, ◌≤◌, length};
ghost use Rattle.dry_run_text.specs.Lines.{reason_line, hex_field, hex_fields, pc_line, registers_line};

use machine::Reason;
use text::Text;

#[tactic(auto, unfolding(crate::specs::Lines::reason_line))]
pub(crate) fn put_reason<const N: usize>(out: &mut Text<N>, reason: Reason)
    requires { length out.old + length (reason_line reason) ≤ N }
    ensures { out.new ≡ out.old ++ reason_line reason }
{
    match reason {
        Reason::Allowance => out.push(b"reason allowance\n"),
        Reason::Pc => out.push(b"reason pc\n"),
        Reason::Word => out.push(b"reason word\n"),
        Reason::Overflow => out.push(b"reason overflow\n"),
    }
}

// Writes a blank and eight hexadecimal digits.
fn put_hex_field<const N: usize>(out: &mut Text<N>, n: u32)
    requires { length out.old + length (hex_field n) ≤ N }
    ensures { out.new ≡ out.old ++ hex_field n }
{
    out.push_byte(b' ');
    out.push_hex(n, 8);
}

#[tactic(auto, using(crate::proofs::LinesLaws::fields_next, crate::proofs::LinesLaws::fields_end, std::proofs::lemmas::Grind::common_steps))]
fn put_hex_fields<const N: usize>(out: &mut Text<N>, numbers: &[u32])
    requires { length out.old + length (hex_fields numbers.now) ≤ N }
    ensures { out.new ≡ out.old ++ hex_fields numbers.now }
{
    for &number in numbers {
        put_hex_field(&mut *out, number);
    }
}

#[tactic(auto, using(crate::proofs::LinesLaws::pc_length, std::proofs::lemmas::Grind::common_steps), unfolding(crate::specs::Lines::pc_line))]
pub(crate) fn put_pc<const N: usize>(out: &mut Text<N>, pc: u32)
    requires { length out.old + length (pc_line pc) ≤ N }
    ensures { out.new ≡ out.old ++ pc_line pc }
{
    out.push(b"pc");
    put_hex_field(&mut *out, pc);
    out.push_byte(b'\n');
}

#[tactic(auto, using(crate::proofs::LinesLaws::registers_length, crate::proofs::LinesLaws::fields_length, std::proofs::lemmas::Grind::common_steps), unfolding(crate::specs::Lines::registers_line))]
pub(crate) fn put_registers<const N: usize>(out: &mut Text<N>, registers: &[u32])
    requires { length out.old + length (registers_line registers.now) ≤ N }
    ensures { out.new ≡ out.old ++ registers_line registers.now }
{
    out.push(b"registers");
    put_hex_fields(&mut *out, registers);
    out.push_byte(b'\n');
}
