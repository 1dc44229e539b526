// What `dry_run` does (document 02, P10), from its input bytes to the bytes that it prints.
#![tactic(auto)]

ghost use Rattle.std.specs.Prelude.{◌≡◌, ◌++◌, ◌+◌, ◌≤◌, length};
ghost use Rattle.std.proofs.Common.{rules};
ghost use Rattle.dry_run_text.specs.Lines.{run_text, machine_in, dry_run_text};

use dry_run_outcome::Stopped;
use machine::{Machine, Reason};
use program::TextProgram;
use text::{MOST, Text};

mod lines;

// Reads the machine from the numbers that follow the regions.
fn machine_in(numbers: &[u8]) -> Machine
    ensures { result ≡ machine_in numbers.now }
{
    Machine {
        pc: input::word_or_zero(numbers, 128),
        registers: input::registers_in(numbers),
    }
}

// Writes the four lines of a run.
#[tactic(auto, using(std::proofs::lemmas::Grind::common_steps))]
fn put_run<const N: usize>(out: &mut Text<N>, reason: Reason, steps: u32, machine: Machine)
    requires { length out.old + length (run_text reason steps machine) ≤ N }
    ensures { out.new ≡ out.old ++ run_text reason steps machine }
{
    lines::put_reason(&mut *out, reason);
    out.push_number_line(b"steps", u64::from(steps));
    lines::put_pc(&mut *out, machine.pc);
    lines::put_registers(out, &machine.registers);
}

// Writes what `dry_run` prints for an input: the run's lines, or the refusal alone.
#[tactic(auto, using(text::proofs::TextLaws::refused_most, crate::proofs::LinesLaws::run_most), unfolding(crate::specs::Lines::dry_run_text))]
pub fn dry_run(input: &[u8], out: &mut Text<MOST>)
    ensures { out.new ≡ dry_run_text input.now }
{
    let numbers = input::behind_lists(input, 1);
    let machine = machine_in(numbers);
    let allowance = input::word_or_zero(numbers, 132);
    let run = dry_run_core::dry_run(input::list_of(input, 0), machine, allowance);
    out.clear();
    match run.answer {
        Ok(Stopped { reason, steps }) => put_run(out, reason, steps, run.machine),
        Err(refusal) => out.push_refusal(refusal),
    }
}

// `dry_run` as a program.
pub struct DryRunText;

impl TextProgram<MOST> for DryRunText {
    ghost text_of = { dry_run_text };

    fn print_text(&self, input: &[u8], out: &mut Text<MOST>) {
        dry_run(input, out);
    }

    ghost fits = { Prim.search rules };
}
