// A dry run as a linked call: the registers go back into their buffer, the answer as six words into its own.
#![tactic(auto)]

ghost use Rattle.std.specs.Prelude.{◌≡◌, ◌≤◌, length};
ghost use Rattle.linked_dry_run.specs.LinkedDryRun.{run_words, register_bytes, registers_after, linked_dry_run};

use dry_run_outcome::{RunAnswer, Stopped};
use linked_answer::{ANSWER_BYTES, TOO_SHORT};
use machine::Machine;

// The 32 registers, each four bytes.
const REGISTER_BYTES: usize = 128;

// Returns the answer's words: the run's reason, steps and pc, or the refusal and the pc that was given.
fn run_words(answer: RunAnswer, pc: u32) -> [u32; 6]
    ensures { result ≡ run_words answer pc }
{
    match answer {
        Ok(Stopped { reason, steps }) => [0, 0, 0, reason as u32, steps, pc],
        Err(refusal) => linked_answer::refusal_words(refusal, pc),
    }
}

// Writes the registers that a run leaves; a refused run writes none.
fn put_registers(registers: &mut [u8], answer: RunAnswer, machine: Machine)
    requires { register_bytes ≤ length registers.old }
    ensures { registers.new ≡ registers_after answer machine registers.old }
{
    linked_answer::store_accepted(registers, &answer, &machine.registers[..]);
}

// Dry-runs the image or refuses, writes the answer and returns its number: 0 for a run.
// If the answer or register buffer is too short, it returns TOO_SHORT and changes nothing.
pub fn dry_run(
    regions: &[u8],
    registers: &mut [u8],
    pc: u32,
    allowance: u32,
    answer: &mut [u8],
) -> u32
    ensures { linked_dry_run regions.now registers.old pc allowance answer.old
        ≡ (record { result = result; registers = registers.new; answer = answer.new }) }
{
    if answer.len() < ANSWER_BYTES || registers.len() < REGISTER_BYTES {
        return TOO_SHORT;
    }
    let held = input::registers_in(&*registers);
    let machine = Machine {
        pc,
        registers: held,
    };
    let run = dry_run_core::dry_run(regions, machine, allowance);
    let given = run.answer;
    let left = run.machine;
    let words = run_words(given, left.pc);
    put_registers(registers, given, left);
    linked_answer::store_answer(answer, words)
}
