// What a word does.
ghost use Rattle.std.specs.Prelude.{◌≡◌, ◌<◌, Bool};
ghost use Rattle.machine.specs.Instructions.{instruction_of};
ghost use Rattle.machine.specs.Effects.{next_pc, branch_target, jump_target, branch_if, effect_of};

use crate::{Effect, Instruction, numbers, words};

// What the registers rs and rt hold.
#[derive(Clone, Copy)]
pub struct Operands {
    pub s: u32,
    pub t: u32,
}

// Returns the pc of the next word.
pub fn next_pc(pc: u32) -> u32
    ensures { result ≡ next_pc pc }
{
    pc.wrapping_add(4)
}

fn branch_if(taken: bool, pc: u32, word: u32) -> Effect
    ensures { result ≡ branch_if taken pc word }
{
    let next = next_pc(pc);
    if taken {
        let distance = numbers::signed16(words::field(word, 0, 16)).wrapping_mul(4);
        Effect::Go(next.wrapping_add(distance))
    } else {
        Effect::Go(next)
    }
}

fn jump_target(pc: u32, word: u32) -> u32
    ensures { result ≡ jump_target pc word }
{
    (next_pc(pc) >> 28 << 28) + (words::field(word, 0, 26) << 2)
}

// Returns what the word at pc does.
#[tactic(auto, unfolding(crate::specs::Effects::effect_of))]
pub fn effect(word: u32, pc: u32, operands: Operands) -> Effect
    ensures { result ≡ effect_of (instruction_of word) word pc operands.s operands.t }
{
    let Operands { s, t } = operands;
    let n = words::field(word, 0, 16);
    let m = numbers::signed16(n);
    match words::decode(word) {
        Instruction::Nop => Effect::Go(next_pc(pc)),
        Instruction::Addiu => Effect::SetRt(s.wrapping_add(m)),
        Instruction::Addi => numbers::sum(s, m).map_or(Effect::Overflows, Effect::SetRt),
        Instruction::Add => numbers::sum(s, t).map_or(Effect::Overflows, Effect::SetRd),
        Instruction::Addu => Effect::SetRd(s.wrapping_add(t)),
        Instruction::Sub => numbers::difference(s, t).map_or(Effect::Overflows, Effect::SetRd),
        Instruction::Subu => Effect::SetRd(s.wrapping_sub(t)),
        Instruction::Slt => Effect::SetRd(u32::from(s.cast_signed() < t.cast_signed())),
        Instruction::Sltu => Effect::SetRd(u32::from(s < t)),
        Instruction::Ori => Effect::SetRt(s | n),
        Instruction::Xori => Effect::SetRt(s ^ n),
        Instruction::Xor => Effect::SetRd(s ^ t),
        Instruction::Nor => Effect::SetRd(!(s | t)),
        Instruction::Lui => Effect::SetRt(n << 16),
        Instruction::Sra => Effect::SetRd(numbers::shift_right(t, words::field(word, 6, 5))),
        Instruction::Beq => branch_if(s == t, pc, word),
        Instruction::Bne => branch_if(s != t, pc, word),
        Instruction::J => Effect::Go(jump_target(pc, word)),
        Instruction::Other => Effect::Unknown,
    }
}
