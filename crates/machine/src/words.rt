// The fields of a word, and which instruction it is.
ghost use Rattle.std.specs.Prelude.{◌≡◌, ◌^◌, ◌<◌};
ghost use Rattle.field.specs.Field.{get_field};
ghost use Rattle.machine.specs.Instructions.{opcode, rs, rt, rd, instruction_of};
ghost use Rattle.machine.specs.Instructions.{with_zero};

use crate::Instruction;

// Returns `width` bits of a word, from bit `offset` up.
pub(crate) fn field(word: u32, offset: u32, width: u32) -> u32
    requires { (offset < 32) × (width < 32) }
    ensures { (result ≡ get_field word offset width) × (result < 2 ^ width) }
{
    (word >> offset) % (1 << width)
}

// The numbers of a word's registers.
// kept: three functions; the manual names three fields, and so do specs/Instructions.antt and the steps that read them.
pub fn rs(word: u32) -> usize
    ensures { (result ≡ rs word) × (result < 32) }
{
    field(word, 21, 5) as usize
}

pub fn rt(word: u32) -> usize
    ensures { (result ≡ rt word) × (result < 32) }
{
    field(word, 16, 5) as usize
}

pub fn rd(word: u32) -> usize
    ensures { (result ≡ rd word) × (result < 32) }
{
    field(word, 11, 5) as usize
}

// Returns the instruction if the field that the manual wants zero is zero, else Other.
fn with_zero(field: u32, instruction: Instruction) -> Instruction
    ensures { result ≡ with_zero field instruction }
{
    if field == 0 {
        instruction
    } else {
        Instruction::Other
    }
}

// Decodes a word with opcode 0.
#[tactic(auto, unfolding(crate::specs::Instructions::table, crate::specs::Instructions::instruction_of))]
fn special(word: u32) -> Instruction
    requires { opcode word ≡ 0 }
    ensures { result ≡ instruction_of word }
{
    if word == 0 {
        return Instruction::Nop;
    }
    let sa = field(word, 6, 5);
    match field(word, 0, 6) {
        3 => with_zero(field(word, 21, 5), Instruction::Sra),
        32 => with_zero(sa, Instruction::Add),
        33 => with_zero(sa, Instruction::Addu),
        34 => with_zero(sa, Instruction::Sub),
        35 => with_zero(sa, Instruction::Subu),
        38 => with_zero(sa, Instruction::Xor),
        39 => with_zero(sa, Instruction::Nor),
        42 => with_zero(sa, Instruction::Slt),
        43 => with_zero(sa, Instruction::Sltu),
        _ => Instruction::Other,
    }
}

#[tactic(auto, using(crate::proofs::InstructionsLaws::not_nop), unfolding(crate::specs::Instructions::table, crate::specs::Instructions::instruction_of))]
pub(crate) fn decode(word: u32) -> Instruction
    ensures { result ≡ instruction_of word }
{
    match field(word, 26, 6) {
        0 => special(word),
        2 => Instruction::J,
        4 => Instruction::Beq,
        5 => Instruction::Bne,
        8 => Instruction::Addi,
        9 => Instruction::Addiu,
        13 => Instruction::Ori,
        14 => Instruction::Xori,
        15 => with_zero(field(word, 21, 5), Instruction::Lui),
        _ => Instruction::Other,
    }
}
