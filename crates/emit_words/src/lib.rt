// Builds the word of each layout (emit.rs): one function each.
#![tactic(auto)]

ghost use Rattle.std.specs.Prelude.{◌≡◌, ◌<◌};
ghost use Rattle.registers.specs.Numbers.{register_number, fp_register_number};
ghost use Rattle.emit_words.specs.Words.{base_word, source_word, destination_word, inputs_word, register_word, sham_word, immediate_word, load_immediate_word, fp3_word, fp2_word, fp_move_word, fp_cond_word, fp_cross_move_word, fp_branch_word, code_bits};
ghost use Rattle.jobs.specs.Jobs.{abs_first_word};

use instructions::Opcode;
use jobs::{Format, Job};
use registers::{FPRegisterSlot, RegisterSlot};
use word::InstructionBuilder;

// What goes into a word besides its opcode: rd, rs and rt of the register format.
#[derive(Clone, Copy)]
pub struct RegisterFields {
    pub dest: RegisterSlot,
    pub source: RegisterSlot,
    pub temp: RegisterSlot,
}

// rd, rt and the shift amount.
#[derive(Clone, Copy)]
pub struct ShamFields {
    pub dest: RegisterSlot,
    pub temp: RegisterSlot,
    pub sham: u8,
}

// rs, rt and immediate of the immediate format.
#[derive(Clone, Copy)]
pub struct ImmediateFields {
    pub source: RegisterSlot,
    pub temp: RegisterSlot,
    pub immediate: u16,
}

// base, ft and offset of a float load or store.
#[derive(Clone, Copy)]
pub struct FPImmediateFields {
    pub source: RegisterSlot,
    pub temp: FPRegisterSlot,
    pub immediate: u16,
}

// fd, fs and ft.
#[derive(Clone, Copy)]
pub struct FP3Fields {
    pub dest: FPRegisterSlot,
    pub source: FPRegisterSlot,
    pub temp: FPRegisterSlot,
}

// fd and fs.
#[derive(Clone, Copy)]
pub struct FP2Fields {
    pub dest: FPRegisterSlot,
    pub source: FPRegisterSlot,
}

// fd, fs, cc and tf of a conditional move.
#[derive(Clone, Copy)]
pub struct FPMoveFields {
    pub dest: FPRegisterSlot,
    pub source: FPRegisterSlot,
    pub code: u64,
    pub flag: bool,
}

// cc, fs and ft of a comparison.
#[derive(Clone, Copy)]
pub struct FPCondFields {
    pub code: u64,
    pub source: FPRegisterSlot,
    pub target: FPRegisterSlot,
}

pub fn base_word(op: Opcode) -> u32
    ensures { result ≡ base_word op }
{
    InstructionBuilder::from_op(op).finish()
}

pub fn source_word(op: Opcode, source: RegisterSlot) -> u32
    ensures { result ≡ source_word op (register_number source) }
{
    InstructionBuilder::from_op(op).with_source(source).finish()
}

pub fn destination_word(op: Opcode, dest: RegisterSlot) -> u32
    ensures { result ≡ destination_word op (register_number dest) }
{
    InstructionBuilder::from_op(op).with_dest(dest).finish()
}

pub fn inputs_word(op: Opcode, source: RegisterSlot, temp: RegisterSlot) -> u32
    ensures { result ≡ inputs_word op (register_number source) (register_number temp) }
{
    let base = InstructionBuilder::from_op(op);
    base.with_source(source).with_temp(temp).finish()
}

pub fn register_word(op: Opcode, fields: RegisterFields) -> u32
    ensures { result ≡ register_word op (register_number fields.dest) (register_number fields.source) (register_number fields.temp) }
{
    InstructionBuilder::from_op(op)
        .with_dest(fields.dest)
        .with_source(fields.source)
        .with_temp(fields.temp)
        .finish()
}

pub fn sham_word(op: Opcode, fields: ShamFields) -> u32
    ensures { result ≡ sham_word op (register_number fields.dest) (register_number fields.temp) fields.sham }
{
    InstructionBuilder::from_op(op)
        .with_dest(fields.dest)
        .with_temp(fields.temp)
        .with_sham(fields.sham)
        .finish()
}

pub fn immediate_word(op: Opcode, fields: ImmediateFields) -> u32
    ensures { result ≡ immediate_word op (register_number fields.source) (register_number fields.temp) fields.immediate }
{
    InstructionBuilder::from_op(op)
        .with_source(fields.source)
        .with_temp(fields.temp)
        .with_immediate(fields.immediate)
        .finish()
}

// As `immediate_word`, with a float register in rt. Separate, as in the Rust: the builder has other methods for float registers.
pub fn fp_immediate_word(op: Opcode, fields: FPImmediateFields) -> u32
    ensures { result ≡ immediate_word op (register_number fields.source) (fp_register_number fields.temp) fields.immediate }
{
    InstructionBuilder::from_op(op)
        .with_source(fields.source)
        .with_fp_temp(fields.temp)
        .with_immediate(fields.immediate)
        .finish()
}

pub fn load_immediate_word(op: Opcode, temp: RegisterSlot, imm: u16) -> u32
    ensures { result ≡ load_immediate_word op (register_number temp) imm }
{
    InstructionBuilder::from_op(op)
        .with_temp(temp)
        .with_immediate(imm)
        .finish()
}

pub fn fp_3_register_word(op: Opcode, fmt: Format, fields: FP3Fields) -> u32
    ensures { result ≡ fp3_word op fmt (fp_register_number fields.dest) (fp_register_number fields.source) (fp_register_number fields.temp) }
{
    InstructionBuilder::from_op(op)
        .with_fp_dest(fields.dest)
        .with_fp_source(fields.source)
        .with_fp_temp(fields.temp)
        .with_fp_fmt(fmt)
        .finish()
}

pub fn fp_2_register_word(op: Opcode, fmt: Format, fields: FP2Fields) -> u32
    ensures { result ≡ fp2_word op fmt (fp_register_number fields.dest) (fp_register_number fields.source) }
{
    InstructionBuilder::from_op(op)
        .with_fp_dest(fields.dest)
        .with_fp_source(fields.source)
        .with_fp_fmt(fmt)
        .finish()
}

// Returns the condition code times 4, with the flag in bit 0. Bits that do not fit the byte are lost.
// kept: here and below the flag is a bit of the word; it does not choose what a function does.
fn code_bits(code: u64, flag: bool) -> u8
    ensures { result ≡ code_bits code flag }
{
    (code % 64 * 4) as u8 + u8::from(flag)
}

pub fn fp_move_word(op: Opcode, fmt: Format, fields: FPMoveFields) -> u32
    ensures { result ≡ fp_move_word op fmt (fp_register_number fields.dest) (fp_register_number fields.source) fields.code fields.flag }
{
    InstructionBuilder::from_op(op)
        .with_fp_dest(fields.dest)
        .with_fp_source(fields.source)
        .with_fp_temp_value(code_bits(fields.code, fields.flag))
        .with_fp_fmt(fmt)
        .finish()
}

pub fn fp_cond_word(op: Opcode, fmt: Format, fields: FPCondFields) -> u32
    ensures { result ≡ fp_cond_word op fmt fields.code (fp_register_number fields.source) (fp_register_number fields.target) }
{
    InstructionBuilder::from_op(op)
        .with_fp_dest_value(code_bits(fields.code, false))
        .with_fp_source(fields.source)
        .with_fp_temp(fields.target)
        .with_fp_fmt(fmt)
        .finish()
}

// Returns a move between a general and a float register: the line's first register goes into rt, its second into fs. They are plain numbers,
// as either may be the general one.
pub fn fp_cross_move_word(op: Opcode, first: u8, second: u8) -> u32
    requires { (first < 32) × (second < 32) }
    ensures { result ≡ fp_cross_move_word op first second }
{
    InstructionBuilder::from_op(op)
        .with_fp_temp_value(first)
        .with_fp_source_value(second)
        .finish()
}

pub fn fp_branch_word(op: Opcode, code: u64, flag: bool) -> u32
    ensures { result ≡ fp_branch_word op code flag }
{
    InstructionBuilder::from_op(op)
        .with_fp_temp_value(code_bits(code, flag))
        .finish()
}

// Returns abs's first word, `sra $at, source, 31`. The commit writes 31 as an immediate, over rd, sa and function.
pub fn abs_first_word(job: Job, source: RegisterSlot) -> u32
    ensures { result ≡ abs_first_word job (register_number source) }
{
    let dest = RegisterSlot::AssemblerTemporary;
    if jobs::by_manual(job) {
        sham_word(
            Opcode::Func(3),
            ShamFields {
                dest,
                temp: source,
                sham: 31,
            },
        )
    } else {
        InstructionBuilder::from_op(Opcode::Func(3))
            .with_dest(dest)
            .with_temp(source)
            .with_immediate(31)
            .finish()
    }
}
