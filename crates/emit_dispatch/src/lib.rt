// Makes a line's words by its encoding or pseudo-instruction (emit.rs): looks up what it asks for, and reads its operands once.
#![tactic(auto)]

ghost use Rattle.std.specs.Prelude.{◌≡◌, Ok};
ghost use Rattle.lexer.specs.Tokens.{tokens};
ghost use Rattle.jobs.specs.Jobs.{shift_within, code_within};
ghost use Rattle.operand.specs.Held.{constant_in, code_in};
ghost use Rattle.operand_list.specs.HeldOperands.{held_values};
ghost use Rattle.emit_pairs.specs.Pairs.{EmitIs};
ghost use Rattle.emit_dispatch.specs.Wants.{encoding_wants, pseudo_wants};
ghost use Rattle.emit_dispatch.specs.Lines.{within_or, amount_range, third_given, kept_range, constant_range, encoding_range, encoding_pairs, encoding_form, pseudo_pairs, pseudo_form, line_by, encoding_line, pseudo_line};
ghost use Rattle.emit_dispatch.specs.Contract.{held_answer, MadeAs, LineAs};

use cursor::LexerCursor;
use emit_float::MoveForm;
use emit_pairs::{EmitInstruction, Fault};
use emit_pseudo::{Comparison, ImmediateOpcodes};
use instructions::{Encoding, Opcode};
use jobs::{Format, Job};
use operand::{Miss, Operand, Want};
use operand_list::{Operands, Wants};
use pseudo_names::Pseudo;

// Why a line has no words: an operand could not be read, or the job refuses the line.
#[derive(Clone, Copy)]
pub enum Unmade {
    Missed(Miss),
    OutOfRange(Fault),
}

impl From<Miss> for Unmade {
    ghost use Rattle.emit_dispatch.specs.declared.Unmade.{Unmade};

    ghost from_gives = { λ miss unmade. unmade ≡ Unmade.Missed miss };

    fn from(miss: Miss) -> Unmade {
        Unmade::Missed(miss)
    }
}

impl From<Fault> for Unmade {
    ghost use Rattle.emit_dispatch.specs.declared.Unmade.{Unmade};

    ghost from_gives = { λ fault unmade. unmade ≡ Unmade.OutOfRange fault };

    fn from(fault: Fault) -> Unmade {
        Unmade::OutOfRange(fault)
    }
}

// kept: a constructor that makes the table below readable; others look like it but mean something else.
fn three(first: Want, second: Want, third: Want) -> Wants
    ensures { result ≡ (record { first = first; second = second; third = third }) }
{
    Wants {
        first,
        second,
        third,
    }
}

fn encoding_wants(encoding: Encoding) -> Wants
    ensures { result ≡ encoding_wants encoding }
{
    match encoding {
        Encoding::Register => three(Want::Register, Want::Register, Want::Value),
        Encoding::RegisterShift => three(Want::Register, Want::Register, Want::Register),
        Encoding::Source => three(Want::Register, Want::Nothing, Want::Nothing),
        Encoding::Destination => three(Want::Register, Want::Nothing, Want::Nothing),
        Encoding::Inputs => three(Want::Register, Want::Register, Want::MaybeValue),
        Encoding::Sham => three(Want::Register, Want::Register, Want::Constant),
        Encoding::SpecialBranch => three(Want::Register, Want::Label, Want::Nothing),
        Encoding::Immediate(_) => three(Want::Register, Want::Register, Want::Constant),
        Encoding::LoadImmediate => three(Want::Register, Want::Constant, Want::Nothing),
        Encoding::Jump => three(Want::Label, Want::Nothing, Want::Nothing),
        Encoding::Branch => three(Want::Register, Want::Value, Want::Label),
        Encoding::BranchZero => three(Want::Register, Want::Label, Want::Nothing),
        Encoding::Parameterless => three(Want::Nothing, Want::Nothing, Want::Nothing),
        Encoding::Offset => three(Want::Register, Want::OffsetOrLabel, Want::Nothing),
        Encoding::FPOffset => three(Want::FPRegister, Want::OffsetOrLabel, Want::Nothing),
        Encoding::FP3Register(_) => three(Want::FPRegister, Want::FPRegister, Want::FPRegister),
        Encoding::FP2Register(_) => three(Want::FPRegister, Want::FPRegister, Want::Nothing),
        Encoding::FPMove { size: _, flag: _ } => three(
            Want::FPRegister,
            Want::FPRegister,
            Want::Code,
        ),
        Encoding::FPCond(_) => three(Want::Code, Want::FPRegister, Want::FPRegister),
        Encoding::FPCrossMove { flag: true } => three(
            Want::FPRegister,
            Want::Register,
            Want::Nothing,
        ),
        Encoding::FPCrossMove { flag: false } => three(
            Want::Register,
            Want::FPRegister,
            Want::Nothing,
        ),
        Encoding::FPBranch { flag: _ } => three(Want::Code, Want::Label, Want::Nothing),
    }
}

fn pseudo_wants(pseudo: Pseudo) -> Wants
    ensures { result ≡ pseudo_wants pseudo }
{
    match pseudo {
        Pseudo::Nop => three(Want::Nothing, Want::Nothing, Want::Nothing),
        Pseudo::Abs => three(Want::Register, Want::Register, Want::Nothing),
        Pseudo::BranchCustom {
            greater_than: _,
            result_true: _,
            unsigned: _,
        } => three(Want::Register, Want::Value, Want::Label),
        Pseudo::SetCustom {
            greater_than: _,
            result_true: _,
            unsigned: _,
        } => three(Want::Register, Want::Register, Want::Value),
        Pseudo::Beqz => three(Want::Register, Want::Label, Want::Nothing),
        Pseudo::Bnez => three(Want::Register, Want::Label, Want::Nothing),
        Pseudo::Seq => three(Want::Register, Want::Register, Want::Value),
        Pseudo::Sne => three(Want::Register, Want::Register, Want::Value),
        Pseudo::Neg => three(Want::Register, Want::Register, Want::Nothing),
        Pseudo::Negu => three(Want::Register, Want::Register, Want::Nothing),
        Pseudo::Not => three(Want::Register, Want::Register, Want::Nothing),
        Pseudo::Li => three(Want::Register, Want::Constant, Want::Nothing),
        Pseudo::La => three(Want::Register, Want::Label, Want::Nothing),
        Pseudo::Move => three(Want::Register, Want::Register, Want::Nothing),
        Pseudo::B => three(Want::Label, Want::Nothing, Want::Nothing),
        Pseudo::Subi => three(Want::Register, Want::Register, Want::Constant),
        Pseudo::Subiu => three(Want::Register, Want::Register, Want::Constant),
    }
}

// Returns the words of a line that the job accepts.
#[tactic(auto, using(crate::proofs::FormsLaws::value_form_lem, crate::proofs::FormsLaws::maybe_form_lem, crate::proofs::FormsLaws::offset_form_lem))]
fn encoding_pairs(job: Job, encoding: Encoding, op: Opcode, operands: Operands) -> EmitInstruction
    requires taken { encoding_range job encoding op (held_values (encoding_wants encoding) operands) ≡ Ok tt }
    ensures { EmitIs result (encoding_pairs job encoding op (held_values (encoding_wants encoding) operands))
        (encoding_form encoding (held_values (encoding_wants encoding) operands)) }
{
    match encoding {
        Encoding::Register => emit_integer::do_register_instruction(op, operands),
        Encoding::RegisterShift => emit_integer::do_register_shift_instruction(op, operands),
        Encoding::Source => {
            emit_integer::do_source_instruction(jobs::source_opcode(job, op), operands)
        }
        Encoding::Destination => emit_integer::do_destination_instruction(op, operands),
        Encoding::Inputs => emit_integer::do_inputs_instruction(op, operands),
        Encoding::Sham => emit_integer::do_sham_instruction(op, operands),
        Encoding::SpecialBranch => emit_integer::do_branch_zero_instruction(op, operands),
        Encoding::Immediate(alt) => emit_integer::do_immediate_instruction(op, alt, operands),
        Encoding::LoadImmediate => emit_integer::do_load_immediate_instruction(op, operands),
        Encoding::Jump => emit_integer::do_jump_instruction(op, operands),
        Encoding::Branch => emit_integer::do_branch_instruction(op, operands),
        Encoding::BranchZero => emit_integer::do_branch_zero_instruction(op, operands),
        Encoding::Parameterless => emit_integer::do_parameterless_instruction(op),
        Encoding::Offset => emit_integer::do_offset_instruction(op, operands),
        Encoding::FPOffset => emit_float::do_fp_offset_instruction(op, operands),
        Encoding::FP3Register(size) => emit_float::do_fp_three_register_instruction(
            op,
            Format { job, size },
            operands,
        ),
        Encoding::FP2Register(size) => emit_float::do_fp_2register_instruction(
            op,
            Format { job, size },
            operands,
        ),
        Encoding::FPMove { size, flag } => {
            let fmt = Format { job, size };
            emit_float::do_fp_move_instruction(op, MoveForm { fmt, flag }, operands)
        }
        Encoding::FPCond(size) => emit_float::do_fp_cond_instruction(
            op,
            Format { job, size },
            operands,
        ),
        Encoding::FPCrossMove { flag: true } => {
            emit_float::do_fp_first_move_instruction(op, operands)
        }
        Encoding::FPCrossMove { flag: false } => {
            emit_float::do_fp_last_move_instruction(op, operands)
        }
        Encoding::FPBranch { flag } => emit_float::do_fp_branch_instruction(op, flag, operands),
    }
}

// kept: this and the next have two tests and two faults; one function for both would take the test, the operand's reader and the fault.
fn shift_range(job: Job, operand: Operand) -> Result<(), Fault>
    ensures { result ≡ within_or Fault.ShiftAmount (shift_within job (constant_in operand)) }
{
    let within = jobs::shift_within(job, operand::constant_in(operand));
    within.then_some(()).ok_or(Fault::ShiftAmount)
}

fn code_range(job: Job, operand: Operand) -> Result<(), Fault>
    ensures { result ≡ within_or Fault.ConditionCode (code_within job (code_in operand)) }
{
    let within = jobs::code_within(job, operand::code_in(operand));
    within.then_some(()).ok_or(Fault::ConditionCode)
}

// Refusal 19 or 20: checks the shift amount or the condition code, if the encoding has one.
fn amount_range(job: Job, encoding: Encoding, operands: Operands) -> Result<(), Fault>
    ensures { result ≡ amount_range job encoding (held_values (encoding_wants encoding) operands) }
{
    match encoding {
        Encoding::Sham => shift_range(job, operands.third),
        Encoding::FPMove { size: _, flag: _ } => code_range(job, operands.third),
        Encoding::FPCond(_) => code_range(job, operands.first),
        Encoding::FPBranch { flag: _ } => code_range(job, operands.first),
        _ => Ok(()),
    }
}

// Whether the optional third operand was read. Only Inputs has one.
fn third_given(encoding: Encoding, operands: Operands) -> bool
    ensures { result ≡ third_given encoding (held_values (encoding_wants encoding) operands) }
{
    match encoding {
        Encoding::Inputs => matches!(operands.third, Operand::Value(_)),
        _ => false,
    }
}

// Refusal 27: a Release 6 job drops some instructions.
fn kept_range(job: Job, third: bool, op: Opcode) -> Result<(), Fault>
    ensures { result ≡ kept_range job third op }
{
    let dropped = jobs::is_dropped(job, third, op);
    (!dropped).then_some(()).ok_or(Fault::Dropped)
}

// Refusal 9: checks the immediate, if the encoding has one.
fn constant_range(encoding: Encoding, operands: Operands) -> Result<(), Fault>
    ensures { result ≡ constant_range encoding (held_values (encoding_wants encoding) operands) }
{
    match encoding {
        Encoding::Immediate(alt) => {
            emit_pairs::immediate_range(alt, operand::constant_in(operands.third))
        }
        _ => Ok(()),
    }
}

// Checks whether the job accepts the line: refusal 19 or 20, then 27, then 9.
#[tactic(auto, using(crate::proofs::LinesLaws::and_then_is))]
fn encoding_range(job: Job, encoding: Encoding, op: Opcode, operands: Operands) -> Result<(), Fault>
    ensures { result ≡ encoding_range job encoding op (held_values (encoding_wants encoding) operands) }
{
    let kept = kept_range(job, third_given(encoding, operands), op);
    amount_range(job, encoding, operands).and(kept.and(constant_range(encoding, operands)))
}

#[tactic(auto, using(crate::proofs::FormsLaws::value_form_lem, crate::proofs::FormsLaws::label_form_lem, crate::proofs::FormsLaws::subi_form_lem))]
fn pseudo_pairs(job: Job, pseudo: Pseudo, operands: Operands) -> EmitInstruction
    ensures { EmitIs result (pseudo_pairs job pseudo (held_values (pseudo_wants pseudo) operands))
        (pseudo_form pseudo (held_values (pseudo_wants pseudo) operands)) }
{
    match pseudo {
        Pseudo::Nop => emit_pseudo::do_nop_instruction(),
        Pseudo::Abs => emit_pseudo::do_abs_instruction(job, operands),
        Pseudo::BranchCustom {
            greater_than,
            result_true,
            unsigned,
        } => {
            let how = Comparison {
                greater_than,
                result_true,
                unsigned,
            };
            emit_pseudo::do_branch_custom_instruction(how, operands)
        }
        Pseudo::SetCustom {
            greater_than,
            result_true,
            unsigned,
        } => {
            let how = Comparison {
                greater_than,
                result_true,
                unsigned,
            };
            emit_pseudo::do_set_custom_instruction(how, operands)
        }
        Pseudo::Beqz => emit_integer::do_branch_zero_instruction(Opcode::Op(4), operands),
        Pseudo::Bnez => emit_integer::do_branch_zero_instruction(Opcode::Op(5), operands),
        Pseudo::Seq => emit_pseudo::do_seq_instruction(operands),
        Pseudo::Sne => emit_pseudo::do_sne_instruction(operands),
        Pseudo::Neg => emit_pseudo::do_neg_instruction(Opcode::Func(34), operands),
        Pseudo::Negu => emit_pseudo::do_neg_instruction(Opcode::Func(35), operands),
        Pseudo::Not => emit_pseudo::do_move_instruction(Opcode::Func(39), operands),
        Pseudo::Li => emit_pseudo::do_li_instruction(operands),
        Pseudo::La => emit_pseudo::do_la_instruction(operands),
        Pseudo::Move => emit_pseudo::do_move_instruction(Opcode::Func(33), operands),
        Pseudo::B => emit_pseudo::do_b_instruction(operands),
        Pseudo::Subi => emit_pseudo::do_subi_instruction(subi_opcodes(8, 32), operands),
        Pseudo::Subiu => emit_pseudo::do_subi_instruction(subi_opcodes(9, 33), operands),
    }
}

fn subi_opcodes(op: u8, alternative: u8) -> ImmediateOpcodes
    ensures { result ≡ (record { op = Opcode.Op op; alternative = Opcode.Func alternative }) }
{
    ImmediateOpcodes {
        op: Opcode::Op(op),
        alternative: Opcode::Func(alternative),
    }
}

// Makes the words of an instruction in the table from what was read.
#[tactic(auto, using(std::proofs::lemmas::Result::err_from_is_err_and))]
fn encoding_words(
    job: Job,
    encoding: Encoding,
    op: Opcode,
    read: Result<Operands, Miss>,
) -> Result<EmitInstruction, Unmade>
    ensures { MadeAs (line_by (held_answer (encoding_wants encoding) read) 0 (encoding_range job encoding op) (encoding_pairs job encoding op) (encoding_form encoding)) result }
{
    let operands = read?;
    encoding_range(job, encoding, op, operands)?;
    Ok(encoding_pairs(job, encoding, op, operands))
}

// Reads the line of an instruction in the table, by its encoding, and makes its words.
pub fn dispatch_encoding(
    job: Job,
    encoding: Encoding,
    op: Opcode,
    cursor: &mut LexerCursor<'_>,
) -> Result<EmitInstruction, Unmade>
    ensures { LineAs cursor.old (encoding_line job encoding op (tokens cursor.old.list) cursor.old.index) result cursor.new }
{
    let read = operand_list::read_operands(encoding_wants(encoding), cursor);
    encoding_words(job, encoding, op, read)
}

// Makes the words of a pseudo-instruction from what was read.
#[tactic(auto, using(std::proofs::lemmas::Result::err_from_is_err_and))]
fn pseudo_words(
    job: Job,
    pseudo: Pseudo,
    read: Result<Operands, Miss>,
) -> Result<EmitInstruction, Unmade>
    ensures { MadeAs (line_by (held_answer (pseudo_wants pseudo) read) 0 (λ x. Ok tt) (pseudo_pairs job pseudo) (pseudo_form pseudo)) result }
{
    Ok(pseudo_pairs(job, pseudo, read?))
}

// Reads the line of a pseudo-instruction and makes its words.
pub fn dispatch_pseudo(
    job: Job,
    pseudo: Pseudo,
    cursor: &mut LexerCursor<'_>,
) -> Result<EmitInstruction, Unmade>
    ensures { LineAs cursor.old (pseudo_line job pseudo (tokens cursor.old.list) cursor.old.index) result cursor.new }
{
    let read = operand_list::read_operands(pseudo_wants(pseudo), cursor);
    pseudo_words(job, pseudo, read)
}
