// Makes the words of each encoding of float registers from its operands, in one function each (emit.rs).
#![tactic(auto)]

ghost use Rattle.registers.specs.Numbers.{register_number, fp_register_number};
ghost use Rattle.operand.specs.Held.{slot_in, fp_slot_in, code_in, label_in, offset_in};
ghost use Rattle.emit_pairs.specs.Pairs.{EmitIs};
ghost use Rattle.emit_pairs.specs.Values.{offset_form};
ghost use Rattle.emit_integer.specs.IntegerWords.{offset_line_pairs};
ghost use Rattle.emit_float.specs.FloatWords.{fp3_pairs, fp2_pairs, fp_move_pairs, fp_cond_pairs, fp_cross_move_pairs, fp_branch_pairs};

use emit_pairs::EmitInstruction;
use emit_words::{FP2Fields, FP3Fields, FPCondFields, FPImmediateFields, FPMoveFields};
use instructions::Opcode;
use jobs::Format;
use loading::LoadForm;
use operand_list::Operands;
use pending::InstructionLabelKind;
use registers::Slot;

// The format and tf of a conditional move.
#[derive(Clone, Copy)]
pub struct MoveForm {
    pub fmt: Format,
    pub flag: bool,
}

// kept beside emit_integer's do_offset_instruction: the builder has separate methods for the two register files.
#[tactic(auto, using(emit_pairs::proofs::ValuesLaws::offset_length))]
pub fn do_fp_offset_instruction(op: Opcode, operands: Operands) -> EmitInstruction
    ensures { EmitIs result (offset_line_pairs op (fp_register_number (fp_slot_in operands.first)) (offset_in operands.second))
        (offset_form (offset_in operands.second)) }
{
    let parts = emit_pairs::make_offset_or_label(operand::offset_in(operands.second));
    let fields = FPImmediateFields {
        source: parts.register,
        temp: operand::fp_slot_in(operands.first),
        immediate: parts.immediate,
    };
    let word = emit_words::fp_immediate_word(op, fields);
    parts.emit.push(word, None)
}

pub fn do_fp_three_register_instruction(
    op: Opcode,
    fmt: Format,
    operands: Operands,
) -> EmitInstruction
    ensures { EmitIs result (fp3_pairs op fmt (fp_slot_in operands.first) (fp_slot_in operands.second) (fp_slot_in operands.third)) LoadForm.Nothing }
{
    let fields = FP3Fields {
        dest: operand::fp_slot_in(operands.first),
        source: operand::fp_slot_in(operands.second),
        temp: operand::fp_slot_in(operands.third),
    };
    emit_pairs::with(emit_words::fp_3_register_word(op, fmt, fields))
}

pub fn do_fp_2register_instruction(op: Opcode, fmt: Format, operands: Operands) -> EmitInstruction
    ensures { EmitIs result (fp2_pairs op fmt (fp_slot_in operands.first) (fp_slot_in operands.second)) LoadForm.Nothing }
{
    let fields = FP2Fields {
        dest: operand::fp_slot_in(operands.first),
        source: operand::fp_slot_in(operands.second),
    };
    emit_pairs::with(emit_words::fp_2_register_word(op, fmt, fields))
}

pub fn do_fp_move_instruction(op: Opcode, form: MoveForm, operands: Operands) -> EmitInstruction
    ensures { EmitIs result (fp_move_pairs op form.fmt form.flag
        (fp_slot_in operands.first) (fp_slot_in operands.second) (code_in operands.third)) LoadForm.Nothing }
{
    let fields = FPMoveFields {
        dest: operand::fp_slot_in(operands.first),
        source: operand::fp_slot_in(operands.second),
        code: operand::code_in(operands.third),
        flag: form.flag,
    };
    emit_pairs::with(emit_words::fp_move_word(op, form.fmt, fields))
}

pub fn do_fp_cond_instruction(op: Opcode, fmt: Format, operands: Operands) -> EmitInstruction
    ensures { EmitIs result (fp_cond_pairs op fmt (code_in operands.first) (fp_slot_in operands.second) (fp_slot_in operands.third)) LoadForm.Nothing }
{
    let fields = FPCondFields {
        code: operand::code_in(operands.first),
        source: operand::fp_slot_in(operands.second),
        target: operand::fp_slot_in(operands.third),
    };
    emit_pairs::with(emit_words::fp_cond_word(op, fmt, fields))
}

// Makes a move between the two register files, with the registers in the line's order.
fn cross_move<A: Slot, B: Slot>(op: Opcode, first: A, second: B) -> EmitInstruction
    ensures { EmitIs result (fp_cross_move_pairs op (A.number first) (B.number second)) LoadForm.Nothing }
{
    let word = emit_words::fp_cross_move_word(op, first.number() as u8, second.number() as u8);
    emit_pairs::with(word)
}

// Makes a move whose line has a float register first, then a general one.
pub fn do_fp_first_move_instruction(op: Opcode, operands: Operands) -> EmitInstruction
    ensures { EmitIs result (fp_cross_move_pairs op (fp_register_number (fp_slot_in operands.first)) (register_number (slot_in operands.second)))
        LoadForm.Nothing }
{
    cross_move(
        op,
        operand::fp_slot_in(operands.first),
        operand::slot_in(operands.second),
    )
}

// Makes a move whose line has a general register first, then a float one.
pub fn do_fp_last_move_instruction(op: Opcode, operands: Operands) -> EmitInstruction
    ensures { EmitIs result (fp_cross_move_pairs op (register_number (slot_in operands.first)) (fp_register_number (fp_slot_in operands.second)))
        LoadForm.Nothing }
{
    cross_move(
        op,
        operand::slot_in(operands.first),
        operand::fp_slot_in(operands.second),
    )
}

pub fn do_fp_branch_instruction(op: Opcode, flag: bool, operands: Operands) -> EmitInstruction
    ensures { EmitIs result (fp_branch_pairs op flag (code_in operands.first) (label_in operands.second)) LoadForm.Nothing }
{
    let word = emit_words::fp_branch_word(op, operand::code_in(operands.first), flag);
    let label = operand::label_in(operands.second);
    emit_pairs::with_label(word, InstructionLabelKind::Branch, label)
}
