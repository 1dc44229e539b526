// Makes the words of each encoding of general registers from its operands, in one function each (emit.rs).
#![tactic(auto)]

ghost use Rattle.std.specs.Prelude.{◌≡◌};
ghost use Rattle.registers.specs.Numbers.{register_number};
ghost use Rattle.operand.specs.Held.{slot_in, value_in, maybe_value_in, constant_in, label_in, offset_in};
ghost use Rattle.emit_pairs.specs.Pairs.{EmitIs, immediate_form};
ghost use Rattle.emit_pairs.specs.Values.{value_form, maybe_form, offset_form};
ghost use Rattle.emit_integer.specs.IntegerWords.{register_pairs, register_shift_pairs, source_pairs, destination_pairs, inputs_pairs, sham_pairs, branch_zero_pairs, immediate_line_pairs, load_immediate_pairs, jump_pairs, branch_pairs, parameterless_pairs, offset_line_pairs};

use emit_pairs::{EmitInstruction, ImmediateOperands};
use emit_words::{ImmediateFields, RegisterFields, ShamFields};
use instructions::Opcode;
use loading::LoadForm;
use operand::{InstructionValue, Operand};
use operand_list::Operands;
use pending::InstructionLabelKind;
use registers::RegisterSlot;

#[tactic(auto, using(emit_pairs::proofs::ValuesLaws::value_length))]
pub fn do_register_instruction(op: Opcode, operands: Operands) -> EmitInstruction
    ensures { EmitIs result (register_pairs op (slot_in operands.first) (slot_in operands.second) (value_in operands.third))
        (value_form (value_in operands.third)) }
{
    let unpacked = emit_pairs::unpack_value(operand::value_in(operands.third));
    let fields = RegisterFields {
        dest: operand::slot_in(operands.first),
        source: operand::slot_in(operands.second),
        temp: unpacked.slot,
    };
    let word = emit_words::register_word(op, fields);
    unpacked.emit.push(word, None)
}

// Makes one word; the register with the shift amount comes last in the line.
pub fn do_register_shift_instruction(op: Opcode, operands: Operands) -> EmitInstruction
    ensures { EmitIs result (register_shift_pairs op (slot_in operands.first) (slot_in operands.second) (slot_in operands.third)) LoadForm.Nothing }
{
    let fields = RegisterFields {
        dest: operand::slot_in(operands.first),
        source: operand::slot_in(operands.third),
        temp: operand::slot_in(operands.second),
    };
    emit_pairs::with(emit_words::register_word(op, fields))
}

pub fn do_source_instruction(op: Opcode, operands: Operands) -> EmitInstruction
    ensures { EmitIs result (source_pairs op (slot_in operands.first)) LoadForm.Nothing }
{
    let source = operand::slot_in(operands.first);
    emit_pairs::with(emit_words::source_word(op, source))
}

pub fn do_destination_instruction(op: Opcode, operands: Operands) -> EmitInstruction
    ensures { EmitIs result (destination_pairs op (slot_in operands.first)) LoadForm.Nothing }
{
    let dest = operand::slot_in(operands.first);
    emit_pairs::with(emit_words::destination_word(op, dest))
}

// Makes the operation on the last two operands, then mflo into the first.
#[tactic(auto, using(emit_pairs::proofs::ValuesLaws::value_length, emit_pairs::proofs::ValuesLaws::count_one))]
fn inputs_into(op: Opcode, operands: Operands, value: InstructionValue) -> EmitInstruction
    ensures { EmitIs result (inputs_pairs op (slot_in operands.first) (slot_in operands.second) (Some value)) (value_form value) }
{
    let unpacked = emit_pairs::unpack_value(value);
    let word = emit_words::inputs_word(op, operand::slot_in(operands.second), unpacked.slot);
    let dest = operand::slot_in(operands.first);
    let mflo = emit_words::destination_word(Opcode::Func(18), dest);
    unpacked.emit.push(word, None).push(mflo, None)
}

pub fn do_inputs_instruction(op: Opcode, operands: Operands) -> EmitInstruction
    ensures { EmitIs result (inputs_pairs op (slot_in operands.first) (slot_in operands.second) (maybe_value_in operands.third))
        (maybe_form (maybe_value_in operands.third)) }
{
    if let Operand::Value(value) = operands.third {
        return inputs_into(op, operands, value);
    }
    let source = operand::slot_in(operands.first);
    let temp = operand::slot_in(operands.second);
    emit_pairs::with(emit_words::inputs_word(op, source, temp))
}

pub fn do_sham_instruction(op: Opcode, operands: Operands) -> EmitInstruction
    ensures { EmitIs result (sham_pairs op (slot_in operands.first) (slot_in operands.second) (constant_in operands.third)) LoadForm.Nothing }
{
    let fields = ShamFields {
        dest: operand::slot_in(operands.first),
        temp: operand::slot_in(operands.second),
        sham: (operand::constant_in(operands.third) % 256) as u8,
    };
    emit_pairs::with(emit_words::sham_word(op, fields))
}

// Makes the word of SpecialBranch and of BranchZero.
pub fn do_branch_zero_instruction(op: Opcode, operands: Operands) -> EmitInstruction
    ensures { EmitIs result (branch_zero_pairs op (slot_in operands.first) (label_in operands.second)) LoadForm.Nothing }
{
    let word = emit_words::source_word(op, operand::slot_in(operands.first));
    let label = operand::label_in(operands.second);
    emit_pairs::with_label(word, InstructionLabelKind::Branch, label)
}

pub fn do_immediate_instruction(
    op: Opcode,
    alt: Option<Opcode>,
    operands: Operands,
) -> EmitInstruction
    ensures { EmitIs result (immediate_line_pairs op alt (slot_in operands.first) (slot_in operands.second) (constant_in operands.third))
        (immediate_form alt (constant_in operands.third)) }
{
    let read = ImmediateOperands {
        temp: operand::slot_in(operands.first),
        source: operand::slot_in(operands.second),
        constant: operand::constant_in(operands.third),
    };
    emit_pairs::emit_immediate_instruction(op, alt, read)
}

pub fn do_load_immediate_instruction(op: Opcode, operands: Operands) -> EmitInstruction
    ensures { EmitIs result (load_immediate_pairs op (slot_in operands.first) (constant_in operands.second)) LoadForm.Nothing }
{
    let temp = operand::slot_in(operands.first);
    let immediate = (operand::constant_in(operands.second) % 0x1_0000) as u16;
    emit_pairs::with(emit_words::load_immediate_word(op, temp, immediate))
}

pub fn do_jump_instruction(op: Opcode, operands: Operands) -> EmitInstruction
    ensures { EmitIs result (jump_pairs op (label_in operands.first)) LoadForm.Nothing }
{
    let label = operand::label_in(operands.first);
    emit_pairs::with_label(emit_words::base_word(op), InstructionLabelKind::Jump, label)
}

#[tactic(auto, using(emit_pairs::proofs::ValuesLaws::value_length))]
pub fn do_branch_instruction(op: Opcode, operands: Operands) -> EmitInstruction
    ensures { EmitIs result (branch_pairs op (slot_in operands.first) (value_in operands.second) (label_in operands.third))
        (value_form (value_in operands.second)) }
{
    let unpacked = emit_pairs::unpack_value(operand::value_in(operands.second));
    let word = emit_words::inputs_word(op, operand::slot_in(operands.first), unpacked.slot);
    let to = emit_pairs::branch_to(operand::label_in(operands.third));
    unpacked.emit.push(word, to)
}

pub fn do_parameterless_instruction(op: Opcode) -> EmitInstruction
    ensures { EmitIs result (parameterless_pairs op) LoadForm.Nothing }
{
    emit_pairs::with(emit_words::base_word(op))
}

#[tactic(auto, using(emit_pairs::proofs::ValuesLaws::offset_length))]
pub fn do_offset_instruction(op: Opcode, operands: Operands) -> EmitInstruction
    ensures { EmitIs result (offset_line_pairs op (register_number (slot_in operands.first)) (offset_in operands.second))
        (offset_form (offset_in operands.second)) }
{
    let parts = emit_pairs::make_offset_or_label(operand::offset_in(operands.second));
    let fields = ImmediateFields {
        source: parts.register,
        temp: operand::slot_in(operands.first),
        immediate: parts.immediate,
    };
    let word = emit_words::immediate_word(op, fields);
    parts.emit.push(word, None)
}
