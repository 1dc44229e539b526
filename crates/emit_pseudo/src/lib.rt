// Makes the words of each pseudo-instruction from its operands (emit.rs); two that differ only in the opcode share a function.
#![tactic(auto)]

ghost use Rattle.std.specs.Prelude.{◌≡◌};
ghost use Rattle.registers.specs.Numbers.{register_number};
ghost use Rattle.operand.specs.Held.{slot_in, value_in, constant_in, label_in};
ghost use Rattle.loading.specs.Load.{form_of};
ghost use Rattle.emit_words.specs.Words.{immediate_word};
ghost use Rattle.emit_pairs.specs.Pairs.{EmitIs, label_form};
ghost use Rattle.emit_pairs.specs.Values.{value_form};
ghost use Rattle.emit_pseudo.specs.PseudoWords.{set_opcode, compare_word, branch_opcode, branch_custom_pairs, set_custom_pairs, sne_pairs, seq_pairs, abs_pairs, neg_pairs, move_pairs, li_pairs, la_pairs, b_pairs, nop_pairs, subi_pairs, subi_form};

use emit_pairs::{EmitInstruction, ImmediateOperands};
use emit_words::{ImmediateFields, RegisterFields};
use instructions::Opcode;
use jobs::Job;
use loading::LoadForm;
use operand_list::Operands;
use pending::InstructionLabelKind;
use registers::RegisterSlot;

// How two values are compared, and which result is asked for.
#[derive(Clone, Copy)]
pub struct Comparison {
    pub greater_than: bool,
    pub result_true: bool,
    pub unsigned: bool,
}

// An opcode, and its alternative for an immediate out of range.
#[derive(Clone, Copy)]
pub struct ImmediateOpcodes {
    pub op: Opcode,
    pub alternative: Opcode,
}

pub fn do_abs_instruction(job: Job, operands: Operands) -> EmitInstruction
    ensures { EmitIs result (abs_pairs job (slot_in operands.first) (slot_in operands.second)) LoadForm.Nothing }
{
    let dest = operand::slot_in(operands.first);
    let source = operand::slot_in(operands.second);
    let temp = RegisterSlot::AssemblerTemporary;
    let xor_fields = RegisterFields { dest, source, temp };
    let sub_fields = RegisterFields {
        source: dest,
        ..xor_fields
    };
    let shift = emit_words::abs_first_word(job, source);
    let xor = emit_words::register_word(Opcode::Func(38), xor_fields);
    let sub = emit_words::register_word(Opcode::Func(35), sub_fields);
    emit_pairs::with(shift).push(xor, None).push(sub, None)
}

// kept: the flag comes from the line's name and chooses an opcode, as in `branch_opcode`.
fn set_opcode(unsigned: bool) -> Opcode
    ensures { result ≡ set_opcode unsigned }
{
    Opcode::Func(if unsigned { 41 } else { 42 })
}

// Returns the word of slt or sltu into dest; for greater-than the operands are swapped.
fn compare_word(how: Comparison, fields: RegisterFields) -> u32
    ensures { result ≡ compare_word how.greater_than how.unsigned
        (register_number fields.dest) (register_number fields.source) (register_number fields.temp) }
{
    let op = set_opcode(how.unsigned);
    if how.greater_than {
        let exchanged = RegisterFields {
            source: fields.temp,
            temp: fields.source,
            ..fields
        };
        emit_words::register_word(op, exchanged)
    } else {
        emit_words::register_word(op, fields)
    }
}

fn branch_opcode(result_true: bool) -> Opcode
    ensures { result ≡ branch_opcode result_true }
{
    Opcode::Op(if result_true { 5 } else { 4 })
}

#[tactic(auto, using(emit_pairs::proofs::ValuesLaws::value_length, emit_pairs::proofs::ValuesLaws::count_one))]
pub fn do_branch_custom_instruction(how: Comparison, operands: Operands) -> EmitInstruction
    ensures { EmitIs result (branch_custom_pairs how.greater_than how.result_true how.unsigned
        (slot_in operands.first) (value_in operands.second) (label_in operands.third)) (value_form (value_in operands.second)) }
{
    let unpacked = emit_pairs::unpack_value(operand::value_in(operands.second));
    let dest = RegisterSlot::AssemblerTemporary;
    let fields = RegisterFields {
        dest,
        source: operand::slot_in(operands.first),
        temp: unpacked.slot,
    };
    let compare = compare_word(how, fields);
    let op = branch_opcode(how.result_true);
    let branch = emit_words::inputs_word(op, dest, RegisterSlot::Zero);
    let to = emit_pairs::branch_to(operand::label_in(operands.third));
    unpacked.emit.push(compare, None).push(branch, to)
}

// Returns xori with 1, which inverts a comparison's result.
fn turn_word(dest: RegisterSlot) -> u32
    ensures { result ≡ immediate_word (Opcode.Op 14) (register_number dest) (register_number dest) 1 }
{
    let fields = ImmediateFields {
        source: dest,
        temp: dest,
        immediate: 1,
    };
    emit_words::immediate_word(Opcode::Op(14), fields)
}

#[tactic(auto, using(emit_pairs::proofs::ValuesLaws::value_length, emit_pairs::proofs::ValuesLaws::count_one))]
pub fn do_set_custom_instruction(how: Comparison, operands: Operands) -> EmitInstruction
    ensures { EmitIs result (set_custom_pairs how.greater_than how.result_true how.unsigned
        (slot_in operands.first) (slot_in operands.second) (value_in operands.third)) (value_form (value_in operands.third)) }
{
    let unpacked = emit_pairs::unpack_value(operand::value_in(operands.third));
    let dest = operand::slot_in(operands.first);
    let fields = RegisterFields {
        dest,
        source: operand::slot_in(operands.second),
        temp: unpacked.slot,
    };
    let set = compare_word(how, fields);
    let with_set = unpacked.emit.push(set, None);
    if how.result_true {
        with_set
    } else {
        with_set.push(turn_word(dest), None)
    }
}

// Makes sne: the difference, then whether it is not zero.
#[tactic(auto, using(emit_pairs::proofs::ValuesLaws::value_length, emit_pairs::proofs::ValuesLaws::count_one))]
pub fn do_sne_instruction(operands: Operands) -> EmitInstruction
    ensures { EmitIs result (sne_pairs (slot_in operands.first) (slot_in operands.second) (value_in operands.third))
        (value_form (value_in operands.third)) }
{
    let unpacked = emit_pairs::unpack_value(operand::value_in(operands.third));
    let dest = operand::slot_in(operands.first);
    let difference = RegisterFields {
        dest,
        source: operand::slot_in(operands.second),
        temp: unpacked.slot,
    };
    let above_zero = RegisterFields {
        dest,
        source: RegisterSlot::Zero,
        temp: dest,
    };
    let subu = emit_words::register_word(Opcode::Func(35), difference);
    let sltu = emit_words::register_word(Opcode::Func(41), above_zero);
    unpacked.emit.push(subu, None).push(sltu, None)
}

#[tactic(auto, using(crate::proofs::PseudoWordsLaws::sne_length))]
pub fn do_seq_instruction(operands: Operands) -> EmitInstruction
    ensures { EmitIs result (seq_pairs (slot_in operands.first) (slot_in operands.second) (value_in operands.third))
        (value_form (value_in operands.third)) }
{
    let turn = turn_word(operand::slot_in(operands.first));
    do_sne_instruction(operands).push(turn, None)
}

// Makes the word of neg and of negu.
pub fn do_neg_instruction(op: Opcode, operands: Operands) -> EmitInstruction
    ensures { EmitIs result (neg_pairs op (slot_in operands.first) (slot_in operands.second)) LoadForm.Nothing }
{
    let fields = RegisterFields {
        dest: operand::slot_in(operands.first),
        source: RegisterSlot::Zero,
        temp: operand::slot_in(operands.second),
    };
    emit_pairs::with(emit_words::register_word(op, fields))
}

// Makes the word of not and of move.
pub fn do_move_instruction(op: Opcode, operands: Operands) -> EmitInstruction
    ensures { EmitIs result (move_pairs op (slot_in operands.first) (slot_in operands.second)) LoadForm.Nothing }
{
    let fields = RegisterFields {
        dest: operand::slot_in(operands.first),
        source: operand::slot_in(operands.second),
        temp: RegisterSlot::Zero,
    };
    emit_pairs::with(emit_words::register_word(op, fields))
}

pub fn do_li_instruction(operands: Operands) -> EmitInstruction
    ensures { EmitIs result (li_pairs (slot_in operands.first) (constant_in operands.second)) (form_of (constant_in operands.second)) }
{
    let constant = operand::constant_in(operands.second);
    emit_pairs::load_pairs(constant, operand::slot_in(operands.first))
}

pub fn do_la_instruction(operands: Operands) -> EmitInstruction
    ensures { EmitIs result (la_pairs (slot_in operands.first) (label_in operands.second)) (label_form (label_in operands.second)) }
{
    let label = operand::label_in(operands.second);
    emit_pairs::make_label(label, operand::slot_in(operands.first))
}

pub fn do_b_instruction(operands: Operands) -> EmitInstruction
    ensures { EmitIs result (b_pairs (label_in operands.first)) LoadForm.Nothing }
{
    let word = emit_words::inputs_word(Opcode::Op(4), RegisterSlot::Zero, RegisterSlot::Zero);
    let label = operand::label_in(operands.first);
    emit_pairs::with_label(word, InstructionLabelKind::Branch, label)
}

pub fn do_nop_instruction() -> EmitInstruction
    ensures { EmitIs result nop_pairs LoadForm.Nothing }
{
    emit_pairs::with(emit_words::base_word(Opcode::Func(0)))
}

// Makes the words of subi and of subiu; negates the constant first.
pub fn do_subi_instruction(opcodes: ImmediateOpcodes, operands: Operands) -> EmitInstruction
    ensures { EmitIs result (subi_pairs opcodes.op opcodes.alternative
        (slot_in operands.first) (slot_in operands.second) (constant_in operands.third)) (subi_form (constant_in operands.third)) }
{
    let read = ImmediateOperands {
        temp: operand::slot_in(operands.first),
        source: operand::slot_in(operands.second),
        constant: operands::with_sign(true, operand::constant_in(operands.third)),
    };
    emit_pairs::emit_immediate_instruction(opcodes.op, Some(opcodes.alternative), read)
}
