// The words of a line, each with the label it waits for, and what several emitters share (emit.rs).
#![tactic(auto)]

ghost use Rattle.std.specs.Prelude.{◌≡◌, [], ◌∷◌};
ghost use Rattle.registers.specs.Numbers.{register_number};
ghost use Rattle.loading.specs.Load.{form_of};
ghost use Rattle.emit_pairs.specs.Values.{branch_to, value_form, offset_form, value_pairs, value_number, added_pairs, offset_pairs, offset_number, offset_immediate};
ghost use Rattle.emit_pairs.specs.Pairs.{EmitIs, plain, waiting, at_number, load_pairs, label_pairs, label_form, is_immediate, immediate_range, immediate_pairs, immediate_form};

mod emit_instruction;

use address_label::AddressLabel;
pub use emit_instruction::EmitInstruction;
use emit_words::{ImmediateFields, RegisterFields};
use instructions::Opcode;
use loading::LoadForm;
use operand::{InstructionValue, OffsetOrLabel};
use pending::{InstructionLabel, InstructionLabelKind};
use registers::RegisterSlot;

#[derive(Clone, Copy)]
pub struct InstructionPair {
    pub word: u32,
    pub label: Option<InstructionLabel>,
}

// Why a line is refused although its operands were read: refusals 9, 19, 20 and 27.
#[derive(Clone, Copy)]
pub enum Fault {
    Immediate,
    ShiftAmount,
    ConditionCode,
    Dropped,
}

// rt, rs and the immediate operand.
#[derive(Clone, Copy)]
pub struct ImmediateOperands {
    pub temp: RegisterSlot,
    pub source: RegisterSlot,
    pub constant: u64,
}

// A register, and the words that load it first.
#[derive(Clone, Copy)]
pub struct Unpacked {
    pub slot: RegisterSlot,
    pub emit: EmitInstruction,
}

// An offset's immediate, its base register, and the words that go before.
#[derive(Clone, Copy)]
pub struct OffsetParts {
    pub immediate: u16,
    pub register: RegisterSlot,
    pub emit: EmitInstruction,
}

// Returns no words yet, for a line that loads a constant by this form.
fn starting(form: LoadForm) -> EmitInstruction
    ensures { EmitIs result [] form }
{
    let nothing = InstructionPair {
        word: 0,
        label: None,
    };
    EmitInstruction {
        instructions: [nothing; 5],
        count: 0,
        loaded: form,
    }
}

// Returns no words.
pub fn none() -> EmitInstruction
    ensures { EmitIs result [] LoadForm.Nothing }
{
    starting(LoadForm::Nothing)
}

// Returns one word alone.
pub fn with(word: u32) -> EmitInstruction
    ensures { EmitIs result (plain word ∷ []) LoadForm.Nothing }
{
    none().push(word, None)
}

// Returns one word that waits for a label.
pub fn with_label(word: u32, kind: InstructionLabelKind, label: AddressLabel) -> EmitInstruction
    ensures { EmitIs result (waiting word kind label ∷ []) LoadForm.Nothing }
{
    none().push(word, Some(InstructionLabel { kind, label }))
}

// Returns the words that load a constant.
pub fn load_pairs(constant: u64, into: RegisterSlot) -> EmitInstruction
    ensures { EmitIs result (load_pairs constant (register_number into)) (form_of constant) }
{
    let loaded = loading::load_immediate(constant, into);
    let one = starting(loaded.form).push(loaded.words[0], None);
    if loaded.count < 2 {
        one
    } else {
        one.push(loaded.words[1], None)
    }
}

// Returns the words that load a constant, or lui and ori that wait for a name's halves.
#[tactic(auto, unfolding(crate::specs::Pairs::label_pairs))]
pub fn make_label(label: AddressLabel, dest: RegisterSlot) -> EmitInstruction
    ensures { EmitIs result (label_pairs label (register_number dest)) (label_form label) }
{
    match label {
        AddressLabel::Constant(constant) => load_pairs(constant, dest),
        AddressLabel::Label(_) => {
            let upper_fields = ImmediateFields {
                source: RegisterSlot::Zero,
                temp: dest,
                immediate: 0,
            };
            let lower_fields = ImmediateFields {
                source: dest,
                temp: dest,
                immediate: 0,
            };
            let lui = emit_words::immediate_word(Opcode::Op(15), upper_fields);
            let ori = emit_words::immediate_word(Opcode::Op(13), lower_fields);
            let upper = InstructionLabel {
                kind: InstructionLabelKind::Upper,
                label,
            };
            let lower = InstructionLabel {
                kind: InstructionLabelKind::Lower,
                label,
            };
            none().push(lui, Some(upper)).push(ori, Some(lower))
        }
    }
}

// Whether a constant is -32,768 to 32,767, read signed at 64 bits.
#[tactic(auto, unfolding(crate::specs::Pairs::is_immediate))]
pub fn is_immediate(constant: u64) -> bool
    ensures { result ≡ is_immediate constant }
{
    constant < 0x8000 || 0xFFFF_FFFF_FFFF_8000 <= constant
}

// Refusal 9: refuses an immediate out of range without an alternative.
pub fn immediate_range(alt: Option<Opcode>, constant: u64) -> Result<(), Fault>
    ensures { result ≡ immediate_range alt constant }
{
    let within = alt.is_some() || is_immediate(constant);
    within.then_some(()).ok_or(Fault::Immediate)
}

// Returns one word. Out of range, loads the constant into $at for the alternative's word; without an alternative returns no word.
#[tactic(auto, using(crate::proofs::PairsLaws::load_pairs_length), unfolding(crate::specs::Pairs::immediate_pairs))]
pub fn emit_immediate_instruction(
    op: Opcode,
    alt: Option<Opcode>,
    operands: ImmediateOperands,
) -> EmitInstruction
    ensures { EmitIs result (immediate_pairs op alt (register_number operands.temp) (register_number operands.source) operands.constant)
        (immediate_form alt operands.constant) }
{
    if is_immediate(operands.constant) {
        let fields = ImmediateFields {
            source: operands.source,
            temp: operands.temp,
            immediate: (operands.constant % 0x1_0000) as u16,
        };
        return with(emit_words::immediate_word(op, fields));
    }
    match alt {
        None => none(),
        Some(other) => {
            let at = RegisterSlot::AssemblerTemporary;
            let fields = RegisterFields {
                dest: operands.temp,
                source: operands.source,
                temp: at,
            };
            let word = emit_words::register_word(other, fields);
            load_pairs(operands.constant, at).push(word, None)
        }
    }
}

// Returns the value's register. A number is loaded into $at.
pub fn unpack_value(value: InstructionValue) -> Unpacked
    ensures { (register_number result.slot ≡ value_number value) × EmitIs result.emit (value_pairs value) (value_form value) }
{
    match value {
        InstructionValue::Slot(slot) => Unpacked { slot, emit: none() },
        InstructionValue::Literal(constant) => {
            let slot = RegisterSlot::AssemblerTemporary;
            Unpacked {
                slot,
                emit: load_pairs(constant, slot),
            }
        }
    }
}

// Loads the label into $at, then adds the register.
#[tactic(auto, using(crate::proofs::ValuesLaws::label_length))]
fn added(label: AddressLabel, register: RegisterSlot) -> OffsetParts
    ensures { (result.immediate ≡ 0) × (register_number result.register ≡ at_number) × EmitIs result.emit (added_pairs label register) (label_form label) }
{
    let at = RegisterSlot::AssemblerTemporary;
    let fields = RegisterFields {
        dest: at,
        source: at,
        temp: register,
    };
    let add = emit_words::register_word(Opcode::Func(32), fields);
    OffsetParts {
        immediate: 0,
        register: at,
        emit: make_label(label, at).push(add, None),
    }
}

pub fn make_offset_or_label(offset: OffsetOrLabel) -> OffsetParts
    ensures { (result.immediate ≡ offset_immediate offset) × (register_number result.register ≡ offset_number offset)
        × EmitIs result.emit (offset_pairs offset) (offset_form offset) }
{
    match offset {
        OffsetOrLabel::Offset(AddressLabel::Constant(constant), register)
            if is_immediate(constant) => {
            OffsetParts {
                immediate: (constant % 0x1_0000) as u16,
                register,
                emit: none(),
            }
        }
        OffsetOrLabel::Offset(label, register) => added(label, register),
        OffsetOrLabel::Label(label) => {
            let at = RegisterSlot::AssemblerTemporary;
            OffsetParts {
                immediate: 0,
                register: at,
                emit: make_label(label, at),
            }
        }
    }
}

pub fn branch_to(label: AddressLabel) -> Option<InstructionLabel>
    ensures { result ≡ branch_to label }
{
    Some(InstructionLabel {
        kind: InstructionLabelKind::Branch,
        label,
    })
}
