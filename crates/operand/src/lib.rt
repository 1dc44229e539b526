// An operand of a line: what it may be, and why it could not be read (assembler_util.rs).
#![tactic(auto)]

ghost use Rattle.std.specs.Prelude.{◌≡◌};
ghost use Rattle.operand.specs.Held.{slot_in, fp_slot_in, code_in, value_in, constant_in, label_in, offset_in};

use address_label::AddressLabel;
use record::Location;
use registers::{FPRegisterSlot, RegisterSlot};

// Why an operand could not be read: the kind and the location of the token that was met.
#[derive(Clone, Copy)]
pub enum Miss {
    EndOfFile,
    ExpectedRegister(u8, Location),
    ExpectedConstant(u8, Location),
    ExpectedLabel(u8, Location),
    ExpectedRightBrace(u8, Location),
}

#[derive(Clone, Copy)]
pub enum InstructionValue {
    Slot(RegisterSlot),
    Literal(u64),
}

#[derive(Clone, Copy)]
pub enum OffsetOrLabel {
    Label(AddressLabel),
    Offset(AddressLabel, RegisterSlot),
}

// What an instruction asks for at one place of its line.
#[derive(Clone, Copy)]
pub enum Want {
    Register,
    FPRegister,
    Code,
    Value,
    MaybeValue,
    Constant,
    Label,
    OffsetOrLabel,
    Nothing,
}

// What was read for a `Want`. An offset without braces is a Label; for MaybeValue it is a Value or Absent.
#[derive(Clone, Copy)]
pub enum Operand {
    Register(RegisterSlot),
    FPRegister(FPRegisterSlot),
    Code(u64),
    Value(InstructionValue),
    Constant(u64),
    Label(AddressLabel),
    Offset(AddressLabel, RegisterSlot),
    Absent,
}

// Returns what the operand holds, or a zero if it is of another kind. No reader returns another kind than was asked for (`held_given`).
// kept: each of these takes another variant and is nothing but its `match`; one function for all would have to be handed that `match`.
pub fn slot_in(operand: Operand) -> RegisterSlot
    ensures { result ≡ slot_in operand }
{
    match operand {
        Operand::Register(x) => x,
        _ => RegisterSlot::Zero,
    }
}

pub fn fp_slot_in(operand: Operand) -> FPRegisterSlot
    ensures { result ≡ fp_slot_in operand }
{
    match operand {
        Operand::FPRegister(x) => x,
        _ => FPRegisterSlot::F0,
    }
}

pub fn code_in(operand: Operand) -> u64
    ensures { result ≡ code_in operand }
{
    match operand {
        Operand::Code(x) => x,
        _ => 0,
    }
}

pub fn value_in(operand: Operand) -> InstructionValue
    ensures { result ≡ value_in operand }
{
    match operand {
        Operand::Value(x) => x,
        _ => InstructionValue::Slot(RegisterSlot::Zero),
    }
}

pub fn constant_in(operand: Operand) -> u64
    ensures { result ≡ constant_in operand }
{
    match operand {
        Operand::Constant(x) => x,
        _ => 0,
    }
}

pub fn label_in(operand: Operand) -> AddressLabel
    ensures { result ≡ label_in operand }
{
    match operand {
        Operand::Label(x) => x,
        _ => AddressLabel::Constant(0),
    }
}

pub fn offset_in(operand: Operand) -> OffsetOrLabel
    ensures { result ≡ offset_in operand }
{
    match operand {
        Operand::Offset(label, base) => OffsetOrLabel::Offset(label, base),
        _ => OffsetOrLabel::Label(label_in(operand)),
    }
}
