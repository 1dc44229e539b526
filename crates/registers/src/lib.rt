// The general registers and the float registers (registers.rs): 32 of each, and their numbers.
#![tactic(auto)]

ghost use Rattle.std.specs.Prelude.{◌≡◌, ℕ, ◌<◌};
ghost use Rattle.registers.specs.Numbers.{register_number, fp_register_number};
ghost use Rattle.registers.specs.Slots.{register_of, fp_register_of};

#[derive(Clone, Copy, PartialEq, Eq)]
pub enum RegisterSlot {
    Zero,
    AssemblerTemporary,
    Value0,
    Value1,
    Parameter0,
    Parameter1,
    Parameter2,
    Parameter3,
    Temporary0,
    Temporary1,
    Temporary2,
    Temporary3,
    Temporary4,
    Temporary5,
    Temporary6,
    Temporary7,
    Saved0,
    Saved1,
    Saved2,
    Saved3,
    Saved4,
    Saved5,
    Saved6,
    Saved7,
    Temporary8,
    Temporary9,
    Kernel0,
    Kernel1,
    GeneralPointer,
    StackPointer,
    FramePointer,
    ReturnAddress,
}

#[derive(Clone, Copy, PartialEq, Eq)]
pub enum FPRegisterSlot {
    F0,
    F1,
    F2,
    F3,
    F4,
    F5,
    F6,
    F7,
    F8,
    F9,
    F10,
    F11,
    F12,
    F13,
    F14,
    F15,
    F16,
    F17,
    F18,
    F19,
    F20,
    F21,
    F22,
    F23,
    F24,
    F25,
    F26,
    F27,
    F28,
    F29,
    F30,
    F31,
}

// A general or a float register: one of 32.
pub trait Slot: Copy {
    ghost number: { Self → ℕ };

    // Returns the register's number, which fits a five-bit field.
    fn number(self) -> u32
        ensures value { result ≡ number self }
        ensures below { result < 32 };
}

// kept: an impl and a table for each enum; Rattle refuses `as u32` of a type parameter, and `From` for every `Slot`.
impl Slot for RegisterSlot {
    ghost number = { register_number };

    fn number(self) -> u32 {
        self as u32
    }
}

impl Slot for FPRegisterSlot {
    ghost number = { fp_register_number };

    fn number(self) -> u32 {
        self as u32
    }
}

const SLOTS: [RegisterSlot; 32] = [
    RegisterSlot::Zero,
    RegisterSlot::AssemblerTemporary,
    RegisterSlot::Value0,
    RegisterSlot::Value1,
    RegisterSlot::Parameter0,
    RegisterSlot::Parameter1,
    RegisterSlot::Parameter2,
    RegisterSlot::Parameter3,
    RegisterSlot::Temporary0,
    RegisterSlot::Temporary1,
    RegisterSlot::Temporary2,
    RegisterSlot::Temporary3,
    RegisterSlot::Temporary4,
    RegisterSlot::Temporary5,
    RegisterSlot::Temporary6,
    RegisterSlot::Temporary7,
    RegisterSlot::Saved0,
    RegisterSlot::Saved1,
    RegisterSlot::Saved2,
    RegisterSlot::Saved3,
    RegisterSlot::Saved4,
    RegisterSlot::Saved5,
    RegisterSlot::Saved6,
    RegisterSlot::Saved7,
    RegisterSlot::Temporary8,
    RegisterSlot::Temporary9,
    RegisterSlot::Kernel0,
    RegisterSlot::Kernel1,
    RegisterSlot::GeneralPointer,
    RegisterSlot::StackPointer,
    RegisterSlot::FramePointer,
    RegisterSlot::ReturnAddress,
];

// Converts a number to its general register; a number over 31 gives the last.
impl From<u8> for RegisterSlot {
    ghost from_gives = { λ n slot. slot ≡ register_of n };

    fn from(n: u8) -> Self {
        SLOTS[usize::from(n.min(31))]
    }
}

const FP_SLOTS: [FPRegisterSlot; 32] = [
    FPRegisterSlot::F0,
    FPRegisterSlot::F1,
    FPRegisterSlot::F2,
    FPRegisterSlot::F3,
    FPRegisterSlot::F4,
    FPRegisterSlot::F5,
    FPRegisterSlot::F6,
    FPRegisterSlot::F7,
    FPRegisterSlot::F8,
    FPRegisterSlot::F9,
    FPRegisterSlot::F10,
    FPRegisterSlot::F11,
    FPRegisterSlot::F12,
    FPRegisterSlot::F13,
    FPRegisterSlot::F14,
    FPRegisterSlot::F15,
    FPRegisterSlot::F16,
    FPRegisterSlot::F17,
    FPRegisterSlot::F18,
    FPRegisterSlot::F19,
    FPRegisterSlot::F20,
    FPRegisterSlot::F21,
    FPRegisterSlot::F22,
    FPRegisterSlot::F23,
    FPRegisterSlot::F24,
    FPRegisterSlot::F25,
    FPRegisterSlot::F26,
    FPRegisterSlot::F27,
    FPRegisterSlot::F28,
    FPRegisterSlot::F29,
    FPRegisterSlot::F30,
    FPRegisterSlot::F31,
];

// Converts a number to its float register; a number over 31 gives the last.
impl From<u8> for FPRegisterSlot {
    ghost from_gives = { λ n slot. slot ≡ fp_register_of n };

    fn from(n: u8) -> Self {
        FP_SLOTS[usize::from(n.min(31))]
    }
}
