// A word under construction, and the methods that set its fields (the top of emit.rs).
#![tactic(auto)]

ghost use Rattle.std.specs.Prelude.{◌≡◌, ◌+◌, ◌*◌, ◌^◌, ◌≤◌, ◌<◌};
ghost use Rattle.field.specs.Field.{set_field, or_field};
ghost use Rattle.registers.specs.Numbers.{register_number, fp_register_number};
ghost use Rattle.instructions.specs.Bases.{instruction_base};
ghost use Rattle.jobs.specs.Jobs.{size_code};

use instructions::Opcode;
use jobs::Format;
use registers::{FPRegisterSlot, RegisterSlot, Slot};

// `width` bits of a word, from bit `offset` on.
#[derive(Clone, Copy)]
struct Field {
    offset: u32,
    width: u32,
}

// Where the five-bit fields begin. The float formats have fmt, ft, fs and fd there.
const RS: u32 = 21;

const RT: u32 = 16;

const FT: u32 = 16;

const RD: u32 = 11;

const SA: u32 = 6;

// A half-built word. Its own type, so that only `finish` turns it into a number.
#[derive(Clone, Copy)]
pub struct InstructionBuilder(u32);

impl Field {
    // Returns the five-bit field at `offset`, for a register, a float format or a shift amount.
    fn five_bits(offset: u32) -> Field
        ensures { (result.offset ≡ offset) × (result.width ≡ 5) }
    {
        Field { offset, width: 5 }
    }
}

impl InstructionBuilder {
    pub fn from_op(op: Opcode) -> InstructionBuilder
        ensures { result.0 ≡ instruction_base op }
    {
        InstructionBuilder(instructions::instruction_base(op))
    }

    // Clears the field and ORs `value` in there.
    fn with_field(self, field: Field, value: u32) -> InstructionBuilder
        requires { (field.offset + field.width ≤ 32) × (field.width < 32) × (field.offset < 32) × (value * 2 ^ field.offset < 2 ^ 32) }
        ensures { result.0 ≡ or_field self.0 field.offset field.width value }
    {
        let mask = ((1u32 << field.width) - 1) << field.offset;
        InstructionBuilder((self.0 & !mask) | (value << field.offset))
    }

    // Sets the five-bit field at `offset` to a register's or a float format's number.
    fn with_number_offset(self, offset: u32, number: u32) -> InstructionBuilder
        requires { (offset + 5 ≤ 32) × (number < 32) }
        ensures { result.0 ≡ set_field self.0 offset 5 number }
    {
        self.with_field(Field::five_bits(offset), number)
    }

    fn with_slot_offset<S: Slot>(self, offset: u32, slot: S) -> InstructionBuilder
        requires { offset + 5 ≤ 32 }
        ensures { result.0 ≡ set_field self.0 offset 5 (S.number slot) }
    {
        self.with_number_offset(offset, slot.number())
    }

    pub fn with_dest(self, slot: RegisterSlot) -> InstructionBuilder
        ensures { result.0 ≡ set_field self.0 11 5 (register_number slot) }
    {
        self.with_slot_offset(RD, slot)
    }

    pub fn with_temp(self, slot: RegisterSlot) -> InstructionBuilder
        ensures { result.0 ≡ set_field self.0 16 5 (register_number slot) }
    {
        self.with_slot_offset(RT, slot)
    }

    pub fn with_source(self, slot: RegisterSlot) -> InstructionBuilder
        ensures { result.0 ≡ set_field self.0 21 5 (register_number slot) }
    {
        self.with_slot_offset(RS, slot)
    }

    pub fn with_immediate(self, imm: u16) -> InstructionBuilder
        ensures { result.0 ≡ set_field self.0 0 16 imm }
    {
        self.with_field(
            Field {
                offset: 0,
                width: 16,
            },
            u32::from(imm),
        )
    }

    // A shift amount over 31 spills into rd.
    pub fn with_sham(self, sham: u8) -> InstructionBuilder
        ensures { result.0 ≡ or_field self.0 6 5 sham }
    {
        self.with_field(Field::five_bits(SA), u32::from(sham))
    }

    pub fn with_fp_source(self, slot: FPRegisterSlot) -> InstructionBuilder
        ensures { result.0 ≡ set_field self.0 11 5 (fp_register_number slot) }
    {
        self.with_slot_offset(RD, slot)
    }

    pub fn with_fp_source_value(self, value: u8) -> InstructionBuilder
        ensures { result.0 ≡ or_field self.0 11 5 value }
    {
        self.with_field(Field::five_bits(RD), u32::from(value))
    }

    pub fn with_fp_dest(self, slot: FPRegisterSlot) -> InstructionBuilder
        ensures { result.0 ≡ set_field self.0 6 5 (fp_register_number slot) }
    {
        self.with_slot_offset(SA, slot)
    }

    pub fn with_fp_dest_value(self, value: u8) -> InstructionBuilder
        ensures { result.0 ≡ or_field self.0 6 5 value }
    {
        self.with_field(Field::five_bits(SA), u32::from(value))
    }

    pub fn with_fp_temp(self, slot: FPRegisterSlot) -> InstructionBuilder
        ensures { result.0 ≡ set_field self.0 16 5 (fp_register_number slot) }
    {
        self.with_slot_offset(FT, slot)
    }

    // A condition code over 7 spills into the field above.
    pub fn with_fp_temp_value(self, value: u8) -> InstructionBuilder
        ensures { result.0 ≡ or_field self.0 16 5 value }
    {
        self.with_field(Field::five_bits(FT), u32::from(value))
    }

    pub fn with_fp_fmt(self, fmt: Format) -> InstructionBuilder
        ensures { result.0 ≡ set_field self.0 21 5 (size_code fmt) }
    {
        self.with_number_offset(RS, jobs::size_code(fmt))
    }

    pub fn finish(self) -> u32
        ensures { result ≡ self.0 }
    {
        self.0
    }
}
