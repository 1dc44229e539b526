// The words that load a constant into a register (load_immediate of emit.rs), proved by running them.
#![tactic(auto)]

ghost use Rattle.std.specs.Prelude.{◌≡◌, [], ◌∷◌, ◌%◌};
ghost use Rattle.registers.specs.Numbers.{register_number};
ghost use Rattle.word.specs.Layout.{immediate_layout};
ghost use Rattle.loading.specs.Contract.{LoadedIs};

use instructions::Opcode;
use registers::RegisterSlot;
use word::InstructionBuilder;

// How a constant is loaded: addiu alone, ori alone, lui alone, or both halves. `Nothing`: no constant is loaded.
#[derive(Clone, Copy, PartialEq, Eq)]
pub enum LoadForm {
    Nothing,
    Addiu,
    Ori,
    Lui,
    BothHalves,
}

// One or two words, their count and their form; an unused word is 0. An array with a count, as there is no heap.
#[derive(Clone, Copy, PartialEq, Eq)]
pub struct Loaded {
    pub words: [u32; 2],
    pub count: usize,
    pub form: LoadForm,
}

// Returns the words that load the constant's low 32 bits into a register.
pub fn load_immediate(constant: u64, into: RegisterSlot) -> Loaded
    ensures { LoadedIs constant (register_number into) result.words result.count result.form }
{
    let zero = RegisterSlot::Zero;
    let low = (constant % 0x1_0000_0000) as u32;
    let top = (low / 0x1_0000) as u16;
    let bottom = (low % 0x1_0000) as u16;
    if low < 0x8000 || 0xFFFF_8000 <= low {
        return one(LoadForm::Addiu, immediate_word(9, zero, into, bottom));
    }
    if top == 0 {
        return one(LoadForm::Ori, immediate_word(13, zero, into, bottom));
    }
    let lui = immediate_word(15, zero, into, top);
    if bottom == 0 {
        return one(LoadForm::Lui, lui);
    }
    let ori = immediate_word(13, into, into, bottom);
    Loaded {
        words: [lui, ori],
        count: 2,
        form: LoadForm::BothHalves,
    }
}

fn one(form: LoadForm, word: u32) -> Loaded
    ensures { (result.words ≡ word ∷ 0 ∷ []) × (result.count ≡ 1) × (result.form ≡ form) }
{
    Loaded {
        words: [word, 0],
        count: 1,
        form,
    }
}

// Returns the word of addiu, ori or lui, by its opcode.
fn immediate_word(opcode: u8, source: RegisterSlot, temp: RegisterSlot, imm: u16) -> u32
    ensures { result ≡ immediate_layout (opcode % 64) (register_number source) (register_number temp) imm }
{
    InstructionBuilder::from_op(Opcode::Op(opcode))
        .with_temp(temp)
        .with_source(source)
        .with_immediate(imm)
        .finish()
}
