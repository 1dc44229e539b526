// The mnemonic record and the instruction table: a list of descriptor records instead of the Rust's map from names.
#![tactic(auto)]

ghost use Rattle.std.specs.Prelude.{◌≡◌, ◌+◌, ◌≤◌, length, take};
ghost use Rattle.descriptors.specs.Mnemonics.{mnemonic_ok, mnemonic_layout, mnemonic_name, mnemonic_location, ZeroFrom};
ghost use Rattle.descriptors.specs.Descriptors.{most_size, most_flag, most_present, most_alternative, fields_ok, descriptor_ok, descriptor_layout, descriptor_repeat, find_descriptor, opcode_from, size_from, alternative_at, instruction_at};

mod numbers;

use instructions::{Encoding, Opcode, Size};
use name_index::NameIndex;
use names::Named;
use record::Location;
use std::marker::Model;

// The kinds of the two records.
const MNEMONIC: usize = 32;

const DESCRIPTOR: usize = 33;

// The most descriptors that a list can hold: each has at least 13 bytes.
const MOST: usize = 5041;

// A row of the instruction table: the opcode and the layout of a mnemonic's word.
#[derive(Clone, Copy)]
pub struct Instruction {
    pub opcode: Opcode,
    pub encoding: Encoding,
}

// The mnemonic in lower case: its first `len` bytes, then zeros.
#[derive(Clone, Copy)]
pub struct Mnemonic {
    pub bytes: [u8; 16],
    pub len: usize,
    pub location: Location,
}

// The layout of the mnemonic record.
#[derive(Clone, Copy)]
struct MnemonicLayout;

impl record::Layout for MnemonicLayout {
    ghost keeps = { λ self s at. mnemonic_ok s at };

    #[tactic(auto, unfolding(crate::specs::Mnemonics::mnemonic_ok))]
    fn keeps(&self, list: &[u8], at: usize) -> bool {
        record::whole_at(list, at)
            && record::half_at(list, at + 2) == MNEMONIC
            && record::half_at(list, at) >= 8
            && record::half_at(list, at) <= 24
            && record::all_text(&list[at + 12..record::next(list, at)])
    }
}

// Returns the place of the first record that breaks the layout: 0 if the list is empty, the limit if it is too long.
#[tactic(auto, using(crate::proofs::MnemonicsLaws::mnemonic_none, crate::proofs::MnemonicsLaws::mnemonic_first))]
pub fn first_bad_mnemonic(list: &[u8]) -> Option<usize>
    ensures { result ≡ mnemonic_layout list.now }
{
    if list.is_empty() {
        return Some(0);
    }
    record::first_bad_of_within(&MnemonicLayout, list, 1)
}

// Reads the list's one mnemonic, in lower case.
pub fn read_mnemonic(list: &[u8]) -> Mnemonic
    requires { mnemonic_layout list.now ≡ None }
    ensures { (take result.len result.bytes ≡ mnemonic_name list.now) × (result.len ≤ 16)
        × (result.location ≡ mnemonic_location list.now) × ZeroFrom result.len result.bytes }
{
    let len = record::half_at(list, 0) - 8;
    let location = record::location_at(list, 4);
    let mut bytes = [0u8; 16];
    record::put_all(&mut bytes, 0, &list[12..12 + len]);
    bytes.make_ascii_lowercase();
    Mnemonic {
        bytes,
        len,
        location,
    }
}

// A descriptor's fixed fields: a list, and the place of the record in it.
#[derive(Clone, Copy)]
pub struct Descriptor<'a> {
    list: &'a [u8],
    at: usize,
    ghost fits: { at + 12 ≤ length list.now },
}

impl<'a> Descriptor<'a> {
    pub fn new(list: &'a [u8], at: usize) -> Self
        requires { at + 12 ≤ length list.now }
        ensures { (result.list.now ≡ list.now) × (result.at ≡ at) }
    {
        Descriptor { list, at }
    }

    // Whether each field holds a value that a descriptor may have.
    #[tactic(auto, unfolding(crate::specs::Descriptors::fields_ok))]
    fn fields_ok(self) -> bool
        ensures { result ≡ fields_ok self.entry.list.now self.entry.at }
    {
        let encoding = self.list[self.at + 6];
        let present = self.list[self.at + 9];
        self.list[self.at + 4] <= numbers::COP1I
            && encoding <= numbers::FP_BRANCH
            && self.list[self.at + 7] <= most_size(encoding)
            && self.list[self.at + 8] <= most_flag(encoding)
            && present <= most_present(encoding)
            && self.list[self.at + 10] <= most_alternative(present, numbers::COP1I)
            && self.list[self.at + 11] <= most_alternative(present, 255)
    }

    fn alternative(self) -> Option<Opcode>
        ensures { result ≡ alternative_at self.entry.list.now self.entry.at }
    {
        let opcode = opcode_from(self.list[self.at + 10], self.list[self.at + 11]);
        (self.list[self.at + 9] == 1).then_some(opcode)
    }

    // Returns the encoding, with the size, flag or alternative that it carries.
    fn encoding(self) -> Encoding
        ensures { result ≡ (instruction_at self.entry.list.now self.entry.at).encoding }
    {
        let size = size_from(self.list[self.at + 7]);
        let flag = self.list[self.at + 8] == 1;
        let alternative = self.alternative();
        match self.list[self.at + 6] {
            numbers::REGISTER => Encoding::Register,
            numbers::REGISTER_SHIFT => Encoding::RegisterShift,
            numbers::SOURCE => Encoding::Source,
            numbers::DESTINATION => Encoding::Destination,
            numbers::INPUTS => Encoding::Inputs,
            numbers::SHAM => Encoding::Sham,
            numbers::SPECIAL_BRANCH => Encoding::SpecialBranch,
            numbers::IMMEDIATE => Encoding::Immediate(alternative),
            numbers::LOAD_IMMEDIATE => Encoding::LoadImmediate,
            numbers::JUMP => Encoding::Jump,
            numbers::BRANCH => Encoding::Branch,
            numbers::BRANCH_ZERO => Encoding::BranchZero,
            numbers::PARAMETERLESS => Encoding::Parameterless,
            numbers::OFFSET => Encoding::Offset,
            numbers::FP_OFFSET => Encoding::FPOffset,
            numbers::FP_3REGISTER => Encoding::FP3Register(size),
            numbers::FP_2REGISTER => Encoding::FP2Register(size),
            numbers::FP_MOVE => Encoding::FPMove { size, flag },
            numbers::FP_COND => Encoding::FPCond(size),
            numbers::FP_CROSS_MOVE => Encoding::FPCrossMove { flag },
            _ => Encoding::FPBranch { flag },
        }
    }

    pub fn instruction(self) -> Instruction
        ensures { result ≡ instruction_at self.entry.list.now self.entry.at }
    {
        Instruction {
            opcode: opcode_from(self.list[self.at + 4], self.list[self.at + 5]),
            encoding: self.encoding(),
        }
    }
}

fn most_size(encoding: u8) -> u8
    ensures { result ≡ most_size encoding }
{
    match encoding {
        numbers::FP_3REGISTER..=numbers::FP_COND => numbers::WORD,
        _ => 0,
    }
}

fn most_flag(encoding: u8) -> u8
    ensures { result ≡ most_flag encoding }
{
    u8::from(matches!(encoding, numbers::FP_MOVE | numbers::FP_CROSS_MOVE..))
}

fn most_present(encoding: u8) -> u8
    ensures { result ≡ most_present encoding }
{
    u8::from(encoding == numbers::IMMEDIATE)
}

// Returns the greatest value of a field of the alternative: `most` if there is an alternative, else 0.
fn most_alternative(present: u8, most: u8) -> u8
    ensures { result ≡ most_alternative present most }
{
    if present == 1 { most } else { 0 }
}

// The layout of a list of descriptors.
#[derive(Clone, Copy)]
struct DescriptorLayout;

impl record::Layout for DescriptorLayout {
    ghost keeps = { λ self s at. descriptor_ok s at };

    #[tactic(auto, unfolding(crate::specs::Descriptors::descriptor_ok))]
    fn keeps(&self, list: &[u8], at: usize) -> bool {
        record::whole_at(list, at)
            && record::half_at(list, at + 2) == DESCRIPTOR
            && record::half_at(list, at) >= 9
            && record::half_at(list, at) <= 24
            && Descriptor::new(list, at).fields_ok()
            && record::all_text(&list[at + 12..record::next(list, at)])
    }
}

// Returns the place of the first record that is no descriptor, or the limit if the list is too long.
#[tactic(auto, unfolding(crate::specs::Descriptors::descriptor_layout))]
pub fn first_bad_descriptor(list: &[u8]) -> Option<usize>
    ensures { result ≡ descriptor_layout list.now }
{
    record::first_bad_within(&DescriptorLayout, list)
}

// A list of descriptors that keeps its layout.
#[derive(Drop)]
pub struct Descriptors<'a> {
    list: &'a [u8],
}

impl<'a> Model for Descriptors<'a> {
    ghost use Rattle.std.specs.Prelude.{◌≡◌, ℕ, List, None};
    ghost use Rattle.descriptors.specs.Descriptors.{descriptor_layout};

    ghost Value = { List ℕ };

    ghost view = { λ descriptors. descriptors.list.now };

    ghost invariant = { λ descriptors. descriptor_layout descriptors.list.now ≡ None };
}

impl<'a> Descriptors<'a> {
    pub fn new(list: &'a [u8]) -> Self
        requires { descriptor_layout list.now ≡ None }
        ensures { result ≡ list.now }
    {
        Descriptors { list }
    }

    // Returns the records with their names.
    fn named(&self) -> Named<'a, 8>
        ensures value { result ≡ self.now }
        ensures layout { descriptor_layout self.now ≡ None }
    {
        Named::new(self.list)
    }

    // Returns the first descriptor that shares its name with an earlier one. Makes an index to find it.
    fn repeat_by_index(&self) -> Option<usize>
        ensures { result ≡ descriptor_repeat self.now }
    {
        let mut order = [0u16; MOST];
        let mut spare = [0u16; MOST];
        NameIndex::make(self.named(), &mut order, &mut spare).first_repeat()
    }

    // Returns the first descriptor that shares its name with an earlier one. If the names rise, there is none and no index is made.
    pub fn first_repeat(&self) -> Option<usize>
        ensures { result ≡ descriptor_repeat self.now }
    {
        if name_index::rises(&self.named()) {
            return None;
        }
        self.repeat_by_index()
    }

    // Returns the row of the descriptor at `place`.
    pub fn instruction(&self, place: usize) -> Instruction
        requires { place + 12 ≤ length self.now }
        ensures { result ≡ instruction_at self.now place }
    {
        Descriptor::new(self.list, place).instruction()
    }

    // Returns the place of the descriptor with that name.
    pub fn find(&self, name: &[u8]) -> Option<usize>
        ensures { result ≡ find_descriptor self.now name.now }
    {
        self.named().find(names::FOR_ALL, name)
    }
}

fn opcode_from(class: u8, key: u8) -> Opcode
    ensures { result ≡ opcode_from class key }
{
    match class {
        numbers::OP => Opcode::Op(key),
        numbers::FUNC => Opcode::Func(key),
        numbers::SPECIAL => Opcode::Special(key),
        numbers::ALGEBRA => Opcode::Algebra(key),
        numbers::COP1 => Opcode::Cop1(key),
        _ => Opcode::Cop1I(key),
    }
}

fn size_from(n: u8) -> Size
    ensures { result ≡ size_from n }
{
    match n {
        numbers::SINGLE => Size::Single,
        numbers::DOUBLE => Size::Double,
        _ => Size::Word,
    }
}
