// Finds a register by the name that a text has after `$` (registers.rs, `from_string`).
#![tactic(auto)]

ghost use Rattle.std.specs.Prelude.{◌≡◌, true, [], ◌+◌, ◌*◌, ◌<◌, ◌≤◌, MatchOption, length, get_or};
ghost use Rattle.std.proofs.Props.{props};
ghost use Rattle.record.specs.Bytes.{all};
ghost use Rattle.byte_class.specs.Class.{word_byte};
ghost use Rattle.register_names.specs.RegisterNames.{names, place_of, register_named};
ghost use Rattle.register_names.specs.Padded.{byte_or_blank, key_of, padded_names};

use registers::{FPRegisterSlot, RegisterSlot};

#[derive(Clone, Copy)]
pub enum NamedRegister {
    General(RegisterSlot),
    Float(FPRegisterSlot),
}

const COUNT: usize = 96;

// How many bytes the longest name has, and each name takes in the table.
const WIDTH: usize = 4;

// The names in the order of the registers' numbers, then the numbers as names, then the names of the float registers.
const NAMES: [u8; 384] = *b"\
    zeroat  v0  v1  a0  a1  a2  a3  \
    t0  t1  t2  t3  t4  t5  t6  t7  \
    s0  s1  s2  s3  s4  s5  s6  s7  \
    t8  t9  k0  k1  gp  sp  fp  ra  \
    0   1   2   3   4   5   6   7   \
    8   9   10  11  12  13  14  15  \
    16  17  18  19  20  21  22  23  \
    24  25  26  27  28  29  30  31  \
    f0  f1  f2  f3  f4  f5  f6  f7  \
    f8  f9  f10 f11 f12 f13 f14 f15 \
    f16 f17 f18 f19 f20 f21 f22 f23 \
    f24 f25 f26 f27 f28 f29 f30 f31 ";

// The table as a value. A constant array is made anew at each use, so a reader of a text makes one value and lends it.
#[derive(Clone, Copy)]
pub struct RegisterNames {
    table: [u8; 384],
    ghost of_names: { table ≡ padded_names } by { Prim.hlevel props },
}

impl RegisterNames {
    pub fn new() -> Self {
        RegisterNames { table: NAMES }
    }

    // Returns the four bytes at a place of the table, as one number.
    fn key_at(&self, place: usize) -> u32
        requires { place < 96 }
        ensures { result ≡ key_of (get_or names place []) }
    {
        record::word_at(&self.table, 4 * place)
    }

    // Returns the name's place in the table.
    fn place_of(&self, name: &[u8]) -> Option<usize>
        requires { all word_byte name.now ≡ true }
        ensures { MatchOption result (96 ≤ place_of name.now names) (λ p. (p ≡ place_of name.now names) × (p < 96)) }
    {
        if WIDTH < name.len() {
            return None;
        }
        let key = key_of(name);
        (0..COUNT).position(move |place| self.key_at(place) == key)
    }

    // Returns the register with this name, which is letters and digits.
    pub fn register_named(&self, name: &[u8]) -> Option<NamedRegister>
        requires { all word_byte name.now ≡ true }
        ensures { result ≡ register_named name.now }
    {
        let place = self.place_of(name)?;
        match place {
            0..=31 => Some(NamedRegister::General(RegisterSlot::from(place as u8))),
            32..=63 => Some(NamedRegister::General(RegisterSlot::from((place - 32) as u8))),
            _ => Some(NamedRegister::Float(FPRegisterSlot::from((place - 64) as u8))),
        }
    }
}

fn byte_or_blank(name: &[u8], i: usize) -> u8
    ensures { result ≡ byte_or_blank name.now i }
{
    name.get(i).copied().unwrap_or(b' ')
}

// Returns the four bytes that a name has in the table, as one number.
fn key_of(name: &[u8]) -> u32
    ensures { result ≡ key_of name.now }
{
    u32::from_le_bytes(std::array::from_fn(|i| byte_or_blank(name, i)))
}
