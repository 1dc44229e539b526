// The pseudo-instructions and their names (emit.rs).
#![tactic(auto)]

ghost use Rattle.std.specs.Prelude.{◌≡◌};
ghost use Rattle.pseudo_names.specs.PseudoNames.{pseudo_of};

// A pseudo-instruction. A custom branch or set says how it compares.
#[derive(Clone, Copy)]
pub enum Pseudo {
    Nop,
    Abs,
    BranchCustom {
        greater_than: bool,
        result_true: bool,
        unsigned: bool,
    },
    SetCustom {
        greater_than: bool,
        result_true: bool,
        unsigned: bool,
    },
    Beqz,
    Bnez,
    Seq,
    Sne,
    Neg,
    Negu,
    Not,
    Li,
    La,
    Move,
    B,
    Subi,
    Subiu,
}

// The names, in the order of emit.rs. A static, since a constant would be made anew at each call.
static NAMES: [(&[u8], Pseudo); 29] = [
    (b"nop", Pseudo::Nop),
    (b"abs", Pseudo::Abs),
    (
        b"blt",
        Pseudo::BranchCustom {
            greater_than: false,
            result_true: true,
            unsigned: false,
        },
    ),
    (
        b"bgt",
        Pseudo::BranchCustom {
            greater_than: true,
            result_true: true,
            unsigned: false,
        },
    ),
    (
        b"ble",
        Pseudo::BranchCustom {
            greater_than: true,
            result_true: false,
            unsigned: false,
        },
    ),
    (
        b"bge",
        Pseudo::BranchCustom {
            greater_than: false,
            result_true: false,
            unsigned: false,
        },
    ),
    (
        b"bltu",
        Pseudo::BranchCustom {
            greater_than: false,
            result_true: true,
            unsigned: true,
        },
    ),
    (
        b"bgtu",
        Pseudo::BranchCustom {
            greater_than: true,
            result_true: true,
            unsigned: true,
        },
    ),
    (
        b"bleu",
        Pseudo::BranchCustom {
            greater_than: true,
            result_true: false,
            unsigned: true,
        },
    ),
    (
        b"bgeu",
        Pseudo::BranchCustom {
            greater_than: false,
            result_true: false,
            unsigned: true,
        },
    ),
    (
        b"sge",
        Pseudo::SetCustom {
            greater_than: false,
            result_true: false,
            unsigned: false,
        },
    ),
    (
        b"sgt",
        Pseudo::SetCustom {
            greater_than: true,
            result_true: true,
            unsigned: false,
        },
    ),
    (
        b"sle",
        Pseudo::SetCustom {
            greater_than: true,
            result_true: false,
            unsigned: false,
        },
    ),
    (
        b"sgeu",
        Pseudo::SetCustom {
            greater_than: false,
            result_true: false,
            unsigned: true,
        },
    ),
    (
        b"sgtu",
        Pseudo::SetCustom {
            greater_than: true,
            result_true: true,
            unsigned: true,
        },
    ),
    (
        b"sleu",
        Pseudo::SetCustom {
            greater_than: true,
            result_true: false,
            unsigned: true,
        },
    ),
    (b"beqz", Pseudo::Beqz),
    (b"bnez", Pseudo::Bnez),
    (b"seq", Pseudo::Seq),
    (b"sne", Pseudo::Sne),
    (b"neg", Pseudo::Neg),
    (b"negu", Pseudo::Negu),
    (b"not", Pseudo::Not),
    (b"li", Pseudo::Li),
    (b"la", Pseudo::La),
    (b"move", Pseudo::Move),
    (b"b", Pseudo::B),
    (b"subi", Pseudo::Subi),
    (b"subiu", Pseudo::Subiu),
];

// Returns the pseudo-instruction with that name.
pub fn pseudo_of(name: &[u8]) -> Option<Pseudo>
    ensures { result ≡ pseudo_of name.now }
{
    NAMES
        .iter()
        .find(|named| record::same(name, named.0))
        .map(|named| named.1)
}
