// Who uses which label: definitions and theorems on the uses in a pending list, resolved by a label list. This crate has a type with two
// methods and no functions.
#![tactic(auto)]

ghost use Rattle.std.specs.Prelude.{◌≡◌};
ghost use Rattle.label_uses.specs.Uses.{is_known, kept_of};

// What a name stands for: a known label, with its owner, or an unknown name, with its source. "Equal names sort known first, then by it."
#[derive(Clone, Copy, PartialEq, Eq, PartialOrd, Ord)]
pub enum Standing {
    Known(u32),
    Unknown(u32),
}

impl Standing {
    pub fn is_known(self) -> bool
        ensures { result ≡ is_known self }
    {
        matches!(self, Standing::Known(_))
    }

    // Returns the owner or source.
    pub fn kept(self) -> u32
        ensures { result ≡ kept_of self }
    {
        match self {
            Standing::Known(owner) => owner,
            Standing::Unknown(source) => source,
        }
    }
}
