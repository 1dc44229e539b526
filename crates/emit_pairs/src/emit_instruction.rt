// A line's words. The struct has a file of its own, since the definitions that name it are cited by the functions beside it.
ghost use Rattle.std.specs.Prelude.{◌≡◌, ◌≤◌, ◌<◌, [], ◌∷◌, ◌++◌};

use crate::InstructionPair;
use loading::LoadForm;
use pending::InstructionLabel;

// At most five words, the first `count` of the array, and how the line's constant is loaded.
#[derive(Clone, Copy)]
pub struct EmitInstruction {
    pub instructions: [InstructionPair; 5],
    pub count: usize,
    pub loaded: LoadForm,
    pub ghost few: { count ≤ 5 },
}

impl EmitInstruction {
    ghost use Rattle.emit_pairs.specs.Pairs.{EmitIs, pairs_of};

    // Returns the line's words: the first `count`.
    pub fn pairs(&self) -> &[InstructionPair]
        ensures { result.now ≡ pairs_of self.now }
    {
        &self.instructions[..self.count]
    }

    // Returns these words with one more at the end.
    pub fn push(self, word: u32, label: Option<InstructionLabel>) -> EmitInstruction
        requires { self.count < 5 }
        ensures { EmitIs result (pairs_of self ++ (record { word = word; label = label }) ∷ []) self.loaded }
    {
        let mut out = self;
        out.instructions[self.count] = InstructionPair { word, label };
        out.count += 1;
        out
    }
}
