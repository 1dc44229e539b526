// What a line appends, as bytes: its words and its pending records.
#![tactic(auto)]

ghost use Rattle.std.specs.Prelude.{◌≡◌, map, ◌+◌, ◌*◌, ◌^◌, ◌≤◌, ◌<◌, length};
ghost use Rattle.emit_pairs.specs.declared.InstructionPair.{InstructionPair};
ghost use Rattle.emit_pairs.specs.Pairs.{pairs_of};
ghost use Rattle.record.specs.Stores.{le32_bytes, append};
ghost use Rattle.emit_bytes.specs.Appended.{word_bytes, onward, pair_bytes, pendings_bytes, pair_len, pendings_len};

use emit_pairs::{EmitInstruction, InstructionPair};
use pending::{InstructionLabel, Origin};

// "at most five words, each four little-endian bytes": `count_of` says how many of the five are the line's.
pub fn words_of(instructions: [InstructionPair; 5]) -> [[u8; 4]; 5]
    ensures { result ≡ map (λ (p : InstructionPair). le32_bytes p.word) instructions }
{
    instructions.map(
        |pair|
            ensures { result ≡ le32_bytes pair.word }
        { pair.word.to_le_bytes() },
    )
}

// "the count is a second function's answer"
pub fn count_of(count: usize) -> usize
    ensures { result ≡ count }
{
    count
}

// Writes the line's words from `at` on.
pub fn put_words(d: &mut [u8], at: usize, e: EmitInstruction)
    requires { at + 4 * e.count ≤ length d.old }
    ensures { d.new ≡ append d.old at (word_bytes (pairs_of e)) }
{
    let words = words_of(e.instructions);
    for (i, word) in words[..e.count].iter().enumerate() {
        record::put_all(&mut *d, at + 4 * i, &word[..]);
    }
}

// Returns the origin of the next word.
fn onward(origin: Origin) -> Origin
    requires { origin.offset + 4 < 2 ^ 32 }
    ensures { result ≡ onward origin }
{
    Origin {
        offset: origin.offset + 4,
        ..origin
    }
}

// What a line's pending records are made from: its words, and the token list that holds the names they wait for.
#[derive(Clone, Copy)]
pub struct LinePendings<'a> {
    tokens: &'a [u8],
    words: EmitInstruction,
    ghost short: { length tokens.now ≤ 65536 },
}

impl<'a> LinePendings<'a> {
    pub fn new(tokens: &'a [u8], words: EmitInstruction) -> Self
        requires { length tokens.now ≤ 65536 }
        ensures { (result.tokens.now ≡ tokens.now) × (result.words ≡ words) }
    {
        LinePendings { tokens, words }
    }

    // Returns how many bytes the record of one word takes: none if it waits for no label.
    fn pair_size(self, waits: Option<InstructionLabel>) -> usize
        ensures { (result ≡ pair_len self.entry.tokens.now waits) × (result ≤ 65572) }
    {
        let tokens = self.tokens;
        waits.map_or(
            0,
            |waits| 36 + address_label::name_of(tokens, waits.label).len(),
        )
    }

    // Returns how many bytes all records take.
    pub fn size(self) -> usize
        ensures { (result ≡ pendings_len self.entry.tokens.now (pairs_of self.entry.words)) × (result ≤ 327860) }
    {
        self.words
            .pairs()
            .iter()
            .map(|pair| self.pair_size(pair.label))
            .sum()
    }

    // Writes the record of one word, if it waits for a label. Returns the place after it.
    #[tactic(auto, using(record::proofs::StoresLaws::append_none))]
    fn put_pair(
        self,
        d: &mut [u8],
        at: usize,
        origin: Origin,
        waits: Option<InstructionLabel>,
    ) -> usize
        requires { at + pair_len self.tokens.now waits ≤ length d.old }
        ensures { (d.new ≡ append d.old at (pair_bytes self.entry.tokens.now origin waits)) × (result ≡ at + pair_len self.entry.tokens.now waits) }
    {
        let Some(label) = waits else {
            return at;
        };
        pending::put_pending(&mut *d, self.tokens, at, origin, label);
        at + self.pair_size(waits)
    }

    // Writes the records from `at` on, one for each word that waits for a label. `origin` is the first word's.
    pub fn put(self, d: &mut [u8], at: usize, origin: Origin)
        requires offset_fits { origin.offset + 20 < 2 ^ 32 }
        requires in_bounds { at + pendings_len self.tokens.now (pairs_of self.words) ≤ length d.old }
        ensures { d.new ≡ append d.old at (pendings_bytes self.entry.tokens.now origin (pairs_of self.entry.words)) }
    {
        let mut to = at;
        let mut from = origin;
        for pair in self.words.pairs() {
            to = self.put_pair(&mut *d, to, from, pair.label);
            from = onward(from);
        }
    }
}
