// Adds the label uses of a line's pendings to an index, in place, and says beforehand how long the index will be.
#![tactic(auto)]

ghost use Rattle.std.specs.Prelude.{◌≡◌, ◌+◌, ◌≤◌, length};
ghost use Rattle.record.specs.Records.{limit};
ghost use Rattle.line_uses.specs.LineUses.{next_number, label_has, pair_has, key_among};
ghost use Rattle.line_uses.specs.LineIndex.{LabelGrows, PairGrows, SizeWithLine, RoomForPair, AddsPairTo, RoomForLine, AddsLineTo};

use address_label::AddressLabel;
use emit_pairs::InstructionPair;
use names::Named;
use pending::InstructionLabel;
use std::marker::Model;
use use_adding::{Key, Uses};

// A line's words, some of which wait for a label, with the token list that holds the names, and the labels.
#[derive(Drop)]
pub struct Line<'a> {
    tokens: &'a [u8],
    labels: Named<'a, 4>,
    pairs: &'a [InstructionPair],
}

impl<'a> Model for Line<'a> {
    ghost use Rattle.std.specs.Prelude.{◌≤◌, length};
    ghost use Rattle.line_uses.specs.Line.{LineIn};

    ghost Value = { LineIn };

    ghost view = { λ line. record { names = line.tokens.now; labels = line.labels; pairs = line.pairs.now } };

    ghost invariant = { λ line. length line.pairs.now ≤ 5 };
}

impl<'a> Line<'a> {
    pub fn new(tokens: &'a [u8], labels: Named<'a, 4>, pairs: &'a [InstructionPair]) -> Self
        requires { length pairs.now ≤ 5 }
        ensures { result ≡ (record { names = tokens.now; labels = labels.entry; pairs = pairs.now }) }
    {
        Line {
            tokens,
            labels,
            pairs,
        }
    }

    // Whether the label is a name with this key. Names are compared first, so that a different name is not looked up.
    fn label_has(&self, label: AddressLabel, key: &Key<'_>) -> bool
        ensures { result ≡ label_has self.now.labels self.now.names key.now label }
    {
        match label {
            AddressLabel::Constant(_) => false,
            AddressLabel::Label(l) => {
                let other = address_label::name_of(self.tokens, label);
                name_order::compare(key.name(), other).is_eq()
                    && use_adding::stands(&self.labels, l.location.source, key)
            }
        }
    }

    // Whether the word waits for a name with this key.
    // kept: a `match` here and in `pair_growth`; the closure for `is_some_and` or `map_or` holds `self`, and ensures nothing unless its clauses are written out.
    fn pair_has(&self, waits: Option<InstructionLabel>, key: &Key<'_>) -> bool
        ensures { result ≡ pair_has self.now.labels self.now.names key.now waits }
    {
        match waits {
            None => false,
            Some(x) => self.label_has(x.label, key),
        }
    }

    // Whether one of the words in `before` waits for a name with this key.
    fn among(&self, before: &[InstructionPair], key: &Key<'_>) -> bool
        ensures { result ≡ key_among self.now.labels self.now.names key.now before.now }
    {
        before.iter().any(|pair| self.pair_has(pair.label, key))
    }

    // Returns how many bytes the use of a label adds to the index, once the words in `before` have added theirs.
    fn label_growth(
        &self,
        uses: &Uses<'_>,
        before: &[InstructionPair],
        label: AddressLabel,
    ) -> usize
        requires { length self.now.names ≤ limit }
        ensures { (result ≤ 65549) × LabelGrows self.now.labels self.now.names uses.now (length uses.now) before.now label result }
    {
        match label {
            AddressLabel::Constant(_) => 0,
            AddressLabel::Label(l) => {
                let name = address_label::name_of(self.tokens, label);
                let key = use_adding::key_of(&self.labels, l.location.source, name);
                if uses.find(&key).is_ok() || self.among(before, &key) {
                    return 2;
                }
                13 + name.len()
            }
        }
    }

    // The same for the label that a word waits for, if any.
    fn pair_growth(
        &self,
        uses: &Uses<'_>,
        before: &[InstructionPair],
        waits: Option<InstructionLabel>,
    ) -> usize
        requires { length self.now.names ≤ limit }
        ensures { (result ≤ 65549) × PairGrows self.now.labels self.now.names uses.now (length uses.now) before.now waits result }
    {
        match waits {
            None => 0,
            Some(x) => self.label_growth(uses, before, x.label),
        }
    }

    // Returns the index's length with the line's uses added. Refusal 17 needs it before anything is written.
    pub fn size_with(&self, uses: &Uses<'_>) -> usize
        requires { length self.now.names ≤ limit }
        ensures { SizeWithLine self.now.labels self.now.names uses.now (length uses.now) self.now.pairs result }
    {
        let pairs = self.pairs;
        let mut size = uses.len();
        for (i, pair) in pairs.iter().enumerate() {
            size += self.pair_growth(uses, &pairs[..i], pair.label);
        }
        size
    }

    // Adds the use of the label that a word waits for, if any, as pending number n. Returns the index's new fill count.
    // kept: a `match`, for the reason at `pair_has`; here the closure would also hold the lent index.
    fn add_pair(
        &self,
        index: &mut [u8],
        fill: usize,
        n: u16,
        waits: Option<InstructionLabel>,
    ) -> usize
        requires { RoomForPair self.now.labels self.now.names index.old fill waits n }
        ensures { AddsPairTo self.now.labels self.now.names index.old index.new fill waits n result }
    {
        match waits {
            None => fill,
            Some(x) => {
                use_adding::add_label(&mut *index, fill, self.tokens, x.label, n, &self.labels)
            }
        }
    }

    // Adds the uses of the line's pendings, numbered from `first` on. Returns the index's new fill count.
    pub fn add_to(&self, index: &mut [u8], fill: usize, first: u16) -> usize
        requires { (first ≤ 60000) × RoomForLine self.now.labels self.now.names index.old fill self.now.pairs first }
        ensures { AddsLineTo self.now.labels self.now.names index.old index.new fill self.now.pairs first result }
    {
        let mut filled = fill;
        let mut n = first;
        for pair in self.pairs {
            filled = self.add_pair(&mut *index, filled, n, pair.label);
            n = next_number(n, pair.label);
        }
        filled
    }
}

// Returns the number of the next pending: a word that waits for no label takes none.
fn next_number(n: u16, waits: Option<InstructionLabel>) -> u16
    requires { n ≤ 60005 }
    ensures { result ≡ next_number waits n }
{
    n + u16::from(waits.is_some())
}
