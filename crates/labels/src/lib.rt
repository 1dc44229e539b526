// The label table: a list of label records instead of the Rust's map from names to addresses.
#![tactic(auto)]

ghost use Rattle.std.specs.Prelude.{◌≡◌, ◌+◌, ◌≤◌, length, true, None};
ghost use Rattle.std.specs.Option.{ForSome};
ghost use Rattle.record.specs.Records.{limit, places};
ghost use Rattle.names.specs.Owners.{has_owned_name};
ghost use Rattle.labels.specs.Labels.{label_kind, label_ok, label_layout, label_repeat, labelled, resolve};
ghost use Rattle.labels.specs.Lookup.{most_labels, Indexed, TableOf, looked_for_all, looked_up};
ghost use Rattle.name_index.specs.Index.{IndexOf};

use name_index::{Looked, NameIndex};
use names::{Named, NamedRecord};
use refusal::Refusal;
use std::marker::Model;

// An address, and how many names were compared to find it.
#[derive(Clone, Copy)]
pub struct Found {
    pub address: Option<u32>,
    pub compared: u32,
}

// The most labels a list can hold: each takes at least nine bytes.
pub const MOST: usize = 7281;

// The record kind of a label for all files.
const LABEL: usize = 34;

// Whether a record has a label's kind: 34, or 41 with an owner below `FOR_ALL`.
fn kind_ok(label: NamedRecord<'_, 4>) -> bool
    ensures { result ≡ label_kind label.entry.list.now label.entry.at }
{
    record::half_at(label.list, label.at + 2) == LABEL || label.owner() < names::FOR_ALL
}

// The layout of a list of labels.
#[derive(Clone, Copy)]
struct Labels;

impl record::Layout for Labels {
    ghost keeps = { λ self s at. label_ok s at };

    fn keeps(&self, labels: &[u8], at: usize) -> bool {
        let Some(label) = NamedRecord::read(labels, at) else {
            return false;
        };
        if !kind_ok(label) {
            return false;
        }
        let name = label.name();
        let len = name.len();
        match len {
            1..=64 => record::all_text(name),
            _ => false,
        }
    }
}

// Returns the place of the first record that is not a label, or the limit if the list is longer.
#[tactic(auto, unfolding(crate::specs::Labels::label_layout))]
pub fn first_bad_label(labels: &[u8]) -> Option<usize>
    ensures { result ≡ label_layout labels.now }
{
    record::first_bad_within(&Labels, labels)
}

// Makes the index of a list of labels in `order`. `spare` is scratch.
pub fn make_index<'a>(labels: &'a [u8], order: &'a mut [u16], spare: &mut [u16]) -> NameIndex<'a, 4>
    requires labels_value { label_layout labels.now ≡ None }
    requires places_in_bounds { (length (places labels.now) ≤ length order.old) × (length (places labels.now) ≤ length spare.old) }
    ensures { (result.list ≡ labels.now) × (length result.order ≤ most_labels) × IndexOf 4 result.list result.order }
{
    NameIndex::make(Named::new(labels), order, spare)
}

// A list of labels that passed its checks, with the ordered index of its names.
#[derive(Drop)]
pub struct LabelTable<'a> {
    index: NameIndex<'a, 4>,
}

impl<'a> Model for LabelTable<'a> {
    ghost use Rattle.name_index.specs.Ordered.{Ordered};
    ghost use Rattle.labels.specs.Lookup.{Indexed};

    ghost Value = { Ordered };

    ghost view = { λ table. table.index };

    ghost invariant = { λ table. Indexed table.index.list table.index.order };
}

impl<'a> LabelTable<'a> {
    pub fn new(index: NameIndex<'a, 4>) -> Self
        requires { (label_layout index.list ≡ None) × (label_repeat index.list ≡ None) }
        ensures { result ≡ index.entry }
    {
        // called for its contract: the order is an index of the list's names
        let _ = index.order();
        LabelTable { index }
    }

    // Makes the table of a list that keeps its layout, with its index in `order`, or refuses a name that is repeated. `spare` is scratch.
    pub fn make(labels: &'a [u8], order: &'a mut [u16], spare: &mut [u16]) -> Result<Self, Refusal>
        requires labels_value { label_layout labels.now ≡ None }
        requires places_in_bounds { (length (places labels.now) ≤ length order.old) × (length (places labels.now) ≤ length spare.old) }
        ensures { TableOf labels.now result }
    {
        let index = make_index(labels, order, spare);
        refusal::check_names(0, index.first_repeat())?;
        Ok(LabelTable::new(index))
    }

    // Returns the list's bytes.
    pub fn bytes(&self) -> &'a [u8]
        ensures value { result.now ≡ self.now.list }
        ensures indexed { Indexed self.now.list self.now.order }
    {
        self.index.bytes()
    }

    // Returns the index of the list's names.
    pub fn index(&self) -> &NameIndex<'a, 4>
        ensures value { result.now ≡ self.now }
        ensures indexed { Indexed self.now.list self.now.order }
    {
        &self.index
    }

    // Looks up the name's label for all files, first at `end`, where the search for the source's own ended. Counts comparisons on from `before`.
    fn look_for_all(&self, end: usize, name: &[u8], before: u32) -> Looked
        requires { before ≤ 13 }
        ensures { result ≡ looked_for_all self.now.list self.now.order end name.now before }
    {
        let order = self.index.order();
        if end >= order.len() {
            return self.index.find_from(names::FOR_ALL, name, before);
        }
        let label = self.index.record(end);
        let mut compared = before;
        if name_index::is_owned(label, names::FOR_ALL, name, &mut compared) {
            return Looked {
                named: Some(label.at),
                compared,
                end,
            };
        }
        self.index.find_from(names::FOR_ALL, name, compared)
    }

    // Looks up a name: first the source's own label, then the label for all. Counts the names compared.
    pub fn look_up(&self, source: u32, name: &[u8]) -> Looked
        ensures { result ≡ looked_up self.now.list self.now.order source name.now }
    {
        let own = self.index.find(source, name);
        match own.named {
            Some(_) => own,
            None => self.look_for_all(own.end, name, own.compared),
        }
    }

    // Returns the place of the name's label.
    pub fn find(&self, source: u32, name: &[u8]) -> Option<usize>
        ensures found { result ≡ labelled self.now.list source name.now }
        ensures within { ForSome result (λ place. place + 9 ≤ limit) }
    {
        // borrowed for the table's invariant, which the proof knows where a field is used
        let _ = &self.index;
        self.look_up(source, name).named
    }

    // Returns the address of the name's label, and how many names were compared.
    pub fn get(&self, source: u32, name: &[u8]) -> Found
        ensures { (result.address ≡ resolve self.now.list source name.now) × (result.compared ≡ (looked_up self.now.list self.now.order source name.now).compared) × (result.compared ≤ 32) }
    {
        let looked = self.look_up(source, name);
        let labels = self.index.bytes();
        Found {
            address: looked.named.map(|at| record::word_at(labels, at + 4)),
            compared: looked.compared,
        }
    }
}
