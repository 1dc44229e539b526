// Indexes of label uses: their keys, reading an index, adding a use in place, and making an index afresh.
#![tactic(auto)]

ghost use Rattle.std.specs.Prelude.{◌≡◌, ◌+◌, ◌*◌, ◌-◌, ◌≤◌, ◌<◌, ◌^◌, ℕ, List, length, get_or};
ghost use Rattle.std.specs.Option.{is_some};
ghost use Rattle.record.specs.Bytes.{le16, part};
ghost use Rattle.record.specs.Records.{places, first_bad, limit};
ghost use Rattle.record.specs.Stores.{append};
ghost use Rattle.names.specs.Owners.{first_owned};
ghost use Rattle.std.specs.Ordering.{is_eq};
ghost use Rattle.name_index.specs.Index.{IndexOf};
ghost use Rattle.labels.specs.Labels.{label_layout, label_repeat};
ghost use Rattle.labels.specs.Lookup.{most_labels};
ghost use Rattle.pending.specs.Pendings.{label_of, pending_ok};
ghost use Rattle.pending.specs.Pendings.{PendingIs};
ghost use Rattle.label_uses.specs.Uses.{use_order, one_use, key_for, kept_of};
ghost use Rattle.label_uses.specs.UseBytes.{use_bytes};
ghost use Rattle.label_uses.specs.ReadUse.{key_with, key_read, owner_place};
ghost use Rattle.use_adding.specs.Adding.{AnIndex, AnIndexWithRoom, FindsIn, UseAt, AddsTo, SizeWith, grown_at};
ghost use Rattle.use_adding.specs.Making.{AddsOneTo, KeepsOwners, RoomForOne, Made};

use address_label::AddressLabel;
use label_uses::Standing;
use name_index::NameIndex;
use names::Named;
use std::cmp::Ordering;
use std::marker::Model;

// The record kind of a use.
pub const USE: u16 = 39;

// The byte that says that a use's name is known; 0 says that it is not.
pub const KNOWN: u8 = 1;

// The key of a use: a name, and what it stands for.
#[derive(Drop)]
pub struct Key<'a> {
    name: &'a [u8],
    standing: Standing,
}

impl<'a> Model for Key<'a> {
    ghost use Rattle.label_uses.specs.Uses.{UseKey};
    ghost use Rattle.label_uses.specs.ReadUse.{key_with};

    ghost Value = { UseKey };

    ghost view = { λ key. key_with key.name.now key.standing };
}

impl<'a> Key<'a> {
    pub fn new(name: &'a [u8], standing: Standing) -> Self
        ensures { result ≡ key_with name.now standing }
    {
        Key { name, standing }
    }

    pub fn name(&self) -> &'a [u8]
        ensures { result.now ≡ self.now.name }
    {
        self.name
    }
}

// A pending list that keeps its layout and is within the limit.
#[derive(Drop)]
pub struct Pendings<'a> {
    bytes: &'a [u8],
}

impl<'a> Model for Pendings<'a> {
    ghost use Rattle.std.specs.Prelude.{◌≡◌, ◌≤◌, ◌<◌, ℕ, List, None, length, get_or};
    ghost use Rattle.record.specs.Records.{places, first_bad, limit};
    ghost use Rattle.pending.specs.Pendings.{pending_ok};

    ghost Value = { List ℕ };

    ghost view = { λ pending. pending.bytes.now };

    ghost invariant = { λ pending. (first_bad (pending_ok 16 pending.bytes.now) (places pending.bytes.now) ≡ None) × (length pending.bytes.now ≤ limit) × ((i : ℕ) → get_or pending.bytes.now i 0 < 256) };
}

impl<'a> Pendings<'a> {
    pub fn new(bytes: &'a [u8]) -> Self
        requires { (first_bad (pending_ok 16 bytes.now) (places bytes.now) ≡ None) × (length bytes.now ≤ limit) }
        ensures { result ≡ bytes.now }
    {
        Pendings { bytes }
    }

    pub fn bytes(&self) -> &'a [u8]
        ensures value { result.now ≡ self.now }
        ensures kept { (first_bad (pending_ok 16 self.now) (places self.now) ≡ None) × (length self.now ≤ limit) }
        ensures bytes_fit { (i : ℕ) → get_or self.now i 0 < 256 }
    {
        self.bytes
    }

    // Returns how many pendings the list has.
    pub fn count(&self) -> u16
        ensures { (result ≡ length (places self.now)) × (result ≤ 1820) }
    {
        record::places(self.bytes).count() as u16
    }
}

// A label list with a sorted index of its names.
#[derive(Drop)]
pub struct LabelIndex<'a> {
    index: NameIndex<'a, 4>,
}

impl<'a> Model for LabelIndex<'a> {
    ghost use Rattle.std.specs.Prelude.{◌<◌, ℕ, List, length};
    ghost use Rattle.name_index.specs.Index.{IndexOf};

    ghost Value = { List ℕ };

    ghost view = { λ labels. labels.index.list };

    ghost invariant = { λ labels. IndexOf 4 labels.index.list labels.index.order × (length labels.index.order < 65536) };
}

impl<'a> LabelIndex<'a> {
    pub fn new(index: NameIndex<'a, 4>) -> Self
        requires { IndexOf 4 index.list index.order × (length index.order < 65536) }
        ensures { result ≡ index.entry.list }
    {
        LabelIndex { index }
    }

    // Makes the index in `order`; `spare` is scratch. Labels may repeat a name.
    pub fn make(labels: &'a [u8], order: &'a mut [u16], spare: &mut [u16]) -> Self
        requires labels_value { label_layout labels.now ≡ None }
        requires most_labels_in_bounds { (most_labels ≤ length order.old) × (most_labels ≤ length spare.old) }
        ensures { result ≡ labels.now }
    {
        LabelIndex::new(labels::make_index(labels, order, spare))
    }

    // Returns the first label that shares its name and owner with an earlier one.
    pub fn first_repeat(&self) -> Option<usize>
        ensures { result ≡ label_repeat self.now }
    {
        self.index.first_repeat()
    }
}

// Labels that can be searched by owner and name: by a scan or by an index.
pub trait Labels {
    ghost list: { Self → List ℕ };

    // Whether a label has that owner and name.
    fn has(&self, owner: u32, name: &[u8]) -> bool
        ensures { result ≡ is_some (first_owned 4 (list self.now) owner name.now) };
}

impl<'a> Labels for Named<'a, 4> {
    ghost list = { λ labels. labels };

    fn has(&self, owner: u32, name: &[u8]) -> bool {
        self.find(owner, name).is_some()
    }
}

impl<'a> Labels for LabelIndex<'a> {
    ghost list = { λ labels. labels };

    #[tactic(auto, using(crate::proofs::LabelsLaws::index_has))]
    fn has(&self, owner: u32, name: &[u8]) -> bool {
        self.index.find(owner, name).named.is_some()
    }
}

// Returns what a name in this source stands for. Labels may share owner and name.
pub fn standing_of<L: Labels>(labels: &L, source: u32, name: &[u8]) -> Standing
    ensures { (key_with name.now result ≡ key_for (L.list labels.now) source name.now) × (kept_of result < 2 ^ 32) }
{
    if labels.has(source, name) {
        return Standing::Known(source);
    }
    if labels.has(names::FOR_ALL, name) {
        return Standing::Known(names::FOR_ALL);
    }
    Standing::Unknown(source)
}

// Returns the key of a name in this source.
pub fn key_of<'a, L: Labels>(labels: &L, source: u32, name: &'a [u8]) -> Key<'a>
    ensures { (result ≡ key_for (L.list labels.now) source name.now) × (kept_of result.standing < 2 ^ 32) }
{
    Key::new(name, standing_of(labels, source, name))
}

// Whether the key's name, used in this source, stands for what the key says.
#[tactic(auto, using(label_uses::proofs::UseOrderLaws::standings_decide))]
pub fn stands<L: Labels>(labels: &L, source: u32, key: &Key<'_>) -> bool
    ensures { result ≡ is_eq (use_order key.now (key_for (L.list labels.now) source key.now.name)) }
{
    key.standing == standing_of(labels, source, key.name)
}

// Returns the name in the record at `at`.
fn name_at(index: &[u8], at: usize) -> &[u8]
    requires { UseAt index.now at }
    ensures { result.now ≡ (key_read index.now at).name }
{
    let from = at + 7 + 2 * record::half_at(index, at + 5) + 4;
    let end = record::next(index, at);
    &index[from..end]
}

// Returns what the name in the record at `at` stands for.
fn standing_at(index: &[u8], at: usize) -> Standing
    requires { UseAt index.now at }
    ensures { result ≡ (key_read index.now at).standing }
{
    let owner_at = at + 7 + 2 * record::half_at(index, at + 5);
    let kept = record::word_at(index, owner_at);
    if index[at + 4] == KNOWN {
        Standing::Known(kept)
    } else {
        Standing::Unknown(kept)
    }
}

// Returns the key of the record at `at`.
pub fn key_at(index: &[u8], at: usize) -> Key<'_>
    requires { UseAt index.now at }
    ensures { result ≡ key_read index.now at }
{
    Key::new(name_at(index, at), standing_at(index, at))
}

// Compares the key with the record at `at`.
pub fn order_at(index: &[u8], at: usize, key: &Key<'_>) -> Ordering
    requires { UseAt index.now at }
    ensures { result ≡ use_order key.now (key_read index.now at) }
{
    let standing = key.standing;
    let by_name = name_order::compare(key.name, name_at(index, at));
    by_name.then_with(|| standing.cmp(&standing_at(index, at)))
}

// The filled part of an index, for reading.
#[derive(Drop)]
pub struct Uses<'a> {
    bytes: &'a [u8],
}

impl<'a> Model for Uses<'a> {
    ghost use Rattle.std.specs.Prelude.{ℕ, List, length};
    ghost use Rattle.use_adding.specs.Adding.{AnIndex};

    ghost Value = { List ℕ };

    ghost view = { λ uses. uses.bytes.now };

    ghost invariant = { λ uses. AnIndex uses.bytes.now (length uses.bytes.now) };
}

impl<'a> Uses<'a> {
    pub fn new(bytes: &'a [u8]) -> Self
        requires { AnIndex bytes.now (length bytes.now) }
        ensures { result ≡ bytes.now }
    {
        Uses { bytes }
    }

    // Returns the index's length.
    pub fn len(&self) -> usize
        ensures { (result ≡ length self.now) × (result ≤ limit) }
    {
        self.bytes.len()
    }

    // Finds a key: Ok has the place of its record, Err the place where it sorts.
    pub fn find(&self, key: &Key<'_>) -> Result<usize, usize>
        ensures { FindsIn self.now key.now result }
    {
        let bytes = self.bytes;
        // kept: a `while`, since `places` asks of each record whether it is whole, and making an index walks it once for each use
        let mut at = 0;
        while at < bytes.len() {
            match order_at(bytes, at, key) {
                Ordering::Less => return Err(at),
                Ordering::Equal => return Ok(at),
                Ordering::Greater => at = record::next(bytes, at),
            }
        }
        Err(at)
    }

    // Returns the index's length after one more use of the key, to check for refusal 17 before anything is written.
    pub fn size_with(&self, key: &Key<'_>) -> usize
        requires { length key.now.name ≤ 65536 }
        ensures { SizeWith self.now (length self.now) key.now result }
    {
        match self.find(key) {
            Ok(_) => self.bytes.len() + 2,
            Err(_) => self.bytes.len() + 13 + key.name.len(),
        }
    }
}

// kept: functions that write take the whole buffer and its fill count, since the bytes after the count are room for one more use.

// Moves the bytes from `at` to `fill` up by n.
#[tactic(auto, using(std::proofs::lemmas::Grind::common_steps), unfolding(record::specs::Stores::append))]
pub fn move_up(d: &mut [u8], at: usize, fill: usize, n: usize)
    requires { (at ≤ fill) × (fill + n ≤ length d.old) }
    ensures { d.new ≡ append d.old (at + n) (part d.old at (fill - at)) }
{
    d.copy_within(at..fill, at + n);
}

// Appends one number to the record at `at`: inserts two bytes, and updates the record's length and count.
fn put_number(d: &mut [u8], fill: usize, at: usize, n: u16)
    requires { (owner_place d.old at ≤ fill) × (fill + 2 ≤ length d.old) × (le16 d.old at + 2 < 65536) × (le16 d.old (at + 5) + 1 < 65536) }
    ensures { d.new ≡ grown_at d.old fill at n (le16 d.old at) (le16 d.old (at + 5)) }
{
    let len = record::half_at(&*d, at);
    let count = record::half_at(&*d, at + 5);
    let to = at + 7 + 2 * count;
    move_up(&mut *d, to, fill, 2);
    record::put16(&mut *d, to, n);
    record::put16(&mut *d, at, (len + 2) as u16);
    record::put16(&mut *d, at + 5, (count + 1) as u16);
}

// Inserts a record at `at` with n as its only number.
fn put_use(d: &mut [u8], fill: usize, at: usize, key: &Key<'_>, n: u16)
    requires { (at ≤ fill) × (fill + 13 + length key.now.name ≤ length d.old) × (length d.old ≤ 65536) }
    ensures { d.new ≡ append (append d.old (at + (13 + length key.now.name)) (part d.old at (fill - at))) at (use_bytes (one_use key.now n)) }
{
    let name = key.name;
    move_up(&mut *d, at, fill, 13 + name.len());
    record::put_head(&mut *d, at, (9 + name.len()) as u16, USE);
    d[at + 4] = u8::from(key.standing.is_known());
    record::put16(&mut *d, at + 5, 1);
    record::put16(&mut *d, at + 7, n);
    record::put32(&mut *d, at + 9, key.standing.kept());
    record::put_all(&mut *d, at + 13, name);
}

// Adds pending n to the uses of the key. Returns the index's new fill count.
pub fn add_use(index: &mut [u8], fill: usize, key: &Key<'_>, n: u16) -> usize
    requires { AnIndexWithRoom index.old fill key.now n }
    ensures { AddsTo index.old index.new fill key.now n result }
{
    let place = Uses::new(&index[..fill]).find(key);
    match place {
        Ok(at) => {
            put_number(&mut *index, fill, at, n);
            fill + 2
        }
        Err(at) => {
            put_use(&mut *index, fill, at, key, n);
            fill + 13 + key.name.len()
        }
    }
}

// Adds pending n to the uses of its label, whose name is in `names`; a constant adds nothing. Returns the index's new fill count.
pub fn add_label<L: Labels>(
    index: &mut [u8],
    fill: usize,
    names: &[u8],
    label: AddressLabel,
    n: u16,
    labels: &L,
) -> usize
    requires { RoomForOne index.old (L.list labels.now) names.now fill label n }
    ensures adds { AddsOneTo index.old index.new (L.list labels.now) names.now fill label n result }
    ensures owners { KeepsOwners (L.list labels.now) names.now label n }
{
    match label {
        AddressLabel::Constant(_) => fill,
        AddressLabel::Label(l) => {
            let name = address_label::name_of(names, label);
            let key = key_of(labels, l.location.source, name);
            add_use(&mut *index, fill, &key, n)
        }
    }
}

// Makes the index of a pending list afresh, in a buffer at least as long as the list. Returns its fill count.
pub fn fill_index(d: &mut [u8], pending: &Pendings<'_>, labels: &LabelIndex<'_>) -> usize
    requires { (length pending.now ≤ length d.old) × (length d.old ≤ 65536) }
    ensures { Made d.old d.new labels.now pending.now result }
{
    let list = pending.bytes;
    let mut fill: usize = 0;
    for (n, at) in record::places(list).enumerate() {
        let label = pending::read_pending(list, at).label;
        fill = add_label(&mut *d, fill, list, label, n as u16, labels);
    }
    fill
}
