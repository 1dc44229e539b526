// Checks a handed-in index against a pending list and a label list, without making a second index.
#![tactic(auto)]

ghost use Rattle.std.specs.Prelude.{◌≡◌, ◌+◌, ◌≤◌, ◌<◌, length};
ghost use Rattle.std.specs.Option.{ForSome};
ghost use Rattle.std.specs.declared.cmp.Ordering.TheVariants.{Less};
ghost use Rattle.record.specs.Bytes.{same_bytes};
ghost use Rattle.record.specs.Records.{first_bad, limit};
ghost use Rattle.labels.specs.Labels.{label_layout, label_repeat};
ghost use Rattle.pending.specs.Pendings.{label_of, pending_ok};
ghost use Rattle.pending.specs.Pendings.{PendingIs};
ghost use Rattle.label_uses.specs.Uses.{use_order, key_for};
ghost use Rattle.label_uses.specs.UseBytes.{index_of, index_layout};
ghost use Rattle.label_uses.specs.ReadUse.{count_at, key_read};
ghost use Rattle.use_adding.specs.Adding.{UseAt};
ghost use Rattle.index_check.specs.Checks.{Tells, RecordIn, source_in, NumbersFrom, RecordFine, names_in};

use address_label::AddressLabel;
use names::Named;
use std::marker::Model;
use use_adding::{Key, LabelIndex, Pendings};

// What the check finds: where the index breaks its layout, and where a label repeats another's name.
#[derive(Clone, Copy)]
pub struct UsesChecked {
    pub layout: Option<usize>,
    pub repeat: Option<usize>,
}

// kept: a record is passed as its list and its place, because `key_read`, `NumbersFrom` and `RecordFine` in specs/ take both.

// Whether the record at `at` has the form of an index record, with at least one number.
fn record_ok(index: &[u8], at: usize) -> bool
    requires { (at < length index.now) × (length index.now ≤ limit) }
    ensures { Tells result (RecordIn index.now (length index.now) at) }
{
    let fill = index.len();
    if fill < at + 11 {
        return false;
    }
    let count = record::half_at(index, at + 5);
    let end = record::next(index, at);
    record::half_at(index, at + 2) == usize::from(use_adding::USE)
        && index[at + 4] <= use_adding::KNOWN
        && end <= fill
        && count > 0
        && at + 11 + 2 * count <= end
}

// Whether the record at `last` has a smaller key than the record at `at`.
fn key_rises(index: &[u8], last: usize, at: usize) -> bool
    requires { UseAt index.now last × UseAt index.now at }
    ensures { Tells result (use_order (key_read index.now last) (key_read index.now at) ≡ Less) }
{
    use_adding::order_at(index, at, &use_adding::key_at(index, last)).is_lt()
}

// The same, but true for the first record; kept: `RecordFine` in specs/ takes the last place as a number.
fn key_follows(index: &[u8], last: usize, at: usize) -> bool
    requires { (0 < at → UseAt index.now last) × UseAt index.now at }
    ensures { Tells result (0 < at → use_order (key_read index.now last) (key_read index.now at) ≡ Less) }
{
    at == 0 || key_rises(index, last, at)
}

// Returns the source of the name that the pending at `at` waits for, or None if that is not `name`.
fn source_of(pending: &[u8], at: usize, name: &[u8]) -> Option<u32>
    requires { PendingIs pending.now at }
    ensures { result ≡ source_in pending.now name.now (label_of pending.now at) }
{
    let label = pending::read_pending(pending, at).label;
    match label {
        AddressLabel::Constant(_) => None,
        AddressLabel::Label(l) => {
            record::same(address_label::name_of(pending, label), name).then_some(l.location.source)
        }
    }
}

// Counts the pendings that name a label; kept: with `filter` and `count` the proof did not close, because the closure's index is in bounds only
// for the list's own places.
fn count_names(pending: &[u8], places: &[u16]) -> usize
    requires { first_bad (pending_ok 16 pending.now) places.now ≡ None }
    ensures { result ≡ names_in pending.now places.now }
{
    let mut n: usize = 0;
    for &place in places {
        if pending[usize::from(place) + 19] != address_label::CONSTANT {
            n += 1;
        }
    }
    n
}

// The labels, indexed by name, and the pendings with their places.
#[derive(Drop)]
struct Lists<'a> {
    labels: LabelIndex<'a>,
    pending: &'a [u8],
    places: &'a [u16],
}

impl<'a> Model for Lists<'a> {
    ghost use Rattle.index_check.specs.Checks.{ListsIn, Lists};

    ghost Value = { ListsIn };

    ghost view = { λ lists. record { labels = lists.labels; pending = lists.pending.now } };

    ghost invariant = { λ lists. Lists lists.labels lists.pending.now lists.places.now };
}

impl<'a> Lists<'a> {
    // Whether the key's name, used in `source`, has this key. For the source looked up last this is known, and not looked up again.
    fn still_stands(&self, last: Option<u32>, source: u32, key: &Key<'_>) -> bool
        requires { ForSome last (λ known. key_for self.now.labels known key.now.name ≡ key.now) }
        ensures { Tells result (key_for self.now.labels source key.now.name ≡ key.now) }
    {
        last == Some(source) || use_adding::stands(&self.labels, source, key)
    }

    // Whether the numbers of the record at `at` rise, and each one's pending has the record's key.
    // kept: a loop over places in the index, as in `NumbersFrom`; `chunks_exact(2)` knows the bytes that are left, and not their place.
    fn numbers_right(&self, index: &[u8], at: usize) -> bool
        requires { UseAt index.now at }
        ensures { Tells result (NumbersFrom self.now.labels self.now.pending (key_read index.now at) index.now (count_at index.now at) (at + 7) 0) }
    {
        let places = self.places;
        let key = use_adding::key_at(index, at);
        let count = record::half_at(index, at + 5);
        let mut least: usize = 0;
        let mut last: Option<u32> = None;
        for i in 0..count {
            let n = record::half_at(index, at + 7 + 2 * i);
            if n < least {
                return false;
            }
            if n >= places.len() {
                return false;
            }
            let place = usize::from(places[n]);
            let Some(source) = source_of(self.pending, place, key.name()) else {
                return false;
            };
            if !self.still_stands(last, source, &key) {
                return false;
            }
            last = Some(source);
            least = n + 1;
        }
        true
    }

    // Whether the record at `at` is right: its form, its numbers, and, unless it is the first, that its key is above the last one's.
    fn record_fine(&self, index: &[u8], last: usize, at: usize) -> bool
        requires { (at < length index.now) × (length index.now ≤ limit) × (0 < at → UseAt index.now last) }
        ensures { Tells result (RecordFine self.now.labels self.now.pending index.now (length index.now) last at) }
    {
        record_ok(index, at) && key_follows(index, last, at) && self.numbers_right(index, at)
    }

    // Whether the bytes are the index of the pendings.
    fn is_index(&self, index: &[u8]) -> bool
        requires { length index.now ≤ limit }
        ensures { result ≡ same_bytes index.now (index_of self.now.labels self.now.pending) }
    {
        let places = self.places;
        let mut last: usize = 0;
        let mut sum: usize = 0;
        for at in record::places(index) {
            if !self.record_fine(index, last, at) {
                return false;
            }
            sum += record::half_at(index, at + 5);
            last = at;
        }
        sum == count_names(self.pending, places)
    }

    // Refusal 1 for the index: a buffer over the limit, a fill count over its length, or bytes that differ from a fresh index.
    fn check_index(&self, index: &[u8], fill: usize) -> Option<usize>
        ensures { result ≡ index_layout self.now.labels self.now.pending fill index.now }
    {
        // kept: with `or_else` the closure holds `self`, and the goals that are left speak of the closure and not of the lists
        if let Some(place) = breakpoints::filled(index, fill) {
            return Some(place);
        }
        (!self.is_index(&index[..fill])).then_some(0)
    }
}

// Checks a handed-in index, and looks for a label that repeats another's name. The index is checked while labels may still repeat, because a wrong
// index is refused before a repeated name.
pub fn check_uses(index: &[u8], fill: usize, pending: &Pendings<'_>, labels: &[u8]) -> UsesChecked
    requires { label_layout labels.now ≡ None }
    ensures { (result.layout ≡ index_layout labels.now pending.now fill index.now) × (result.repeat ≡ label_repeat labels.now) }
{
    let mut order = [0u16; labels::MOST];
    let mut spare = [0u16; labels::MOST];
    let mut places = [0u16; pending::MOST];
    let pending = pending.bytes();
    let n = name_index::fill(&Named::<0>::new(pending), &mut places);
    let lists = Lists {
        labels: LabelIndex::make(labels, &mut order, &mut spare),
        pending,
        places: &places[..n],
    };
    let layout = lists.check_index(index, fill);
    let repeat = lists.labels.first_repeat();
    UsesChecked { layout, repeat }
}
