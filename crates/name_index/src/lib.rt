// An ordered index of a list's names, made in lent arrays. Finds a record by owner and name, and the first record that repeats both.
#![tactic(auto)]

ghost use Rattle.std.specs.Prelude.{◌≡◌, true, not, ◌+◌, ◌≤◌, ◌<◌, length, take, drop, get_or};
ghost use Rattle.record.specs.Records.{places, first_bad, limit};
ghost use Rattle.names.specs.Owners.{has_owned_name, owned_repeat};
ghost use Rattle.name_index.specs.Index.{IndexOf, below, names_rise, standing, told, lookup_from, lookup};
ghost use Rattle.name_index.specs.Index.{owned_first};

use names::{Named, NamedRecord};
use std::cmp::Ordering;
use std::marker::Model;

// A list of named records with the ordered index of its names.
#[derive(Drop)]
pub struct NameIndex<'a, const SKIP: usize> {
    list: Named<'a, SKIP>,
    order: &'a [u16],
}

impl<'a, const SKIP: usize> Model for NameIndex<'a, SKIP> {
    ghost use Rattle.name_index.specs.Ordered.{Ordered};

    ghost Value = { Ordered };

    ghost use Rattle.name_index.specs.Index.{IndexOf};

    ghost view = { λ index. record { list = index.list; order = index.order.now } };

    ghost invariant = { λ index. IndexOf SKIP index.list index.order.now };
}

// Where a name stands, how many names were compared to find it, and where in the index the search ended.
#[derive(Clone, Copy)]
pub struct Looked {
    pub named: Option<usize>,
    pub compared: u32,
    pub end: usize,
}

impl<'a, const SKIP: usize> NameIndex<'a, SKIP> {
    pub fn new(list: Named<'a, SKIP>, order: &'a [u16]) -> Self
        requires { IndexOf SKIP list order.now }
        ensures { result ≡ (record { list = list.entry; order = order.now }) }
    {
        NameIndex { list, order }
    }

    // Makes the index of the list in `order`. `spare` is scratch.
    pub fn make(list: Named<'a, SKIP>, order: &'a mut [u16], spare: &mut [u16]) -> Self
        requires list_len_bound { length list ≤ limit }
        requires places_in_bounds { (length (places list) ≤ length order.old) × (length (places list) ≤ length spare.old) }
        ensures { (result.list ≡ list.entry) × IndexOf SKIP result.list result.order }
    {
        let n = make(&list, &mut *order, spare);
        NameIndex::new(list, &order[..n])
    }

    // Returns the list's bytes.
    pub fn bytes(&self) -> &'a [u8]
        ensures value { result.now ≡ self.now.list }
        ensures named { first_bad (has_owned_name SKIP self.now.list) (places self.now.list) ≡ None }
    {
        self.list.bytes()
    }

    // Returns the places of the list's records, in the order of their names.
    pub fn order(&self) -> &'a [u16]
        ensures value { result.now ≡ self.now.order }
        ensures index_of { IndexOf SKIP self.now.list self.now.order }
    {
        self.order
    }

    // Returns the record at position `i` of the index.
    pub fn record(&self, i: usize) -> NamedRecord<'a, SKIP>
        requires { i < length self.now.order }
        ensures value { (result.list.now ≡ self.now.list) × (result.at ≡ get_or self.now.order i 0) }
        ensures index_of { IndexOf SKIP self.now.list self.now.order }
    {
        NamedRecord::new(self.list.bytes(), usize::from(self.order[i]))
    }

    // Looks up the record with that owner and name. Counts comparisons on from `before`.
    // kept: a loop over `lo` and `hi`, as no library search counts its comparisons and says where it ended.
    pub fn find_from(&self, owner: u32, name: &[u8], before: u32) -> Looked
        requires { (length self.now.order < 65536) × (before < 65536) }
        ensures { result ≡ lookup_from SKIP self.now.list self.now.order owner name.now before }
    {
        let mut lo = 0;
        let mut hi = self.order.len();
        let mut compared = before;
        while lo < hi {
            let mid = lo + (hi - lo) / 2;
            let named = self.record(mid);
            match stands(named, owner, name, &mut compared) {
                Ordering::Less => lo = mid + 1,
                Ordering::Equal => {
                    return Looked {
                        named: Some(named.at),
                        compared,
                        end: mid,
                    };
                }
                Ordering::Greater => hi = mid,
            }
        }
        Looked {
            named: None,
            compared,
            end: lo,
        }
    }

    // As `find_from`, with no comparison before.
    #[tactic(auto, unfolding(crate::specs::Index::lookup))]
    pub fn find(&self, owner: u32, name: &[u8]) -> Looked
        requires { length self.now.order < 65536 }
        ensures { result ≡ lookup SKIP self.now.list self.now.order owner name.now }
    {
        self.find_from(owner, name, 0)
    }

    // Whether the record at position `i` has the owner and name of an earlier one. Equal ones are neighbours, so it compares with the one before.
    fn repeats(&self, i: usize) -> bool
        requires { (0 < i) × (i < length self.now.order) }
        ensures { owned_first SKIP self.now.list (get_or self.now.order i 0) ≡ not result }
    {
        let named = self.record(i);
        self.record(i - 1).is_owned(named.owner(), named.name())
    }

    // Returns the place of the first record that has the owner and name of an earlier one.
    // kept: a loop over positions; with `filter`, `map` and `min` nothing is known of the generic closure, and its clauses would be longer than the loop.
    pub fn first_repeat(&self) -> Option<usize>
        ensures { result ≡ owned_repeat SKIP self.now.list }
    {
        let order = self.order();
        let mut best = None;
        for i in 1..order.len() {
            let p = usize::from(order[i]);
            if best.is_none_or(|best| p < best) && self.repeats(i) {
                best = Some(p);
            }
        }
        best
    }
}

// Writes the places of the list's records into `index`, and returns their count. The rest of `index` stays.
// kept: `n` is counted by hand, since the count is the answer too: with `enumerate` the records would be counted twice.
pub fn fill<const SKIP: usize>(list: &Named<'_, SKIP>, index: &mut [u16]) -> usize
    requires { (length list.now ≤ limit) × (length (places list.now) ≤ length index.old) }
    ensures { (result ≡ length (places list.now)) × (take result index.new ≡ places list.now) × (drop result index.new ≡ drop result index.old) }
{
    let mut n = 0;
    for at in record::places(list.bytes()) {
        index[n] = at as u16;
        n += 1;
    }
    n
}

// Whether the name and owner of `p` go before the name and owner of `q`.
fn is_below<const SKIP: usize>(p: NamedRecord<'_, SKIP>, q: NamedRecord<'_, SKIP>) -> bool
    requires { p.list.now ≡ q.list.now }
    ensures { result ≡ below SKIP p.entry.list.now p.entry.at q.entry.at }
{
    name_sort::stands(p, q.owner(), q.name()).is_lt()
}

// Whether each record's name and owner go before the next one's. Then no two are the same, and no index is needed to tell.
pub fn rises<const SKIP: usize>(list: &Named<'_, SKIP>) -> bool
    ensures { result ≡ names_rise SKIP list.now }
{
    let mut places = record::places(list.bytes());
    let Some(mut last) = places.next() else {
        return true;
    };
    for at in places {
        if !is_below(list.record(last), list.record(at)) {
            return false;
        }
        last = at;
    }
    true
}

// Makes the index of the list's records, and returns their count. `spare` is scratch.
pub fn make<const SKIP: usize>(
    list: &Named<'_, SKIP>,
    index: &mut [u16],
    spare: &mut [u16],
) -> usize
    requires { (length list.now ≤ limit) × (length (places list.now) ≤ length index.old) × (length (places list.now) ≤ length spare.old) }
    ensures { (result ≡ length (places list.now)) × IndexOf SKIP list.now (take result index.new) }
{
    let n = fill(list, index);
    name_sort::sort::<SKIP>(list.bytes(), &mut index[..n], spare);
    n
}

// Compares a record's name, then its owner, and counts the comparison. A lookup compares names only here and in `is_owned`.
fn stands<const SKIP: usize>(
    named: NamedRecord<'_, SKIP>,
    owner: u32,
    name: &[u8],
    compared: &mut u32,
) -> Ordering
    requires { compared.old < 131072 }
    ensures { (result ≡ standing SKIP named.entry.list.now owner name.now named.entry.at) × (compared.new ≡ compared.old + 1) }
{
    *compared += 1;
    name_sort::stands(named, owner, name)
}

// Whether a record has that owner and name. Looks at the owner first: if it differs, the name is not compared.
pub fn is_owned<const SKIP: usize>(
    named: NamedRecord<'_, SKIP>,
    owner: u32,
    name: &[u8],
    compared: &mut u32,
) -> bool
    requires { compared.old < 131072 }
    ensures { told SKIP named.entry.list.now owner name.now named.entry.at compared.old ≡ (record { same = result; compared = compared.new }) }
{
    if named.owner() == owner {
        *compared += 1;
        record::same(named.name(), name)
    } else {
        false
    }
}
