// Finds the macro that a name calls among the macros above a place in the macro list, and the first macro that repeats a name.
#![tactic(auto)]

ghost use Rattle.std.specs.Prelude.{◌≡◌, true, MatchOption, ◌≤◌, ◌<◌, length};
ghost use Rattle.record.specs.Bytes.{same_bytes};
ghost use Rattle.record.specs.Records.{places};
ghost use Rattle.name_index.specs.Index.{IndexOf};
ghost use Rattle.macros.specs.Macros.{name_at, name_ok, macro_repeat};
ghost use Rattle.macro_lookup.specs.Lookup.{CalleeIs};

use macros::Macros;
use name_index::NameIndex;
use names::Named;

// The most macros in a list: each takes at least seven bytes.
const MOST: usize = 9362;

// A list of at most this many macros is short.
const FEW: usize = 64;

// Whether the macro with these bytes has the name.
fn is_named(list: &[u8], name: &[u8]) -> bool
    requires { name_ok list.now 0 ≡ true }
    ensures { result ≡ same_bytes (name_at list.now 0) name.now }
{
    let end = macros::behind_name(list, 0);
    record::same(&list[1..end], name)
}

// Returns the place of the last macro before `limit` that has the name.
pub fn callee(macros: &Macros<'_>, limit: usize, name: &[u8]) -> Option<usize>
    requires { limit ≤ length macros.now.bytes.now }
    ensures { MatchOption result (CalleeIs macros.now.bytes.now name.now limit limit) (λ k. CalleeIs macros.now.bytes.now name.now limit k × (k < limit)) }
{
    let macros = macros.bytes;
    let mut found: Option<usize> = None;
    for at in record::places(&macros[..limit]) {
        if is_named(macros::body_at(macros, at), name) {
            found = Some(at);
        }
    }
    found
}

// Whether two macros, given as bytes, have the same name.
fn same_name(list: &[u8], other: &[u8]) -> bool
    requires { (name_ok list.now 0 ≡ true) × (name_ok other.now 0 ≡ true) }
    ensures { result ≡ same_bytes (name_at list.now 0) (name_at other.now 0) }
{
    let end = macros::behind_name(other, 0);
    is_named(list, &other[1..end])
}

// Returns the first macro that has the name of an earlier one. The index sorts macros by their bytes, which begin with the name, so macros
// of one name are neighbours. `low` is the least place seen with the current name.
fn repeat_in(macros: &Macros<'_>, index: &[u16]) -> Option<usize>
    requires { IndexOf 0 macros.now.bytes.now index.now }
    ensures { result ≡ macro_repeat macros.now.bytes.now }
{
    let (&first, others) = index.split_first()?;
    let mut best: Option<usize> = None;
    let mut low = usize::from(first);
    for &other in others {
        let p = usize::from(other);
        if !same_name(
            macros::body_at(macros.bytes, p),
            macros::body_at(macros.bytes, low),
        ) {
            low = p;
        } else if p < low {
            best = Some(best.unwrap_or(low).min(low));
            low = p;
        } else {
            best = Some(best.unwrap_or(p).min(p));
        }
    }
    best
}

// The same for a list of at most `N` macros.
fn repeat_by<const N: usize>(macros: &Macros<'_>) -> Option<usize>
    requires { (N ≤ 65536) × (length (places macros.now.bytes.now) ≤ N) }
    ensures { result ≡ macro_repeat macros.now.bytes.now }
{
    let mut index = [0u16; N];
    let mut spare = [0u16; N];
    let list: Named<'_, 0> = Named::new(macros.bytes);
    let index = NameIndex::make(list, &mut index, &mut spare);
    repeat_in(macros, index.order())
}

// Returns the first macro that has the name of an earlier one. A short list gets small arrays.
pub fn first_repeat(macros: &Macros<'_>) -> Option<usize>
    ensures { result ≡ macro_repeat macros.now.bytes.now }
{
    if macros.bytes.len() <= 7 * FEW {
        repeat_by::<FEW>(macros)
    } else {
        repeat_by::<MOST>(macros)
    }
}
