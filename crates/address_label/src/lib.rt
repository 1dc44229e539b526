// A constant, or a name with an offset (AddressLabel of binary.rs), as pending and entry records hold it. Also the entry record.
#![tactic(auto)]

ghost use Rattle.std.specs.Prelude.{◌≡◌, ◌+◌, ◌≤◌, length};
ghost use Rattle.record.specs.Records.{places};
ghost use Rattle.record.specs.Stores.{append};
ghost use Rattle.address_label.specs.AddressLabels.{address_label_ok, address_label_at};
ghost use Rattle.address_label.specs.LabelBytes.{name_bytes, label_bytes};
ghost use Rattle.address_label.specs.Entries.{entry_ok, entry_layout, entry_of};

use record::Location;

// The record kind.
const ENTRY: usize = 38;

// The forms: a constant's first byte, and a name's.
pub const CONSTANT: u8 = 0;

const LABEL: u8 = 1;

// A name with an offset; where the name stands in its list.
#[derive(Clone, Copy)]
pub struct NamedLabel {
    pub name_at: usize,
    pub name_len: usize,
    pub location: Location,
    pub offset: u64,
}

#[derive(Clone, Copy)]
pub enum AddressLabel {
    Constant(u64),
    Label(NamedLabel),
}

// Whether the bytes from `at` to the record's end are a constant or a name.
#[tactic(auto, unfolding(crate::specs::AddressLabels::address_label_ok))]
pub fn address_label_ok(list: &[u8], at: usize, end: usize) -> bool
    requires { (at + 17 ≤ end) × (end ≤ length list.now) }
    ensures { result ≡ address_label_ok list.now at end }
{
    match list[at] {
        CONSTANT => {
            end == at + 17
                && record::word_at(list, at + 9) == 0
                && record::word_at(list, at + 13) == 0
        }
        LABEL => at + 18 <= end && end <= at + 81 && record::all_text(&list[at + 17..end]),
        _ => false,
    }
}

pub fn address_label_at(list: &[u8], at: usize, end: usize) -> AddressLabel
    requires { (at + 17 ≤ end) × (end ≤ length list.now) }
    ensures { result ≡ address_label_at list.now at end }
{
    let offset = record::long_at(list, at + 1);
    if list[at] == CONSTANT {
        return AddressLabel::Constant(offset);
    }
    AddressLabel::Label(NamedLabel {
        name_at: at + 17,
        name_len: end - (at + 17),
        location: record::location_at(list, at + 9),
        offset,
    })
}

// The layout of an entry.
#[derive(Clone, Copy)]
struct EntryLayout;

impl record::Layout for EntryLayout {
    ghost keeps = { λ self s at. entry_ok s at };

    #[tactic(auto, unfolding(crate::specs::Entries::entry_ok))]
    fn keeps(&self, list: &[u8], at: usize) -> bool {
        record::whole_at(list, at)
            && record::half_at(list, at + 2) == ENTRY
            && record::half_at(list, at) >= 17
            && address_label_ok(list, at + 4, record::next(list, at))
    }
}

// Returns the place of the first record that breaks the layout ("at most one"), or the limit if the list is longer.
#[tactic(auto, unfolding(crate::specs::Entries::entry_layout))]
pub fn first_bad_entry(entry: &[u8]) -> Option<usize>
    ensures { result ≡ entry_layout entry.now }
{
    record::first_bad_of_within(&EntryLayout, entry, 1)
}

pub fn read_entry(entry: &[u8]) -> Option<AddressLabel>
    requires { entry_layout entry.now ≡ None }
    ensures { result ≡ entry_of entry.now (places entry.now) }
{
    if entry.is_empty() {
        return None;
    }
    Some(address_label_at(entry, 4, record::next(entry, 0)))
}

// Returns a label's name as a part of the list it was read from, cut at the list's end. A constant has none.
pub fn name_of(names: &[u8], label: AddressLabel) -> &[u8]
    ensures { result.now ≡ name_bytes names.now label }
{
    match label {
        AddressLabel::Constant(_) => &names[..0],
        AddressLabel::Label(name) => {
            let behind = &names[name.name_at.min(names.len())..];
            &behind[..name.name_len.min(behind.len())]
        }
    }
}

// Writes a label from `at` on: form, value, the name's location and the name.
pub fn put_label(d: &mut [u8], names: &[u8], at: usize, label: AddressLabel)
    requires { at + 17 + length (name_bytes names.now label) ≤ length d.old }
    ensures { d.new ≡ append d.old at (label_bytes names.now label) }
{
    match label {
        AddressLabel::Constant(value) => {
            d[at] = CONSTANT;
            record::put64(d, at + 1, value);
            record::put64(d, at + 9, 0);
        }
        AddressLabel::Label(name) => {
            d[at] = LABEL;
            record::put64(d, at + 1, name.offset);
            record::put_location(d, at + 9, name.location);
            record::put_all(d, at + 17, name_of(names, label));
        }
    }
}
