// Pending patches: a list of pending records instead of the labels that the Rust keeps in each region.
#![tactic(auto)]

ghost use Rattle.std.specs.Prelude.{◌≡◌, ◌+◌, ◌≤◌, length};
ghost use Rattle.record.specs.Stores.{append};
ghost use Rattle.address_label.specs.LabelBytes.{name_bytes};
ghost use Rattle.pending.specs.PendingBytes.{pending_bytes};
ghost use Rattle.pending.specs.Pendings.{region_of, pending_ok, pending_layout, kind_from, pending_at};
ghost use Rattle.pending.specs.Pendings.{PendingIs};

use address_label::AddressLabel;
use record::Location;

// The record kind.
const PENDING: u16 = 36;

// The most pendings that a list can hold: each has at least 36 bytes.
pub const MOST: usize = 1820;

// The patch kinds, by their numbers in a record.
#[derive(Clone, Copy)]
pub enum InstructionLabelKind {
    Branch = 0,
    Jump = 1,
    Lower = 2,
    Upper = 3,
    Full = 4,
}

// Converts a number to its kind; a number over 4 gives the last.
impl From<u8> for InstructionLabelKind {
    ghost from_gives = { λ n kind. kind ≡ kind_from n };

    #[tactic(auto, unfolding(crate::specs::Pendings::kind_from))]
    fn from(n: u8) -> Self {
        match n {
            0 => InstructionLabelKind::Branch,
            1 => InstructionLabelKind::Jump,
            2 => InstructionLabelKind::Lower,
            3 => InstructionLabelKind::Upper,
            _ => InstructionLabelKind::Full,
        }
    }
}

#[derive(Clone, Copy)]
pub struct Pending {
    pub region: usize,
    pub offset: u32,
    pub location: Location,
    pub kind: InstructionLabelKind,
    pub label: AddressLabel,
}

// What a word waits for: a label, and the field that its address goes into.
#[derive(Clone, Copy)]
pub struct InstructionLabel {
    pub kind: InstructionLabelKind,
    pub label: AddressLabel,
}

// Where that word stands: its region, its offset in the region's data, and the location of its line.
#[derive(Clone, Copy)]
pub struct Origin {
    pub region: u16,
    pub offset: u32,
    pub location: Location,
}

// Returns the number of the region that the record at `at` patches.
fn region_of(list: &[u8], at: usize) -> usize
    requires { at + 6 ≤ length list.now }
    ensures { result ≡ region_of list.now at }
{
    record::half_at(list, at + 4)
}

// The layout of a list of pendings, each for one of `regions` regions.
#[derive(Clone, Copy)]
struct Pendings {
    regions: usize,
}

impl record::Layout for Pendings {
    ghost keeps = { λ self s at. pending_ok self.regions s at };

    #[tactic(auto, unfolding(crate::specs::Pendings::pending_ok))]
    fn keeps(&self, list: &[u8], at: usize) -> bool {
        record::whole_at(list, at)
            && record::half_at(list, at + 2) == usize::from(PENDING)
            && record::half_at(list, at) >= 32
            && region_of(list, at) < self.regions
            && list[at + 18] <= InstructionLabelKind::Full as u8
            && address_label::address_label_ok(list, at + 19, record::next(list, at))
    }
}

// Returns the place of the first record that breaks the layout, or the limit if the list is longer.
#[tactic(auto, unfolding(crate::specs::Pendings::pending_layout))]
pub fn first_bad_pending(list: &[u8], regions: usize) -> Option<usize>
    ensures { result ≡ pending_layout regions list.now }
{
    record::first_bad_within(&Pendings { regions }, list)
}

// Reads the pending at `at`, a record that keeps its layout.
pub fn read_pending(list: &[u8], at: usize) -> Pending
    requires { PendingIs list.now at }
    ensures { result ≡ pending_at list.now at }
{
    let end = record::next(list, at);
    let region = region_of(list, at);
    let offset = record::word_at(list, at + 6);
    let location = record::location_at(list, at + 10);
    let kind = InstructionLabelKind::from(list[at + 18]);
    let label = address_label::address_label_at(list, at + 19, end);
    Pending {
        region,
        offset,
        location,
        kind,
        label,
    }
}

// Writes one pending record from `at` on. The label's name is a part of `names`.
pub fn put_pending(d: &mut [u8], names: &[u8], at: usize, origin: Origin, waits: InstructionLabel)
    requires { at + 36 + length (name_bytes names.now waits.label) ≤ length d.old }
    ensures { d.new ≡ append d.old at (pending_bytes names.now origin waits) }
{
    let name = address_label::name_of(names, waits.label);
    let body = (32 + name.len()) % 0x1_0000;
    record::put_head(d, at, body as u16, PENDING);
    record::put16(d, at + 4, origin.region);
    record::put32(d, at + 6, origin.offset);
    record::put_location(d, at + 10, origin.location);
    d[at + 18] = waits.kind as u8;
    address_label::put_label(d, names, at + 19, waits.label);
}
