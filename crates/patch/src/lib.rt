// One patch of a build: its destination, its range, and the word it leaves (get_address and add_label of binary_builder.rs).
#![tactic(auto)]

ghost use Rattle.std.specs.Prelude.{◌≡◌, ◌+◌, ◌^◌, ◌<◌, ◌≤◌, ◌&&◌, length, nat_le};
ghost use Rattle.labels.specs.Labels.{table_of};
ghost use Rattle.jobs.specs.Jobs.{most_back, most_ahead};
ghost use Rattle.patch.specs.Patches.{destination, given_destination, name_end, after, in_range, patched_word, name_location, address_or, patch_stop, write_word};
ghost use Rattle.patch.specs.Placed.{label_place, address_at, placed_destination};
ghost use Rattle.patch.specs.Placed.{Placed};

use address_label::AddressLabel;
use jobs::Job;
use labels::LabelTable;
use pending::{InstructionLabelKind, Pending};
use record::Location;
use refusal::Refusal;
use regions::Region;

// Returns a constant's low 32 bits, or a name's address plus its offset. "The sum wraps at 2^32."
#[tactic(auto, using(crate::proofs::PatchesLaws::wrapped_offset))]
fn given_destination(label: AddressLabel, address: Option<u32>) -> Option<u32>
    ensures { result ≡ given_destination label address }
{
    match label {
        AddressLabel::Constant(value) => Some((value % 0x1_0000_0000) as u32),
        AddressLabel::Label(name) => {
            let offset = (name.offset % 0x1_0000_0000) as u32;
            address.map(|value| value.wrapping_add(offset))
        }
    }
}

// Returns the destination of a constant, or of a name in `list`; None if the name is unknown.
#[tactic(auto, unfolding(crate::specs::Patches::destination))]
pub fn get_address(label: AddressLabel, list: &[u8], labels: &LabelTable<'_>) -> Option<u32>
    requires { name_end label ≤ length list.now }
    ensures { result ≡ destination (table_of labels.now.list) list.now label }
{
    let address = match label {
        AddressLabel::Constant(_) => None,
        AddressLabel::Label(name) => {
            let found = labels.get(name.location.source, address_label::name_of(list, label));
            found.address
        }
    };
    given_destination(label, address)
}

// Returns the place of the label that a name in `list` resolves to, or `NO_PLACE`.
#[tactic(auto, unfolding(crate::specs::Placed::label_place))]
pub fn label_place(label: AddressLabel, list: &[u8], labels: &LabelTable<'_>) -> u16
    requires { name_end label ≤ length list.now }
    ensures { result ≡ label_place labels.now.list list.now label }
{
    match label {
        AddressLabel::Constant(_) => NO_PLACE,
        AddressLabel::Label(name) => {
            let found = labels.find(name.location.source, address_label::name_of(list, label));
            found.map_or(NO_PLACE, |place| place as u16)
        }
    }
}

// Returns the destination of a constant, or of a name whose label is at `place`; None if that is `NO_PLACE`.
#[tactic(auto, unfolding(crate::specs::Placed::placed_destination))]
pub fn address_at(label: AddressLabel, labels: &[u8], place: u16) -> Option<u32>
    requires { Placed labels.now place }
    ensures { result ≡ placed_destination labels.now label place }
{
    let address = match label {
        AddressLabel::Constant(_) => None,
        AddressLabel::Label(_) => placed_address(labels, place),
    };
    given_destination(label, address)
}

// Returns the address of the label at `place`; None if that is `NO_PLACE`.
fn placed_address(labels: &[u8], place: u16) -> Option<u32>
    requires { Placed labels.now place }
    ensures { result ≡ address_at labels.now place }
{
    if place == NO_PLACE {
        None
    } else {
        Some(record::word_at(labels, usize::from(place) + 4))
    }
}

pub fn name_location(label: AddressLabel) -> Location
    ensures { result ≡ name_location label }
{
    match label {
        AddressLabel::Constant(_) => refusal::zero_location(),
        AddressLabel::Label(name) => name.location,
    }
}

// The place of no label. Kept a number, not an Option: an array of places has two bytes for each, and its memory is fixed.
const NO_PLACE: u16 = 0xFFFF;

// A patch's own address, and its destination.
#[derive(Clone, Copy)]
struct Span {
    pc: u32,
    destination: u32,
}

impl Span {
    // Returns "pc plus 4".
    fn after(self) -> u32
        ensures { result ≡ after self.pc }
    {
        self.pc.wrapping_add(4)
    }
}

// Whether a branch or a jump reaches its destination.
#[tactic(auto, unfolding(crate::specs::Patches::in_range, crate::specs::Patches::branch_in_range, crate::specs::Patches::jump_in_range))]
fn in_range(job: Job, kind: InstructionLabelKind, span: Span) -> bool
    ensures { result ≡ in_range job kind span.pc span.destination }
{
    let destination = span.destination;
    let after = span.after();
    match kind {
        InstructionLabelKind::Branch => branch_in_range(job, after / 4, destination / 4),
        InstructionLabelKind::Jump => destination / 0x1000_0000 == after / 0x1000_0000,
        _ => true,
    }
}

// Whether the job accepts a branch over this distance in words.
fn branch_in_range(job: Job, from: u32, to: u32) -> bool
    requires { (from < 2 ^ 30) × (to < 2 ^ 30) }
    ensures { result ≡ (nat_le from (to + most_back job) && nat_le to (from + most_ahead job)) }
{
    from <= to + jobs::most_back(job) && to <= from + jobs::most_ahead(job)
}

// Returns the word with the patch's field written.
#[tactic(auto, using(crate::proofs::PatchesLaws::patched_branch, crate::proofs::PatchesLaws::patched_jump, crate::proofs::PatchesLaws::patched_lower, crate::proofs::PatchesLaws::patched_upper, crate::proofs::PatchesLaws::patched_full))]
fn add_label(instruction: u32, kind: InstructionLabelKind, span: Span) -> u32
    ensures { result ≡ patched_word kind span.pc span.destination instruction }
{
    let destination = span.destination;
    let after = span.after();
    match kind {
        InstructionLabelKind::Branch => {
            instruction / 0x1_0000 * 0x1_0000
                + (destination / 4 + 0x8000_0000 - after / 4) % 0x1_0000
        }
        InstructionLabelKind::Jump => instruction / 0x400_0000 * 0x400_0000
            + destination / 4 % 0x400_0000,
        InstructionLabelKind::Lower => instruction / 0x1_0000 * 0x1_0000 + destination % 0x1_0000,
        InstructionLabelKind::Upper => instruction / 0x1_0000 * 0x1_0000 + destination / 0x1_0000,
        InstructionLabelKind::Full => destination,
    }
}

// Checks one patch whose destination is given: refusals 14, 15 and 16.
#[tactic(auto, using(crate::proofs::PatchesLaws::stops_unknown, crate::proofs::PatchesLaws::stops_far, crate::proofs::PatchesLaws::passes))]
pub fn check_pending(
    job: Job,
    region: Region,
    patch: Pending,
    address: Option<u32>,
) -> Result<(), Refusal>
    ensures { result ≡ patch_stop job region patch address }
{
    if patch.offset as usize + 4 > region.size {
        return Err(Refusal::PatchPastEnd(patch.location));
    }
    let pc = region.address.wrapping_add(patch.offset);
    let destination = address.ok_or(Refusal::UnknownLabel(name_location(patch.label)))?;
    if !in_range(job, patch.kind, Span { pc, destination }) {
        return Err(Refusal::JumpOutOfRange(patch.location, destination, pc));
    }
    Ok(())
}

// Writes one patch whose destination is given into the region list.
pub fn write_pending(regions: &mut [u8], region: Region, patch: Pending, address: Option<u32>)
    requires { region.start + patch.offset + 4 ≤ length regions.old }
    ensures { regions.new ≡ write_word region patch address regions.old }
{
    let slot = region.start + patch.offset as usize;
    let pc = region.address.wrapping_add(patch.offset);
    let destination = address.unwrap_or(0);
    let span = Span { pc, destination };
    let word = add_label(record::word_at(regions, slot), patch.kind, span);
    record::put32(regions, slot, word);
}
