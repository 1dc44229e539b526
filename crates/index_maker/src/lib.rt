// make_index: makes an index of label uses from scratch, from a pending list and a label list, or refuses and changes no lent byte.
#![tactic(auto)]

ghost use Rattle.std.specs.Prelude.{◌≡◌, ◌≤◌, length};
ghost use Rattle.record.specs.Records.{limit};
ghost use Rattle.label_uses.specs.UseBytes.{index_of};
ghost use Rattle.indexed_outcome.specs.Make.{make_layouts, room_for, make_by, make_outcome, made_of};

use refusal::Refusal;
use use_adding::{LabelIndex, Pendings};

// Refusal 1: the first buffer that breaks its layout.
fn check_layouts(pending: &[u8], fill: usize, labels: &[u8], index: &[u8]) -> Result<(), Refusal>
    ensures { result ≡ make_layouts fill pending.now labels.now index.now }
{
    refusal::check_layout(0, breakpoints::check_pending_buffer(pending, fill))?;
    refusal::check_layout(1, labels::first_bad_label(labels))?;
    refusal::check_layout(2, record::past_limit(index))
}

// Refusal 17, with a location of zeros.
fn no_space() -> Result<u32, Refusal>
    ensures { result ≡ Err (Refusal.NoIndexSpace (record { source = 0; index = 0 })) }
{
    Err(Refusal::NoIndexSpace(refusal::zero_location()))
}

// Makes the index for a buffer shorter than the pending list: in scratch space first, then copied if it fits.
fn fill_shorter(
    index: &mut [u8],
    pending: &Pendings<'_>,
    labels: &LabelIndex<'_>,
) -> Result<u32, Refusal>
    requires { (length pending.now ≤ limit) × (length index.old ≤ limit) }
    ensures { make_by (room_for (index_of labels.now pending.now) index.old) (index_of labels.now pending.now) index.old
        ≡ made_of result index.new }
{
    let mut made = [0u8; record::LIMIT];
    let n = use_adding::fill_index(&mut made, pending, labels);
    if n > index.len() {
        return no_space();
    }
    record::put_all(index, 0, &made[..n]);
    Ok(n as u32)
}

// Writes the index at the start of its buffer, or refuses with 17. A buffer as long as the pending list always has room.
fn fill_or_refuse(
    index: &mut [u8],
    pending: &Pendings<'_>,
    labels: &LabelIndex<'_>,
) -> Result<u32, Refusal>
    requires { length index.old ≤ limit }
    ensures { make_by (room_for (index_of labels.now pending.now) index.old) (index_of labels.now pending.now) index.old
        ≡ made_of result index.new }
{
    if index.len() < pending.bytes().len() {
        return fill_shorter(index, pending, labels);
    }
    Ok(use_adding::fill_index(index, pending, labels) as u32)
}

// Makes the index of the first `fill` bytes of a pending buffer, and returns its fill count. Bytes after the index stay as they were.
pub fn make_index(
    pending: &[u8],
    fill: u32,
    labels: &[u8],
    index: &mut [u8],
) -> Result<u32, Refusal>
    ensures { make_outcome fill pending.now labels.now index.old ≡ made_of result index.new }
{
    let kept = fill as usize;
    check_layouts(pending, kept, labels, &*index)?;
    let mut order = [0u16; labels::MOST];
    let mut spare = [0u16; labels::MOST];
    let labels = LabelIndex::make(labels, &mut order, &mut spare);
    refusal::check_names(1, labels.first_repeat())?;
    fill_or_refuse(index, &Pendings::new(&pending[..kept]), &labels)
}
