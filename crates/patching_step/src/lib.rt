// A step of patching: it patches one pending, finds that none is left, or refuses and puts back what was patched (document 02, P12).
#![tactic(auto)]

ghost use Rattle.std.specs.Prelude.{◌≡◌, ◌≤◌, ◌<◌, length, take, get_or};
ghost use Rattle.labels.specs.Labels.{table_of};
ghost use Rattle.binary_builder.specs.Steps.{most_pendings};
ghost use Rattle.patching_outcome.specs.Step.{now_at, put_back, running_step};
ghost use Rattle.patching_outcome.specs.Contract.{StepsTo, StepIs};
ghost use Rattle.patching_step.specs.Undo.{back_at, PatchAt, FilledRegions, PatchesAt};
ghost use Rattle.patching_step.specs.Steps.{ListsGood, StepLists, InOrder, next_at, Stopped, LayoutsAre, CheckedStep};

use binary_builder::Patches;
use jobs::Job;
use labels::LabelTable;
use patching_outcome::{PatchCounts, Progress, StepAnswer, Stepped};
use refusal::Refusal;
use regions::Regions;

// What the parts of a step use besides the lent lists: the job, the labels and the entry's address.
#[derive(Clone, Copy)]
struct Setup<'a> {
    job: Job,
    labels: &'a LabelTable<'a>,
    entry: u32,
}

// Puts four bytes back where the pending at `at` is patched, unless they would run past its region's data.
fn put_back_one(regions: &mut [u8], fill: usize, pending: &[u8], at: usize, bytes: &[u8])
    requires { FilledRegions fill regions.old × PatchAt (take fill regions.old) pending.now at × (length bytes.now ≡ 4) }
    ensures { regions.new ≡ back_at (take fill regions.old) pending.now bytes.now at regions.old }
{
    let patch = pending::read_pending(pending, at);
    let region = Regions::new(&regions[..fill]).region(patch.region);
    let end = patch.offset as usize + 4;
    if end > region.size {
        return;
    }
    record::put_all(regions, region.start + patch.offset as usize, bytes);
}

// Puts the kept bytes of these patches back, the last patch first.
fn put_back(regions: &mut [u8], fill: usize, pending: &[u8], order: &[u16], kept: &[u8])
    requires { FilledRegions fill regions.old × PatchesAt (take fill regions.old) pending.now order.now kept.now }
    ensures { regions.new ≡ put_back (take fill regions.old) pending.now kept.now 0 order.now regions.old }
{
    let words = kept[..4 * order.len()].rchunks(4);
    for (&at, bytes) in order.iter().rev().zip(words) {
        put_back_one(&mut *regions, fill, pending, usize::from(at), bytes);
    }
}

// Returns the caller's record with a new count of patches and a new state.
fn now_at(counts: PatchCounts, patches: u32, state: u32) -> PatchCounts
    ensures { result ≡ now_at counts patches state }
{
    PatchCounts {
        patches,
        state,
        ..counts
    }
}

// Patches the next pending and keeps the bytes that stood there, or refuses it with 14, 15 or 16 and undoes every patch.
// kept: the lists and the counts are separate parameters, here and in the calls above. A struct would hold two mutably borrowed lists, and each
// contract would also have to say that they are still the same lists.
fn patch_next(
    setup: Setup<'_>,
    counts: PatchCounts,
    regions: &mut [u8],
    pending: &[u8],
    kept: &mut [u8],
    order: &[u16],
) -> Stepped
    requires lists { StepLists regions.old pending.now kept.old counts }
    requires in_order { InOrder regions.old pending.now counts order.now × (counts.patches < length order.now) }
    ensures { StepsTo (next_at setup.entry.job (table_of setup.entry.labels.now.list) (get_or order.now counts.patches 0)) regions.old pending.now
        kept.old counts result.answer result.counts regions.new kept.new }
{
    let fill = counts.regions as usize;
    let filled = counts.pending as usize;
    let done = counts.patches as usize;
    let list = &pending[..filled];
    let patch = pending::read_pending(list, usize::from(order[done]));
    let region = Regions::new(&regions[..fill]).region(patch.region);
    let label = patch.label;
    let address = patch::get_address(label, list, setup.labels);
    match patch::check_pending(setup.job, region, patch, address) {
        Err(refusal) => {
            put_back(regions, fill, list, &order[..done], &*kept);
            Stepped {
                answer: Err(refusal),
                counts: now_at(counts, 0, patching_outcome::REFUSED),
            }
        }
        Ok(()) => {
            let slot = region.start + patch.offset as usize;
            record::put_all(kept, 4 * done, &regions[slot..slot + 4]);
            patch::write_pending(regions, region, patch, address);
            Stepped {
                answer: Ok(Progress::Patched(counts.patches + 1)),
                counts: now_at(counts, counts.patches + 1, counts.state),
            }
        }
    }
}

// Makes a step while patching runs: patches the next pending, or ends if none is left.
fn running_step(
    setup: Setup<'_>,
    counts: PatchCounts,
    regions: &mut [u8],
    pending: &[u8],
    kept: &mut [u8],
    order: &[u16],
) -> Stepped
    requires { StepLists regions.old pending.now kept.old counts × InOrder regions.old pending.now counts order.now }
    ensures { StepsTo (running_step setup.entry.job (table_of setup.entry.labels.now.list) setup.entry.entry) regions.old pending.now kept.old counts
        result.answer result.counts regions.new kept.new }
{
    let done = counts.patches as usize;
    if done >= order.len() {
        return Stepped {
            answer: Ok(Progress::Ended(setup.entry)),
            counts: now_at(counts, counts.patches, patching_outcome::ENDED),
        };
    }
    patch_next(setup, counts, regions, pending, kept, order)
}

// Answers a step after patching has ended or was refused; `order` and `found` are scratch space.
fn stopped_step<'a>(
    setup: Setup<'a>,
    counts: PatchCounts,
    regions: &[u8],
    pending: &'a [u8],
    order: &'a mut [u16],
    found: &'a mut [u16],
) -> StepAnswer
    requires lists { ListsGood regions.now pending.now counts }
    requires most_pendings_in_bounds { (most_pendings ≤ length order.old) × (most_pendings ≤ length found.old) }
    ensures { Stopped setup.entry.job (table_of setup.entry.labels.now.list) setup.entry.entry regions.now pending.now counts result }
{
    if counts.state == patching_outcome::ENDED {
        return Ok(Progress::Ended(setup.entry));
    }
    let fill = counts.regions as usize;
    let filled = counts.pending as usize;
    let patches = Patches::new(setup.labels, &pending[..filled], order, found);
    patches.check(setup.job, &regions[..fill])?;
    Ok(Progress::Ended(setup.entry))
}

// Makes a step of lists that have passed refusals 1 and 2; `found` is scratch space. Refusal 13 changes nothing.
fn step_with(
    job: Job,
    labels: &LabelTable<'_>,
    entry: &[u8],
    counts: PatchCounts,
    regions: &mut [u8],
    pending: &[u8],
    kept: &mut [u8],
    found: &mut [u16],
) -> Result<Stepped, Refusal>
    requires most_pendings_in_bounds { most_pendings ≤ length found.old }
    requires layouts_are { LayoutsAre (table_of labels.now.list) entry.now regions.old pending.now kept.old counts (Ok tt) }
    ensures { CheckedStep job (table_of labels.now.list) entry.now regions.old pending.now kept.old counts result regions.new kept.new }
{
    // called for its contract: it says that no two labels share a name and an owner
    let _ = labels.bytes();
    let address = binary_builder::find_entry(labels, entry)?;
    let setup = Setup {
        job,
        labels,
        entry: address,
    };
    let mut order = [0u16; binary_builder::MOST_PENDINGS];
    if counts.state == patching_outcome::RUNNING {
        let filled = counts.pending as usize;
        let n = binary_builder::order_patches(&pending[..filled], &mut order, found);
        return Ok(running_step(setup, counts, regions, pending, kept, &order[..n]));
    }
    let answer = stopped_step(setup, counts, &*regions, pending, &mut order, found);
    Ok(Stepped { answer, counts })
}

// Refusal 1: the first list that breaks its layout.
fn check_layouts(
    labels: &[u8],
    entry: &[u8],
    counts: PatchCounts,
    regions: &[u8],
    pending: &[u8],
    kept: &[u8],
) -> Result<(), Refusal>
    ensures { LayoutsAre (table_of labels.now) entry.now regions.now pending.now kept.now counts result }
{
    refusal::check_layout(0, labels::first_bad_label(labels))?;
    refusal::check_layout(1, address_label::first_bad_entry(entry))?;
    let fill = counts.regions as usize;
    refusal::check_layout(2, patching_checks::check_regions(regions, fill))?;
    let filled = counts.pending as usize;
    let count = Regions::new(&regions[..fill]).count();
    let patches = counts.patches as usize;
    refusal::check_layout(
        3,
        patching_checks::check_pendings(pending, filled, count, patches),
    )?;
    refusal::check_layout(4, patching_checks::check_kept(kept, &pending[..filled]))
}

// Checks the lists and makes a step. Refusals 1, 2 and 13 change nothing.
fn checked_step(
    job: Job,
    labels: &[u8],
    entry: &[u8],
    counts: PatchCounts,
    regions: &mut [u8],
    pending: &[u8],
    kept: &mut [u8],
) -> Result<Stepped, Refusal>
    ensures { CheckedStep job (table_of labels.now) entry.now regions.old pending.now kept.old counts result regions.new kept.new }
{
    check_layouts(labels, entry, counts, &*regions, pending, &*kept)?;
    let mut order = [0u16; labels::MOST];
    let mut spare = [0u16; labels::MOST];
    let table = LabelTable::make(labels, &mut order, &mut spare)?;
    step_with(
        job, &table, entry, counts, regions, pending, kept, &mut spare,
    )
}

// Makes a step: patches the next pending in patch order, ends if none is left, or refuses. Refusals 14 to 16 undo every patch.
pub fn patch_step(
    job: Job,
    labels: &[u8],
    entry: &[u8],
    counts: PatchCounts,
    regions: &mut [u8],
    pending: &[u8],
    kept: &mut [u8],
) -> Stepped
    ensures { StepIs job (table_of labels.now) entry.now regions.old pending.now kept.old counts
        result.answer result.counts regions.new kept.new }
{
    let made = checked_step(job, labels, entry, counts, regions, pending, kept);
    made.unwrap_or_else(|refusal| Stepped {
        answer: Err(refusal),
        counts,
    })
}
