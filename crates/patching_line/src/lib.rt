// Adds a line while patching runs: its words go after its region's data in the region list, or it is refused and nothing changes (document 02, P12).
#![tactic(auto)]

ghost use Rattle.std.specs.Prelude.{◌≡◌, [], ◌≤◌, ◌<◌, ◌+◌, ◌-◌, min, length};
ghost use Rattle.record.specs.Records.{limit};
ghost use Rattle.record.specs.Stores.{append, le16_bytes};
ghost use Rattle.regions.specs.Regions.{region_count};
ghost use Rattle.emit_outcome.specs.Emit.{emit_outcome};
ghost use Rattle.patching_outcome.specs.Patching.{patching_of, filled_regions};
ghost use Rattle.patching_outcome.specs.Line.{most_words, is_listed, is_late, late_refusal, late_answer};
ghost use Rattle.patching_line.specs.Contract.{given_of, LinesTo, LineIs};
ghost use Rattle.patching_line.specs.Given.{given_by};
ghost use Rattle.patching_line.specs.Lists.{listed_in, LayoutsAre, LineLists, timely, nowhere, FoundIn, GrowsTo, counts_grown, CheckedLine};

use emit_in_list::Within;
use emit_outcome::{EmitAnswer, Emitted, FillCounts, LinePlace, Lists, RefusedLine};
use jobs::Job;
use patching_outcome::{Lined, PatchCounts};
use refusal::Refusal;
use regions::{Region, Regions};

// A line's inputs besides the lent lists: the job, the lists that it only reads, a token position and its region's number.
#[derive(Clone, Copy)]
struct Line<'a> {
    job: Job,
    lists: Lists<'a>,
    position: u32,
    region: u16,
}

// Whether the list has a region of this number, or no region is selected.
fn is_listed(regions: &Regions<'_>, region: u16) -> bool
    ensures { result ≡ is_listed regions.now region }
{
    if region == emit_outcome::NO_REGION {
        return true;
    }
    usize::from(region) < regions.count()
}

// Returns where the first `fill` bytes break the layout of a region list, or None. If the selected region is not listed, that is 0.
fn check_listed(buffer: &[u8], fill: usize, region: u16) -> Option<usize>
    ensures { result ≡ listed_in region fill buffer.now }
{
    if !breakpoints::region_number_ok(region) {
        return Some(0);
    }
    patching_checks::check_regions(buffer, fill).or_else(|| (!is_listed(
        &Regions::new(&buffer[..fill]),
        region,
    )).then_some(0))
}

// Refusal 1: the first list that breaks its layout.
fn check_layouts(
    line: Line<'_>,
    counts: PatchCounts,
    regions: &[u8],
    pending: &[u8],
    breakpoints: &[u8],
) -> Result<(), Refusal>
    ensures { let g = given_by line.entry in
        LayoutsAre g.token_list g.mnemonic g.descriptors g.region regions.now pending.now breakpoints.now counts result }
{
    emit_checks::check_line_lists(line.lists)?;
    let fill = counts.regions as usize;
    refusal::check_layout(3, check_listed(regions, fill, line.region))?;
    let count = Regions::new(&regions[..fill]).count();
    let filled = counts.pending as usize;
    let patches = counts.patches as usize;
    let bad = patching_checks::check_pendings(pending, filled, count, patches);
    refusal::check_layout(4, bad)?;
    let kept = counts.breakpoints as usize;
    refusal::check_layout(5, breakpoints::check_breakpoint_buffer(breakpoints, kept))
}

// Whether patching has ended or was refused, or a pending of a greater region is patched. The last one patched has the greatest region.
fn is_late(counts: PatchCounts, regions: &[u8], pending: &[u8], region: u16) -> bool
    requires { LineLists regions.now pending.now counts }
    ensures { result ≡ is_late (patching_of regions.now pending.now [] [] counts) region }
{
    if counts.state != patching_outcome::RUNNING {
        return true;
    }
    if counts.patches == 0 {
        return false;
    }
    let mut order = [0u16; binary_builder::MOST_PENDINGS];
    let mut spare = [0u16; binary_builder::MOST_PENDINGS];
    let filled = counts.pending as usize;
    let list = &pending[..filled];
    binary_builder::order_patches(list, &mut order, &mut spare);
    let last = counts.patches as usize - 1;
    let patch = pending::read_pending(list, usize::from(order[last]));
    usize::from(region) < patch.region
}

// Returns the line's answer with no region selected: always a refusal, 10 at the latest. Nothing changes.
fn emit_nowhere(
    line: Line<'_>,
    counts: PatchCounts,
    pending: &mut [u8],
    breakpoints: &mut [u8],
) -> EmitAnswer
    ensures { let g = given_by line.entry in
        (result ≡ (emit_outcome line.entry.job (nowhere g.token_list g.mnemonic g.descriptors pending.old breakpoints.old counts g.position)).answer)
        × (pending.new ≡ pending.old) × (breakpoints.new ≡ breakpoints.old) }
{
    let mut nothing = [0u8; 1];
    let out = emit_core::do_job(
        line.job,
        FillCounts {
            data_len: 0,
            pending: counts.pending,
            breakpoints: counts.breakpoints,
        },
        line.lists,
        &mut nothing[..0],
        pending,
        breakpoints,
        LinePlace {
            position: line.position,
            region: emit_outcome::NO_REGION,
            address: 0,
        },
    );
    out.answer
}

// Puts refusal 29 in the place of 10.
fn late_refusal(refusal: Refusal) -> Refusal
    ensures { result ≡ late_refusal refusal }
{
    match refusal {
        Refusal::MissingRegion(location) => Refusal::LateLine(location),
        other => other,
    }
}

fn late_answer(answer: EmitAnswer) -> EmitAnswer
    ensures { result ≡ late_answer answer }
{
    answer.map_err(|refused| RefusedLine {
        refusal: late_refusal(refused.refusal),
        position: refused.position,
    })
}

// Returns how many of the free bytes a line may use: no more than its words can need.
fn room_in(free: usize) -> usize
    ensures { result ≡ min most_words free }
{
    free.min(20)
}

// Makes the line's emit call in the region that was found.
fn emit_found(
    line: Line<'_>,
    counts: PatchCounts,
    regions: &mut [u8],
    pending: &mut [u8],
    breakpoints: &mut [u8],
    found: Region,
) -> Emitted
    requires { (found.start + found.size ≤ counts.regions) × (counts.regions ≤ length regions.old) × (length regions.old ≤ limit) }
    ensures { let g = given_by line.entry in FoundIn line.entry.job g.token_list g.mnemonic g.descriptors regions.old pending.old breakpoints.old
        counts g.position g.region found result.answer result.counts regions.new pending.new breakpoints.new }
{
    let fill = counts.regions as usize;
    let room = room_in(regions.len() - fill);
    let filled = FillCounts {
        data_len: found.size as u32,
        pending: counts.pending,
        breakpoints: counts.breakpoints,
    };
    let place = LinePlace {
        position: line.position,
        region: line.region,
        address: found.address,
    };
    let within = Within {
        start: found.start,
        fill,
        room,
    };
    emit_in_list::emit_in_list(
        line.job,
        filled,
        line.lists,
        regions,
        pending,
        breakpoints,
        place,
        within,
    )
}

// Updates the length of the region's record after a line has added words, and returns the new counts.
fn grow(regions: &mut [u8], counts: PatchCounts, found: Region, filled: FillCounts) -> PatchCounts
    requires { GrowsTo regions.old counts found filled }
    ensures { (result ≡ counts_grown counts found filled) × (regions.new ≡ append regions.old (found.start - 8) (le16_bytes (filled.data_len + 4))) }
{
    let body = filled.data_len + 4;
    record::put16(regions, found.start - 8, body as u16);
    PatchCounts {
        regions: counts.regions + (filled.data_len - found.size as u32),
        pending: filled.pending,
        breakpoints: filled.breakpoints,
        ..counts
    }
}

// Emits a line that is not late and whose region is listed.
fn emit_listed(
    line: Line<'_>,
    counts: PatchCounts,
    regions: &mut [u8],
    pending: &mut [u8],
    breakpoints: &mut [u8],
) -> Lined
    requires { LineLists regions.old pending.old counts × (line.region < region_count (filled_regions regions.old counts)) }
    ensures { LinesTo (timely line.entry.job (given_by line.entry))
        regions.old pending.old breakpoints.old counts
        result.answer result.counts regions.new pending.new breakpoints.new }
{
    let fill = counts.regions as usize;
    let found = Regions::new(&regions[..fill]).region(usize::from(line.region));
    let out = emit_found(line, counts, &mut *regions, pending, breakpoints, found);
    let answer = out.answer;
    let filled = out.counts;
    match answer {
        Err(_) => Lined { answer, counts },
        Ok(_) => {
            let counts = grow(regions, counts, found, filled);
            Lined { answer, counts }
        }
    }
}

// Emits or refuses a line whose lists have passed refusal 1.
fn emit_checked(
    line: Line<'_>,
    counts: PatchCounts,
    regions: &mut [u8],
    pending: &mut [u8],
    breakpoints: &mut [u8],
) -> Lined
    requires { let g = given_by line in LayoutsAre g.token_list g.mnemonic g.descriptors g.region regions.old pending.old breakpoints.old counts (Ok tt) }
    ensures { LineIs line.entry.job (given_by line.entry)
        regions.old pending.old breakpoints.old counts
        result.answer result.counts regions.new pending.new breakpoints.new }
{
    if line.region == emit_outcome::NO_REGION {
        let answer = emit_nowhere(line, counts, pending, breakpoints);
        return Lined { answer, counts };
    }
    if is_late(counts, &*regions, &*pending, line.region) {
        let none = emit_nowhere(line, counts, pending, breakpoints);
        let answer = late_answer(none);
        return Lined { answer, counts };
    }
    emit_listed(line, counts, regions, pending, breakpoints)
}

// Checks the layouts and then emits or refuses the line. Refusal 1 changes nothing.
fn checked_line(
    line: Line<'_>,
    counts: PatchCounts,
    regions: &mut [u8],
    pending: &mut [u8],
    breakpoints: &mut [u8],
) -> Result<Lined, Refusal>
    ensures { CheckedLine line.entry.job (given_by line.entry)
        regions.old pending.old breakpoints.old counts
        result regions.new pending.new breakpoints.new }
{
    check_layouts(line, counts, &*regions, &*pending, &*breakpoints)?;
    Ok(emit_checked(line, counts, regions, pending, breakpoints))
}

// Appends a line to a region of the list while patching runs, or refuses it and leaves every byte and count as it was.
pub fn patch_line(
    job: Job,
    counts: PatchCounts,
    tokens: &[u8],
    mnemonic: &[u8],
    descriptors: &[u8],
    regions: &mut [u8],
    pending: &mut [u8],
    breakpoints: &mut [u8],
    position: u32,
    region: u16,
) -> Lined
    ensures { LineIs job (given_of tokens.now mnemonic.now descriptors.now position region)
        regions.old pending.old breakpoints.old counts
        result.answer result.counts regions.new pending.new breakpoints.new }
{
    let lists = Lists {
        tokens,
        mnemonic,
        descriptors,
    };
    let line = Line {
        job,
        lists,
        position,
        region,
    };
    let made = checked_line(line, counts, regions, pending, breakpoints);
    made.unwrap_or_else(|refusal| Lined {
        answer: Err(RefusedLine { refusal, position }),
        counts,
    })
}
