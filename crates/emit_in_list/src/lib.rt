// An emit call whose region data lies inside a list: other records follow the data, and free bytes follow the records (document 02, P12).
#![tactic(auto)]

ghost use Rattle.std.specs.Prelude.{◌≡◌, ◌≤◌, ◌+◌, length};
ghost use Rattle.record.specs.Records.{limit};
ghost use Rattle.emit_in_list.specs.InList.{list_call, EmittedIn};

use emit_outcome::{Emitted, FillCounts, LinePlace, Lists};
use jobs::Job;

// Where the region's data starts, where the list ends, and how many of the free bytes after it may be used.
#[derive(Clone, Copy)]
pub struct Within {
    pub start: usize,
    pub fill: usize,
    pub room: usize,
}

// Emits a line into the region's data. An emit call needs free bytes right after the data, so these are swapped with the records there,
// and the unused ones are swapped back.
pub fn emit_in_list(
    job: Job,
    counts: FillCounts,
    lists: Lists<'_>,
    list: &mut [u8],
    pending: &mut [u8],
    breakpoints: &mut [u8],
    place: LinePlace,
    within: Within,
) -> Emitted
    requires { (within.start + counts.data_len ≤ within.fill) × (within.fill + within.room ≤ length list.old) × (length list.old ≤ limit) }
    ensures { EmittedIn job (list_call lists.entry.tokens.now lists.entry.mnemonic.now lists.entry.descriptors.now list.old pending.old breakpoints.old
        counts place within.start within.fill within.room) list.old within.start within.fill
        result.answer result.counts list.new pending.new breakpoints.new }
{
    let start = within.start;
    let size = counts.data_len as usize;
    let end = start + size;
    let fill = within.fill;
    let room = within.room;
    exchanging::exchange(&mut list[end..fill + room], fill - end);
    let out = emit_core::do_job(
        job,
        counts,
        lists,
        &mut list[start..end + room],
        pending,
        breakpoints,
        place,
    );
    let words = out.counts.data_len as usize - size;
    exchanging::exchange(&mut list[end + words..fill + room], room - words);
    out
}
