// The public entries of an emit call with an index. The caller lends its four fill counts or passes them by value; the work is done by value below.
#![tactic(auto)]

ghost use Rattle.emit_outcome.specs.Call.{lent_of, call_of};
ghost use Rattle.indexed_outcome.specs.Indexed.{indexed_call_of};
ghost use Rattle.indexed_outcome.specs.Contract.{IndexedBy};

use emit_outcome::{EmitAnswer, LinePlace, Lists};
use indexed_outcome::{IndexedCounts, IndexedEmitted};
use jobs::Job;

// "Labels and index are the emit call's last two buffers, the index with a fourth fill count"; the counts are updated in the caller's record.
pub fn do_indexed(
    counts: &mut IndexedCounts,
    tokens: &[u8],
    mnemonic: &[u8],
    descriptors: &[u8],
    data: &mut [u8],
    pending: &mut [u8],
    breakpoints: &mut [u8],
    labels: &[u8],
    index: &mut [u8],
    place: LinePlace,
    job: Job,
) -> EmitAnswer
    ensures { IndexedBy job (indexed_call_of (call_of tokens.now mnemonic.now descriptors.now
        (lent_of «data».old pending.old breakpoints.old) counts.old.counts place)
        labels.now index.old counts.old.index)
        result counts.new (lent_of «data».new pending.new breakpoints.new) index.new }
{
    let out = do_indexed_line(
        *counts,
        tokens,
        mnemonic,
        descriptors,
        data,
        pending,
        breakpoints,
        labels,
        index,
        place,
        job,
    );
    *counts = out.counts;
    out.answer
}

// The same for a caller that passes the counts by value.
pub fn do_indexed_line(
    counts: IndexedCounts,
    tokens: &[u8],
    mnemonic: &[u8],
    descriptors: &[u8],
    data: &mut [u8],
    pending: &mut [u8],
    breakpoints: &mut [u8],
    labels: &[u8],
    index: &mut [u8],
    place: LinePlace,
    job: Job,
) -> IndexedEmitted
    ensures { IndexedBy job (indexed_call_of (call_of tokens.now mnemonic.now descriptors.now
        (lent_of «data».old pending.old breakpoints.old) counts.counts place)
        labels.now index.old counts.index)
        result.answer result.counts (lent_of «data».new pending.new breakpoints.new) index.new }
{
    let lists = Lists {
        tokens,
        mnemonic,
        descriptors,
    };
    indexed_core::do_indexed_job(
        lists,
        data,
        pending,
        breakpoints,
        labels,
        index,
        place,
        job,
        counts,
    )
}
