// The entries of an emit call: they borrow the caller's fill counts, and emit_core works on a copy of them.
#![tactic(auto)]

ghost use Rattle.emit_outcome.specs.Call.{lent_of, call_of};
ghost use Rattle.emit_outcome.specs.Contract.{EmittedBy, EmittedIs};

use emit_outcome::{EmitAnswer, FillCounts, LinePlace, Lists};
use jobs::Job;

// Assembles one line as the commit does; updates `counts` if accepted: "three fill counts, which the emitter updates in the caller's record".
pub fn do_instruction(
    counts: &mut FillCounts,
    tokens: &[u8],
    mnemonic: &[u8],
    descriptors: &[u8],
    data: &mut [u8],
    pending: &mut [u8],
    breakpoints: &mut [u8],
    place: LinePlace,
) -> EmitAnswer
    ensures { EmittedIs (call_of tokens.now mnemonic.now descriptors.now
        (lent_of «data».old pending.old breakpoints.old) counts.old place)
        result counts.new (lent_of «data».new pending.new breakpoints.new) }
{
    do_job(
        Job::Commit,
        counts,
        tokens,
        mnemonic,
        descriptors,
        data,
        pending,
        breakpoints,
        place,
    )
}

// Assembles one line in the given job; updates `counts` if accepted.
pub fn do_job(
    job: Job,
    counts: &mut FillCounts,
    tokens: &[u8],
    mnemonic: &[u8],
    descriptors: &[u8],
    data: &mut [u8],
    pending: &mut [u8],
    breakpoints: &mut [u8],
    place: LinePlace,
) -> EmitAnswer
    ensures { EmittedBy job (call_of tokens.now mnemonic.now descriptors.now
        (lent_of «data».old pending.old breakpoints.old) counts.old place) result counts.new
        (lent_of «data».new pending.new breakpoints.new) }
{
    let lists = Lists {
        tokens,
        mnemonic,
        descriptors,
    };
    let emitted = emit_core::do_job(job, *counts, lists, data, pending, breakpoints, place);
    *counts = emitted.counts;
    emitted.answer
}
