// The linked calls, each with its answer as bytes; nazgwern_c exports them to C. They build, emit a line, count a range's constants by form, read a
// text, make a dry run, write out macros, lay out a page, patch by steps, look up a label, emit a line with an index, and make an index.
#![tactic(auto)]

ghost use Rattle.std.specs.Prelude.{◌≡◌};
ghost use Rattle.emit_outcome.specs.Call.{lent_of};
ghost use Rattle.linked_build.specs.LinkedBuild.{linked_build_by};
ghost use Rattle.linked_line.specs.LinkedLine.{linked_line_by};
ghost use Rattle.linked_count.specs.LinkedCount.{linked_count};
ghost use Rattle.linked_text.specs.LinkedText.{linked_text};
ghost use Rattle.linked_dry_run.specs.LinkedDryRun.{linked_dry_run};
ghost use Rattle.linked_macros.specs.LinkedMacros.{linked_macros};
ghost use Rattle.linked_page.specs.LinkedPage.{linked_page};
ghost use Rattle.linked_index.specs.LinkedIndex.{linked_indexed, linked_make};
ghost use Rattle.linked_label.specs.LinkedLabel.{linked_find};
ghost use Rattle.linked_patching.specs.LinkedPatching.{linked_step, linked_patch_line};
ghost use Rattle.patching_line.specs.Contract.{given_of};

use emit_outcome::LinePlace;
use jobs::Job;

// Patches the regions in place or refuses: linked_build_by says how.
pub fn nazgwern_build(
    job: Job,
    labels: &[u8],
    entry: &[u8],
    regions: &mut [u8],
    pending: &[u8],
    answer: &mut [u8],
) -> u32
    ensures { linked_build_by job labels.now entry.now regions.old pending.now answer.old
        ≡ (record { result = result; regions = regions.new; answer = answer.new }) }
{
    linked_build::build(job, labels, entry, regions, pending, answer)
}

// Emits a line into the buffers or refuses it: linked_line_by says how.
pub fn nazgwern_do_instruction(
    job: Job,
    tokens: &[u8],
    mnemonic: &[u8],
    descriptors: &[u8],
    data: &mut [u8],
    pending: &mut [u8],
    breakpoints: &mut [u8],
    counts: &mut [u8],
    position: u32,
    region: u16,
    address: u32,
    answer: &mut [u8],
) -> u32
    ensures { linked_line_by job tokens.now mnemonic.now descriptors.now
        (lent_of «data».old pending.old breakpoints.old) counts.old
        (record { position = position; region = region; address = address }) answer.old
        ≡ (record {
          result = result;
          lent = lent_of «data».new pending.new breakpoints.new;
          counts = counts.new;
          answer = answer.new;
        }) }
{
    let place = LinePlace {
        position,
        region,
        address,
    };
    linked_line::do_instruction(
        job,
        tokens,
        mnemonic,
        descriptors,
        data,
        pending,
        breakpoints,
        counts,
        place,
        answer,
    )
}

// Counts the constants of a range by their forms or refuses: linked_count says how.
pub fn nazgwern_count_forms(start: u32, end: u32, counts: &mut [u8], answer: &mut [u8]) -> u32
    ensures { linked_count start end counts.old answer.old
        ≡ (record { result = result; counts = counts.new; answer = answer.new }) }
{
    linked_count::count_forms(start, end, counts, answer)
}

// Reads a text into token records or refuses: linked_text says how.
pub fn nazgwern_read_text(text: &[u8], source: u32, tokens: &mut [u8], answer: &mut [u8]) -> u32
    ensures { linked_text text.now source tokens.old answer.old
        ≡ (record { result = result; tokens = tokens.new; answer = answer.new }) }
{
    linked_text::read_text(text, source, tokens, answer)
}

// Makes a dry run of a region list or refuses: linked_dry_run says how.
pub fn nazgwern_dry_run(
    regions: &[u8],
    registers: &mut [u8],
    pc: u32,
    allowance: u32,
    answer: &mut [u8],
) -> u32
    ensures { linked_dry_run regions.now registers.old pc allowance answer.old
        ≡ (record { result = result; registers = registers.new; answer = answer.new }) }
{
    linked_dry_run::dry_run(regions, registers, pc, allowance, answer)
}

// Writes out a token list's macros or refuses: linked_macros says how.
pub fn nazgwern_write_out(tokens: &[u8], macros: &[u8], out: &mut [u8], answer: &mut [u8]) -> u32
    ensures { linked_macros tokens.now macros.now out.old answer.old
        ≡ (record { result = result; out = out.new; answer = answer.new }) }
{
    linked_macros::write_out(tokens, macros, out, answer)
}

// Lays out a page of a region list and its labels or refuses: linked_page says how.
pub fn nazgwern_lay_out(labels: &[u8], regions: &[u8], page: &mut [u8], answer: &mut [u8]) -> u32
    ensures { linked_page labels.now regions.now page.old answer.old
        ≡ (record { result = result; page = page.new; answer = answer.new }) }
{
    linked_page::lay_out(labels, regions, page, answer)
}

// Patches the next pending, ends if none is left, or refuses: linked_patching says how.
pub fn nazgwern_patch_step(
    job: Job,
    labels: &[u8],
    entry: &[u8],
    regions: &mut [u8],
    pending: &[u8],
    kept: &mut [u8],
    state: &mut [u8],
    answer: &mut [u8],
) -> u32
    ensures { linked_step job labels.now entry.now regions.old pending.now kept.old
        state.old answer.old
        ≡ (record { result = result; regions = regions.new; kept = kept.new; state = state.new; answer = answer.new }) }
{
    linked_patching::patch_step(job, labels, entry, regions, pending, kept, state, answer)
}

// Appends a line while patching runs or refuses it: linked_patching says how.
pub fn nazgwern_patch_line(
    job: Job,
    tokens: &[u8],
    mnemonic: &[u8],
    descriptors: &[u8],
    regions: &mut [u8],
    pending: &mut [u8],
    breakpoints: &mut [u8],
    state: &mut [u8],
    position: u32,
    region: u16,
    answer: &mut [u8],
) -> u32
    ensures { linked_patch_line job (given_of tokens.now mnemonic.now descriptors.now position region)
        regions.old pending.old breakpoints.old state.old answer.old
        ≡ (record {
          result = result;
          regions = regions.new;
          pending = pending.new;
          breakpoints = breakpoints.new;
          state = state.new;
          answer = answer.new;
        }) }
{
    linked_patching::patch_line(
        job,
        tokens,
        mnemonic,
        descriptors,
        regions,
        pending,
        breakpoints,
        state,
        position,
        region,
        answer,
    )
}

// Looks up a label or refuses: linked_label says how.
pub fn nazgwern_find_label(labels: &[u8], name: &[u8], source: u32, answer: &mut [u8]) -> u32
    ensures { linked_find labels.now name.now source answer.old ≡ (record { result = result; answer = answer.new }) }
{
    linked_label::find_label(labels, name, source, answer)
}

// Emits a line in the job numbered `job` and updates the index of label uses, or refuses: linked_index says how.
pub fn nazgwern_do_indexed(
    tokens: &[u8],
    mnemonic: &[u8],
    descriptors: &[u8],
    data: &mut [u8],
    pending: &mut [u8],
    breakpoints: &mut [u8],
    labels: &[u8],
    index: &mut [u8],
    counts: &mut [u8],
    position: u32,
    region: u16,
    address: u32,
    job: u32,
    answer: &mut [u8],
) -> u32
    ensures { linked_indexed tokens.now mnemonic.now descriptors.now
        (lent_of «data».old pending.old breakpoints.old) labels.now index.old counts.old
        (record { position = position; region = region; address = address }) job answer.old
        ≡ (record {
          result = result;
          lent = lent_of «data».new pending.new breakpoints.new;
          index = index.new;
          counts = counts.new;
          answer = answer.new;
        }) }
{
    let place = LinePlace {
        position,
        region,
        address,
    };
    linked_index::do_indexed(
        tokens,
        mnemonic,
        descriptors,
        data,
        pending,
        breakpoints,
        labels,
        index,
        counts,
        place,
        job,
        answer,
    )
}

// Makes a new index of label uses or refuses: linked_index says how.
pub fn nazgwern_make_index(
    pending: &[u8],
    fill: u32,
    labels: &[u8],
    index: &mut [u8],
    answer: &mut [u8],
) -> u32
    ensures { linked_make pending.now fill labels.now index.old answer.old
        ≡ (record { result = result; index = index.new; answer = answer.new }) }
{
    linked_index::make_index(pending, fill, labels, index, answer)
}
