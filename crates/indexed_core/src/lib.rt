// An emit call with labels and an index of their uses, for every job: emits one line and updates the index, or refuses and changes no lent byte.
#![tactic(auto)]

ghost use Rattle.std.specs.Prelude.{◌≡◌, ◌≤◌, length};
ghost use Rattle.labels.specs.Labels.{label_layout};
ghost use Rattle.emit_outcome.specs.Call.{lent_of, call_of, filled_pending};
ghost use Rattle.emit_outcome.specs.Emit.{line_outcome};
ghost use Rattle.emit_outcome.specs.Room.{room_stop};
ghost use Rattle.emit_pairs.specs.Pairs.{pairs_of};
ghost use Rattle.emit_checks.specs.Made.{made_line};
ghost use Rattle.indexed_outcome.specs.Indexed.{indexed_stop, indexed_outcome, indexed_call_of};
ghost use Rattle.indexed_outcome.specs.Contract.{IndexedBy};
ghost use Rattle.indexed_core.specs.Steps.{new_index, Ready, with_index, Wrote, indexed_emitted_by, indexed_left_by};

use descriptors::Descriptors;
use emit_checks::LineRead;
use emit_outcome::{LineNumbers, LinePlace, Lists, RefusedLine};
use emit_pairs::EmitInstruction;
use indexed_outcome::{IndexedAppended, IndexedCounts, IndexedEmitted};
use jobs::Job;
use line_uses::Line;
use names::Named;
use record::Location;
use refusal::Refusal;
use use_adding::{Pendings, Uses};

// Returns the call's answer and counts; a refusal leaves the counts as they were given.
fn emitted(counts: IndexedCounts, given: Result<IndexedAppended, RefusedLine>) -> IndexedEmitted
    ensures { result ≡ indexed_emitted_by counts given }
{
    match given {
        Ok(appended) => IndexedEmitted {
            answer: Ok(appended.done),
            counts: appended.counts,
        },
        Err(refused) => IndexedEmitted {
            answer: Err(refused),
            counts,
        },
    }
}

// Refusals 1 and 2: the six buffers of every emit call, then the labels, then the index; then a name that two descriptors or two labels share.
fn check_lists(
    lists: Lists<'_>,
    data: &[u8],
    pending: &[u8],
    breakpoints: &[u8],
    labels: &[u8],
    index: &[u8],
    counts: IndexedCounts,
    place: LinePlace,
) -> Result<(), Refusal>
    ensures { result ≡ indexed_stop (indexed_call_of (call_of lists.entry.tokens.now lists.entry.mnemonic.now lists.entry.descriptors.now
        (lent_of «data».now pending.now breakpoints.now) counts.counts place)
        labels.now index.now counts.index) }
{
    let three = counts.counts;
    emit_checks::check_layouts(lists, data, pending, breakpoints, place.region, three)?;
    refusal::check_layout(6, labels::first_bad_label(labels))?;
    let kept = three.pending as usize;
    let uses = index_check::check_uses(
        index,
        counts.index as usize,
        &Pendings::new(&pending[..kept]),
        labels,
    );
    refusal::check_layout(7, uses.layout)?;
    refusal::check_names(2, Descriptors::new(lists.descriptors).first_repeat())?;
    refusal::check_names(6, uses.repeat)
}

// Returns the made line's words with their token list and the labels, which have passed refusal 1.
fn words_of<'a>(tokens: &'a [u8], labels: &'a [u8], words: &'a EmitInstruction) -> Line<'a>
    requires { label_layout labels.now ≡ None }
    ensures { result ≡ (record { names = tokens.now; labels = labels.now; pairs = pairs_of words.now }) }
{
    Line::new(tokens, Named::new(labels), words.pairs())
}

// Appends a line for which there is room, and adds its uses to the index.
fn append_indexed(
    tokens: &[u8],
    data: &mut [u8],
    pending: &mut [u8],
    breakpoints: &mut [u8],
    labels: &[u8],
    index: &mut [u8],
    numbers: LineNumbers,
    fill: u32,
    line: Location,
    words: EmitInstruction,
    position: u32,
) -> IndexedAppended
    requires ready { Ready tokens.now labels.now index.old (lent_of «data».old pending.old breakpoints.old) numbers fill }
    requires emit_value { room_stop tokens.now line numbers (lent_of «data».old pending.old breakpoints.old) (pairs_of words) ≡ Ok tt }
    requires emit_in_bounds { length (new_index labels.now tokens.now (filled_pending (lent_of «data».old pending.old breakpoints.old) numbers.counts) (pairs_of words)) ≤ length index.old }
    ensures { Wrote tokens.now labels.now index.old index.new line numbers
        (lent_of «data».old pending.old breakpoints.old) (lent_of «data».new pending.new breakpoints.new)
        words position (Ok result.done) result.counts }
{
    let kept = numbers.counts.pending as usize;
    let first = Pendings::new(&pending[..kept]).count();
    let filled = words_of(tokens, labels, &words).add_to(index, fill as usize, first);
    let appended = emit_made::append_line(
        tokens,
        data,
        pending,
        breakpoints,
        numbers,
        line,
        words,
        position,
    );
    IndexedAppended {
        done: appended.done,
        counts: IndexedCounts {
            counts: appended.counts,
            index: filled as u32,
        },
    }
}

// Appends a line that was read, and its uses, or refuses it with 4 to 12 or 17.
fn append_or_refuse(
    tokens: &[u8],
    data: &mut [u8],
    pending: &mut [u8],
    breakpoints: &mut [u8],
    labels: &[u8],
    index: &mut [u8],
    numbers: LineNumbers,
    fill: u32,
    read: LineRead,
) -> Result<IndexedAppended, RefusedLine>
    requires { Ready tokens.now labels.now index.old (lent_of «data».old pending.old breakpoints.old) numbers fill }
    ensures { with_index read.line numbers (lent_of «data».old pending.old breakpoints.old) fill index.old
        (new_index labels.now tokens.now (filled_pending (lent_of «data».old pending.old breakpoints.old) numbers.counts) (made_line read).pairs)
        (line_outcome tokens.now read.line numbers (lent_of «data».old pending.old breakpoints.old) (made_line read))
        (line_outcome tokens.now read.line numbers (lent_of «data».old pending.old breakpoints.old) (made_line read)).answer
        ≡ indexed_left_by (record { counts = numbers.counts; index = fill }) result (lent_of «data».new pending.new breakpoints.new) index.new }
{
    let line = read.line;
    let position = read.position;
    let passed = emit_checks::check_line(tokens, &*data, &*pending, &*breakpoints, numbers, read);
    let words = emit_checks::at_position(position, passed)?;
    let uses = Uses::new(&index[..fill as usize]);
    let size = words_of(tokens, labels, &words).size_with(&uses);
    if size > index.len() {
        return Err(RefusedLine {
            refusal: Refusal::NoIndexSpace(line),
            position,
        });
    }
    Ok(append_indexed(
        tokens,
        data,
        pending,
        breakpoints,
        labels,
        index,
        numbers,
        fill,
        line,
        words,
        position,
    ))
}

// Appends the line of lists that have passed, and its uses, or refuses it with 3 to 12 or 17.
// kept: the three lists are separate parameters. The proof needs tokens and mnemonic to be bytes: known of a parameter, but not of a struct's field.
fn emit_named(
    job: Job,
    tokens: &[u8],
    mnemonic: &[u8],
    descriptors: &[u8],
    data: &mut [u8],
    pending: &mut [u8],
    breakpoints: &mut [u8],
    labels: &[u8],
    index: &mut [u8],
    numbers: LineNumbers,
    fill: u32,
) -> Result<IndexedAppended, RefusedLine>
    requires { indexed_stop (indexed_call_of (call_of tokens.now mnemonic.now descriptors.now (lent_of «data».old pending.old breakpoints.old) numbers.counts numbers.place)
        labels.now index.old fill) ≡ Ok tt }
    ensures { indexed_outcome job (indexed_call_of (call_of tokens.now mnemonic.now descriptors.now
        (lent_of «data».old pending.old breakpoints.old) numbers.counts numbers.place) labels.now index.old fill)
        ≡ indexed_left_by (record { counts = numbers.counts; index = fill }) result (lent_of «data».new pending.new breakpoints.new) index.new }
{
    let lists = Lists {
        tokens,
        mnemonic,
        descriptors,
    };
    let position = numbers.place.position;
    let read = emit_checks::at_position(position, emit_core::read_line(job, lists, position))?;
    append_or_refuse(
        tokens,
        data,
        pending,
        breakpoints,
        labels,
        index,
        numbers,
        fill,
        read,
    )
}

// Appends the line and its uses, or refuses it with 1 to 12 or 17.
fn emit_line(
    job: Job,
    lists: Lists<'_>,
    data: &mut [u8],
    pending: &mut [u8],
    breakpoints: &mut [u8],
    labels: &[u8],
    index: &mut [u8],
    place: LinePlace,
    counts: IndexedCounts,
) -> Result<IndexedAppended, RefusedLine>
    ensures { indexed_outcome job (indexed_call_of (call_of lists.entry.tokens.now lists.entry.mnemonic.now lists.entry.descriptors.now
        (lent_of «data».old pending.old breakpoints.old) counts.counts place) labels.now index.old counts.index)
        ≡ indexed_left_by counts result (lent_of «data».new pending.new breakpoints.new) index.new }
{
    let passed = check_lists(
        lists,
        &*data,
        &*pending,
        &*breakpoints,
        labels,
        &*index,
        counts,
        place,
    );
    emit_checks::at_position(place.position, passed)?;
    let numbers = LineNumbers {
        counts: counts.counts,
        place,
    };
    emit_named(
        job,
        lists.tokens,
        lists.mnemonic,
        lists.descriptors,
        data,
        pending,
        breakpoints,
        labels,
        index,
        numbers,
        counts.index,
    )
}

// Emits the line of one mnemonic and updates the index, or refuses and leaves every lent byte and count as it was.
pub fn do_indexed_job(
    lists: Lists<'_>,
    data: &mut [u8],
    pending: &mut [u8],
    breakpoints: &mut [u8],
    labels: &[u8],
    index: &mut [u8],
    place: LinePlace,
    job: Job,
    counts: IndexedCounts,
) -> IndexedEmitted
    ensures { IndexedBy job (indexed_call_of (call_of lists.entry.tokens.now lists.entry.mnemonic.now lists.entry.descriptors.now
        (lent_of «data».old pending.old breakpoints.old) counts.counts place) labels.now index.old counts.index)
        result.answer result.counts (lent_of «data».new pending.new breakpoints.new) index.new }
{
    let given = emit_line(
        job,
        lists,
        data,
        pending,
        breakpoints,
        labels,
        index,
        place,
        counts,
    );
    emitted(counts, given)
}
