// The core of an emit call, for every job and with the counts by value: emits one line, or refuses it and changes no lent byte (emit.rs).
#![tactic(auto)]

ghost use Rattle.std.specs.Prelude.{◌≡◌, ◌+◌, ◌≤◌, length};
ghost use Rattle.lexer.specs.Tokens.{token_layout, tokens};
ghost use Rattle.descriptors.specs.Mnemonics.{mnemonic_layout};
ghost use Rattle.descriptors.specs.Descriptors.{descriptor_layout};
ghost use Rattle.emit_dispatch.specs.Contract.{LineAs};
ghost use Rattle.emit_outcome.specs.Dispatch.{meaning, table_line};
ghost use Rattle.emit_outcome.specs.Call.{lent_of, call_of};
ghost use Rattle.emit_outcome.specs.Emit.{emit_outcome};
ghost use Rattle.emit_outcome.specs.Contract.{EmittedBy};
ghost use Rattle.emit_checks.specs.Made.{left_by};
ghost use Rattle.emit_core.specs.Read.{ReadBy};

use cursor::LexerCursor;
use descriptors::Descriptors;
use emit_checks::LineRead;
use emit_dispatch::Unmade;
use emit_outcome::{
    Appended, Emitted, FillCounts, LineNumbers, LinePlace, Lists, Meaning, RefusedLine,
};
use emit_pairs::EmitInstruction;
use jobs::Job;
use record::Location;
use refusal::Refusal;

// Returns what a mnemonic means: the descriptor of that name, else the pseudo-instruction, else neither.
// kept: Meaning has the same three cases as the definition that the whole outcome is written from; an Option of the first two is no plainer.
#[tactic(auto, unfolding(emit_outcome::specs::Dispatch::meaning))]
fn find_meaning(descriptors: &Descriptors<'_>, name: &[u8]) -> Meaning
    ensures { result ≡ meaning descriptors.now name.now }
{
    match descriptors.find(name) {
        Some(place) => Meaning::Table(place),
        None => match pseudo_names::pseudo_of(name) {
            Some(pseudo) => Meaning::Builtin(pseudo),
            None => Meaning::Neither,
        },
    }
}

// Reads the line's operands as the descriptor at `place` asks, and makes its words.
fn dispatch_instruction(
    job: Job,
    descriptors: &Descriptors<'_>,
    place: usize,
    cursor: &mut LexerCursor<'_>,
) -> Result<EmitInstruction, Unmade>
    requires { place + 12 ≤ length descriptors.now }
    ensures { LineAs cursor.old (table_line job descriptors.now place (tokens cursor.old.list) cursor.old.index)
        result cursor.new }
{
    let instruction = descriptors.instruction(place);
    emit_dispatch::dispatch_encoding(job, instruction.encoding, instruction.opcode, cursor)
}

// Returns the line as read. The cursor stands after its operands.
#[tactic(auto, using(crate::proofs::EmitLaws::index_most))]
fn line_read(
    line: Location,
    answer: Result<EmitInstruction, Unmade>,
    cursor: &LexerCursor<'_>,
) -> LineRead
    ensures value { result ≡ (record { line = line; answer = answer; position = cursor.now.index }) }
    ensures within { result.position ≤ length (tokens cursor.now.list) }
{
    LineRead {
        line,
        answer,
        position: cursor.position().index as u32,
    }
}

// Reads the line whose operands start at `position`, or refuses its mnemonic with 3.
pub fn read_line(job: Job, lists: Lists<'_>, position: u32) -> Result<LineRead, Refusal>
    requires { (token_layout lists.tokens.now ≡ None) × (mnemonic_layout lists.mnemonic.now ≡ None) × (descriptor_layout lists.descriptors.now ≡ None) }
    ensures { ReadBy job lists.entry.tokens.now lists.entry.mnemonic.now lists.entry.descriptors.now position result }
{
    let descriptors = Descriptors::new(lists.descriptors);
    let named = descriptors::read_mnemonic(lists.mnemonic);
    let line = named.location;
    let start = cursor::start(lists.tokens, position as usize);
    let mut cursor = LexerCursor::new(lists.tokens, start);
    let answer = match find_meaning(&descriptors, &named.bytes[..named.len]) {
        Meaning::Neither => return Err(Refusal::UnknownInstruction(line)),
        Meaning::Table(place) => dispatch_instruction(job, &descriptors, place, &mut cursor),
        Meaning::Builtin(pseudo) => emit_dispatch::dispatch_pseudo(job, pseudo, &mut cursor),
    };
    Ok(line_read(line, answer, &cursor))
}

// Appends the line, or refuses it with 1 to 12, 19, 20 or 27.
fn emit_line(
    job: Job,
    lists: Lists<'_>,
    data: &mut [u8],
    pending: &mut [u8],
    breakpoints: &mut [u8],
    numbers: LineNumbers,
) -> Result<Appended, RefusedLine>
    ensures { emit_outcome job (call_of lists.entry.tokens.now lists.entry.mnemonic.now lists.entry.descriptors.now
        (lent_of «data».old pending.old breakpoints.old) numbers.counts numbers.place)
        ≡ left_by numbers.counts result (lent_of «data».new pending.new breakpoints.new) }
{
    let place = numbers.place;
    let passed = emit_checks::check_lists(
        lists,
        &*data,
        &*pending,
        &*breakpoints,
        place.region,
        numbers.counts,
    );
    emit_checks::at_position(place.position, passed)?;
    let line = read_line(job, lists, place.position);
    let read = emit_checks::at_position(place.position, line)?;
    emit_made::append_or_refuse(lists.tokens, data, pending, breakpoints, numbers, read)
}

// Emits the line of one mnemonic, or refuses it and leaves every lent byte and count as it was.
pub fn do_job(
    job: Job,
    counts: FillCounts,
    lists: Lists<'_>,
    data: &mut [u8],
    pending: &mut [u8],
    breakpoints: &mut [u8],
    place: LinePlace,
) -> Emitted
    ensures { EmittedBy job (call_of lists.entry.tokens.now lists.entry.mnemonic.now lists.entry.descriptors.now
        (lent_of «data».old pending.old breakpoints.old) counts place)
        result.answer result.counts (lent_of «data».new pending.new breakpoints.new) }
{
    let numbers = LineNumbers { counts, place };
    let given = emit_line(job, lists, data, pending, breakpoints, numbers);
    emit_made::emitted(counts, given)
}
