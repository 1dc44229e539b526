// The checks of an emit call, which change no bytes: of its lists (refusals 1 and 2), and of a line that was read (4 to 12, 19, 20 and 27).
#![tactic(auto)]

ghost use Rattle.std.specs.Prelude.{◌≡◌, ◌≤◌};
ghost use Rattle.emit_outcome.specs.Call.{lent_of};
ghost use Rattle.emit_outcome.specs.Checks.{layout_stop, list_stop, met_location, miss_refusal};
ghost use Rattle.emit_outcome.specs.Room.{edge_stop, room_stop};
ghost use Rattle.emit_outcome.specs.Emit.{fault_refusal, line_stop};
ghost use Rattle.emit_pairs.specs.Pairs.{pairs_of};
ghost use Rattle.emit_checks.specs.LineLists.{line_lists_stop};
ghost use Rattle.emit_checks.specs.Made.{made_line, Filled, PassedBy, stopped_at};

use descriptors::Descriptors;
use emit_bytes::LinePendings;
use emit_dispatch::Unmade;
use emit_outcome::{FillCounts, LineNumbers, Lists, RefusedLine};
use emit_pairs::{EmitInstruction, Fault};
use operand::Miss;
use record::Location;
use refusal::Refusal;

// A line that was read: the location of its mnemonic, its words or why there are none, and the token position after its operands.
#[derive(Clone, Copy)]
pub struct LineRead {
    pub line: Location,
    pub answer: Result<EmitInstruction, Unmade>,
    pub position: u32,
}

// Adds to a refusal the token position that reading has reached. An accepted value stays as it is.
pub fn at_position<T>(position: u32, given: Result<T, Refusal>) -> Result<T, RefusedLine>
    ensures { result ≡ stopped_at position given }
{
    given.map_err(|refusal| RefusedLine { refusal, position })
}

// Refuses with 1 the first list that breaks its layout: the tokens, the mnemonic or the descriptors.
pub fn check_line_lists(lists: Lists<'_>) -> Result<(), Refusal>
    ensures { result ≡ line_lists_stop lists.entry.tokens.now lists.entry.mnemonic.now lists.entry.descriptors.now }
{
    refusal::check_layout(0, lexer::first_bad_token(lists.tokens))?;
    refusal::check_layout(1, descriptors::first_bad_mnemonic(lists.mnemonic))?;
    refusal::check_layout(2, descriptors::first_bad_descriptor(lists.descriptors))
}

// Refuses with 1 the first list or buffer that breaks its layout.
pub fn check_layouts(
    lists: Lists<'_>,
    data: &[u8],
    pending: &[u8],
    breakpoints: &[u8],
    region: u16,
    counts: FillCounts,
) -> Result<(), Refusal>
    ensures { result ≡ layout_stop lists.entry.tokens.now lists.entry.mnemonic.now lists.entry.descriptors.now
        (lent_of «data».now pending.now breakpoints.now) region counts }
{
    check_line_lists(lists)?;
    let bytes = counts.data_len as usize;
    refusal::check_layout(3, breakpoints::check_data_buffer(data, bytes, region))?;
    let kept = counts.pending as usize;
    refusal::check_layout(4, breakpoints::check_pending_buffer(pending, kept))?;
    let filled = counts.breakpoints as usize;
    refusal::check_layout(5, breakpoints::check_breakpoint_buffer(breakpoints, filled))
}

// Checks the lists and buffers: refusals 1 and 2.
pub fn check_lists(
    lists: Lists<'_>,
    data: &[u8],
    pending: &[u8],
    breakpoints: &[u8],
    region: u16,
    counts: FillCounts,
) -> Result<(), Refusal>
    ensures { result ≡ list_stop lists.entry.tokens.now lists.entry.mnemonic.now lists.entry.descriptors.now
        (lent_of «data».now pending.now breakpoints.now) region counts }
{
    check_layouts(lists, data, pending, breakpoints, region, counts)?;
    refusal::check_names(2, Descriptors::new(lists.descriptors).first_repeat())
}

// Returns the refusal, 4 to 8, for an operand that could not be read. `line` is the location of the mnemonic.
fn miss_refusal(line: Location, miss: Miss) -> Refusal
    ensures { result ≡ miss_refusal line miss }
{
    match miss {
        Miss::EndOfFile => Refusal::EndOfFile(line),
        Miss::ExpectedRegister(kind, met) => Refusal::ExpectedRegister(
            met_location(line, kind, met),
            kind,
        ),
        Miss::ExpectedConstant(kind, met) => Refusal::ExpectedConstant(
            met_location(line, kind, met),
            kind,
        ),
        Miss::ExpectedLabel(kind, met) => Refusal::ExpectedLabel(
            met_location(line, kind, met),
            kind,
        ),
        Miss::ExpectedRightBrace(kind, met) => Refusal::ExpectedRightBrace(
            met_location(line, kind, met),
            kind,
        ),
    }
}

// Returns the refusal for a fault of the line: 9, 19, 20 or 27.
fn fault_refusal(line: Location, fault: Fault) -> Refusal
    ensures { result ≡ fault_refusal line fault }
{
    match fault {
        Fault::Immediate => Refusal::ConstantOutOfRange(line),
        Fault::ShiftAmount => Refusal::ShiftOutOfRange(line),
        Fault::ConditionCode => Refusal::CodeOutOfRange(line),
        Fault::Dropped => Refusal::DroppedInstruction(line),
    }
}

// Returns the location to report: the met token's, or the mnemonic's if that token is a NewLine.
fn met_location(line: Location, kind: u8, met: Location) -> Location
    ensures { result ≡ met_location line kind met }
{
    if kind == lexer::NEW_LINE { line } else { met }
}

// Refuses with 11 at the first of the n words whose pc does not fit 32 bits.
fn check_edge(numbers: LineNumbers, line: Location, n: usize) -> Result<(), Refusal>
    requires { (n ≤ 5) × (numbers.counts.data_len ≤ 65536) }
    ensures { result ≡ edge_stop line numbers.place.address n numbers.counts.data_len }
{
    let address = numbers.place.address;
    for i in 0..n {
        let at = numbers.counts.data_len + 4 * i as u32;
        if address > u32::MAX - at {
            return Err(Refusal::OverwriteEdge(line, address, at));
        }
    }
    Ok(())
}

// Checks that there is room for the line's words: refusals 10, 11 and 12.
fn check_room(
    tokens: &[u8],
    data: &[u8],
    pending: &[u8],
    breakpoints: &[u8],
    numbers: LineNumbers,
    line: Location,
    e: EmitInstruction,
) -> Result<(), Refusal>
    requires { Filled tokens.now (lent_of «data».now pending.now breakpoints.now) numbers.counts }
    ensures { result ≡ room_stop tokens.now line numbers
        (lent_of «data».now pending.now breakpoints.now) (pairs_of e) }
{
    let counts = numbers.counts;
    let n = emit_bytes::count_of(e.count);
    let size = LinePendings::new(tokens, e).size();
    if numbers.place.region == emit_outcome::NO_REGION {
        return Err(Refusal::MissingRegion(line));
    }
    check_edge(numbers, line, n)?;
    let filled = counts.data_len as usize + 4 * n;
    if filled > data.len() || filled > emit_outcome::MOST_DATA {
        return Err(Refusal::NoSpace(line, 0));
    }
    if counts.pending as usize + size > pending.len() {
        return Err(Refusal::NoSpace(line, 1));
    }
    if counts.breakpoints as usize + (12 + 4 * n) > breakpoints.len() {
        return Err(Refusal::NoSpace(line, 2));
    }
    Ok(())
}

// Returns the words of a line that was read, or its refusal: 4 to 12, 19, 20 or 27.
pub fn check_line(
    tokens: &[u8],
    data: &[u8],
    pending: &[u8],
    breakpoints: &[u8],
    numbers: LineNumbers,
    read: LineRead,
) -> Result<EmitInstruction, Refusal>
    requires { Filled tokens.now (lent_of «data».now pending.now breakpoints.now) numbers.counts }
    ensures { PassedBy (line_stop tokens.now read.line numbers
        (lent_of «data».now pending.now breakpoints.now) (made_line read)) read result }
{
    let line = read.line;
    // kept: with `map_err` the match on `Unmade` would go into one more function, which needs a definition of its own for its contract
    match read.answer {
        Err(Unmade::Missed(miss)) => Err(miss_refusal(line, miss)),
        Err(Unmade::OutOfRange(fault)) => Err(fault_refusal(line, fault)),
        Ok(words) => {
            check_room(tokens, data, pending, breakpoints, numbers, line, words)?;
            Ok(words)
        }
    }
}
