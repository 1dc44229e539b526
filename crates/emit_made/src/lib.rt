// Refuses a line that was read, or appends it to the region data, the pending list and the breakpoints (emit.rs).
#![tactic(auto)]

ghost use Rattle.std.specs.Prelude.{◌≡◌};
ghost use Rattle.emit_outcome.specs.Call.{lent_of, outcome_of};
ghost use Rattle.emit_outcome.specs.Room.{room_stop};
ghost use Rattle.emit_outcome.specs.Emit.{accept, line_outcome};
ghost use Rattle.emit_pairs.specs.Pairs.{pairs_of};
ghost use Rattle.emit_checks.specs.Made.{words_line, made_line, Filled, emitted_by, left_by};

use breakpoints::Pcs;
use emit_bytes::LinePendings;
use emit_checks::LineRead;
use emit_outcome::{Appended, DoneLine, Emitted, FillCounts, LineNumbers, RefusedLine};
use emit_pairs::EmitInstruction;
use pending::Origin;
use record::Location;

// Turns a line's outcome into the call's answer and counts. A refusal leaves the counts as given.
pub fn emitted(counts: FillCounts, given: Result<Appended, RefusedLine>) -> Emitted
    ensures { result ≡ emitted_by counts given }
{
    match given {
        Ok(appended) => Emitted {
            answer: Ok(appended.done),
            counts: appended.counts,
        },
        Err(refused) => Emitted {
            answer: Err(refused),
            counts,
        },
    }
}

// Appends a line that has room: its words, its pending records and its breakpoint.
pub fn append_line(
    tokens: &[u8],
    data: &mut [u8],
    pending: &mut [u8],
    breakpoints: &mut [u8],
    numbers: LineNumbers,
    line: Location,
    words: EmitInstruction,
    position: u32,
) -> Appended
    requires filled { Filled tokens.now (lent_of «data».old pending.old breakpoints.old) numbers.counts }
    requires emit_value { room_stop tokens.now line numbers (lent_of «data».old pending.old breakpoints.old) (pairs_of words) ≡ Ok tt }
    ensures { accept tokens.now line numbers
        (lent_of «data».old pending.old breakpoints.old) (words_line words position)
        ≡ outcome_of (Ok result.done) result.counts (lent_of «data».new pending.new breakpoints.new) }
{
    let counts = numbers.counts;
    let n = emit_bytes::count_of(words.count);
    let waits = LinePendings::new(tokens, words);
    let size = waits.size() as u32;
    let pc = numbers.place.address.wrapping_add(counts.data_len);
    let bytes = 4 * n as u32;
    emit_bytes::put_words(data, counts.data_len as usize, words);
    let origin = Origin {
        region: numbers.place.region,
        offset: counts.data_len,
        location: line,
    };
    waits.put(pending, counts.pending as usize, origin);
    let pcs = Pcs {
        first: pc,
        count: n,
    };
    breakpoints::put_breakpoint(breakpoints, counts.breakpoints as usize, line, pcs);
    let grown = FillCounts {
        data_len: counts.data_len + bytes,
        pending: counts.pending + size,
        breakpoints: counts.breakpoints + (12 + bytes),
    };
    Appended {
        done: DoneLine {
            position,
            loaded: words.loaded,
        },
        counts: grown,
    }
}

// Appends a line that was read, or refuses it with 4 to 12, 19, 20 or 27.
pub fn append_or_refuse(
    tokens: &[u8],
    data: &mut [u8],
    pending: &mut [u8],
    breakpoints: &mut [u8],
    numbers: LineNumbers,
    read: LineRead,
) -> Result<Appended, RefusedLine>
    requires { Filled tokens.now (lent_of «data».old pending.old breakpoints.old) numbers.counts }
    ensures { line_outcome tokens.now read.line numbers
        (lent_of «data».old pending.old breakpoints.old) (made_line read)
        ≡ left_by numbers.counts result (lent_of «data».new pending.new breakpoints.new) }
{
    let passed = emit_checks::check_line(tokens, &*data, &*pending, &*breakpoints, numbers, read);
    let words = emit_checks::at_position(read.position, passed)?;
    Ok(append_line(
        tokens,
        data,
        pending,
        breakpoints,
        numbers,
        read.line,
        words,
        read.position,
    ))
}
