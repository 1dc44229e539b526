// Writes macros out. A first pass over the token list finds the answer; a second one writes, and only if the first refused nothing.
#![tactic(auto)]

ghost use Rattle.std.specs.Prelude.{◌≡◌, true, None, [], ◌∷◌, ◌≤◌, length};
ghost use Rattle.record.specs.Bytes.{location_at};
ghost use Rattle.record.specs.Records.{limit};
ghost use Rattle.record.specs.Stores.{append};
ghost use Rattle.macros.specs.Macros.{macro_at_ok, macro_layout};
ghost use Rattle.lexer.specs.Tokens.{token_layout};
ghost use Rattle.written_out.specs.declared.Mode.TheVariants.{Leading};
ghost use Rattle.written_out.specs.Written.{write, replaced, written_out};
ghost use Rattle.written_out.specs.Outcome.{answer_from, write_out_outcome};
ghost use Rattle.written_out.specs.Above.{macro_at, above};
ghost use Rattle.macro_tokens.specs.Places.{token_record, TokenIn, only, ReadableFrom};
ghost use Rattle.macro_tokens.specs.Arguments.{arguments_from};
ghost use Rattle.write_out.specs.Body.{steps_from, Ready, written_from};
ghost use Rattle.macro_tokens.specs.declared.Act.TheVariants.{Call};
ghost use Rattle.write_out.specs.Calls.{call_verdict, CallIs, act_steps, Acting};
ghost use Rattle.write_out.specs.Entry.{stop_by};

use macro_tokens::{Act, Body, Callable, Reading, Source, Token};
use macros::Macros;
use record::Location;
use refusal::Refusal;
use written_out::Mode;

// Checks one call: a wrong count of arguments is refused before a ninth level.
fn call_verdict(
    location: Location,
    given: usize,
    count: usize,
    levels: usize,
) -> Result<(), Refusal>
    ensures { result ≡ call_verdict location given count levels }
{
    if given != count {
        return Err(Refusal::WrongArguments(location));
    }
    if levels == 0 {
        return Err(Refusal::NinthLevel(location));
    }
    Ok(())
}

// A body being written out, with the two lists. It may call macros before the place `most`; its calls may nest `levels` deep.
#[derive(Clone, Copy)]
struct Frame<'a> {
    source: Source<'a>,
    reading: Reading<'a>,
    most: usize,
    levels: usize,
}

// A token met in a body: its place, and where the body goes on after it.
#[derive(Clone, Copy)]
struct Met {
    place: usize,
    next: usize,
}

// Returns the body that replaces this call of the macro at k, or the call's refusal.
fn call_at(frame: &Frame<'_>, met: &Met, k: usize) -> Result<Body, Refusal>
    requires token_in { TokenIn frame.now.source.text.now frame.now.source.macros.now met.now.place × ReadableFrom frame.now.source.text.now frame.now.source.macros.now frame.now.reading.list.now frame.now.reading.body met.now.next }
    requires text_len_bound { (length frame.now.source.text.now ≤ limit) × (macro_layout frame.now.source.macros.now ≡ None) × (macro_at_ok frame.now.source.macros.now k ≡ true) }
    ensures { CallIs frame.now.source.text.now frame.now.source.macros.now frame.now.levels k (replaced frame.now.levels (location_at (token_record frame.now.source.text.now frame.now.source.macros.now met.now.place) 4) (macro_at frame.now.source.macros.now k) (above frame.now.source.macros.now k) (arguments_from frame.now.source.text.now frame.now.source.macros.now frame.now.reading.list.now frame.now.reading.body met.now.next)) result }
{
    let source = &frame.source;
    let head = macros::head_of(macros::body_at(source.macros, k));
    let taken = macro_tokens::arguments_from(source, &frame.reading, met.next);
    let location = macro_tokens::token_at(source, met.place).location();
    call_verdict(location, taken.count, head.count, frame.levels)?;
    let args = taken.args;
    Ok(Body {
        base: source.text.len() + k + 4,
        start: head.body,
        names: head.names,
        count: head.count,
        args,
    })
}

// Writes the token at `fill` and returns the new fill, or refuses if there is no room.
fn write_token(
    token: Token<'_>,
    really: bool,
    out: &mut [u8],
    fill: usize,
) -> Result<usize, Refusal>
    requires { fill ≤ length out.old }
    ensures value { result ≡ answer_from (length out.old) fill (write token.entry.bytes.now ∷ []) }
    ensures out_after { out.new ≡ append out.old fill (only really (written_from (length out.old) fill (write token.entry.bytes.now ∷ []))) }
{
    let size = token.bytes.len();
    if out.len() - fill < size {
        return Err(Refusal::NoWrittenSpace(token.location()));
    }
    token.put(really, out, fill);
    Ok(fill + size)
}

// Writes this call of the macro at k out. Returns the new fill, or the first refusal.
// kept: `out` and `fill` are two parameters, since a struct that holds a `&mut` needs a clause on its `ghost_name` in each contract.
#[cycle(write_call_write_body)]
fn write_call(
    frame: &Frame<'_>,
    met: &Met,
    k: usize,
    really: bool,
    out: &mut [u8],
    fill: usize,
) -> Result<usize, Refusal>
    requires { Acting frame.now.source.text.now frame.now.source.macros.now frame.now.most frame.now.reading.list.now frame.now.reading.body met.now.place met.now.next (Call k) × (fill ≤ length out.old) }
    ensures value { result ≡ answer_from (length out.old) fill (act_steps frame.now.source.text.now frame.now.source.macros.now frame.now.levels frame.now.reading.list.now frame.now.reading.body met.now.place met.now.next (Call k)) }
    ensures out_after { out.new ≡ append out.old fill (only really (written_from (length out.old) fill (act_steps frame.now.source.text.now frame.now.source.macros.now frame.now.levels frame.now.reading.list.now frame.now.reading.body met.now.place met.now.next (Call k)))) }
{
    let body = call_at(frame, met, k)?;
    let list = macros::body_at(frame.source.macros, k);
    let called = Frame {
        source: frame.source,
        reading: Reading { list, body },
        most: k,
        levels: frame.levels - 1,
    };
    write_body(&called, really, out, fill)
}

// Writes a body out from `from` on, or only measures it if `really` is false. Returns the new fill, or the first refusal. `most` falls at
// each call: in a called body it is the place of the called macro.
// kept: `really` is a flag because of the rule on speed: measuring and writing are one function that is run twice.
#[cycle(write_call_write_body)]
fn write_body(
    frame: &Frame<'_>,
    really: bool,
    out: &mut [u8],
    from: usize,
) -> Result<usize, Refusal>
    requires { Ready frame.now.source.text.now frame.now.source.macros.now frame.now.most frame.now.reading.list.now frame.now.reading.body × (from ≤ length out.old) }
    ensures value { result ≡ answer_from (length out.old) from (steps_from frame.now.source.text.now frame.now.source.macros.now frame.now.most frame.now.levels frame.now.reading.list.now frame.now.reading.body Leading frame.now.reading.body.start) }
    ensures out_after { out.new ≡ append out.old from (only really (written_from (length out.old) from (steps_from frame.now.source.text.now frame.now.source.macros.now frame.now.most frame.now.levels frame.now.reading.list.now frame.now.reading.body Leading frame.now.reading.body.start))) }
{
    // its own copy, so that no field has to be read again after a write to `out`
    let frame = *frame;
    let reading = frame.reading;
    let callable = Callable {
        source: frame.source,
        limit: frame.most,
    };
    let mut at = reading.body.start;
    let mut fill = from;
    let mut mode = Mode::Leading;
    // kept: a call's arguments begin at `next`, which the walk already has; an iterator over places would work it out again
    while at < reading.list.len() {
        let next = record::next(reading.list, at);
        let place = macro_tokens::place_at(&reading, at);
        match macro_tokens::act_at(&callable, &reading, mode, place, next) {
            Act::Write(after) => {
                let token = macro_tokens::token_at(&frame.source, place);
                fill = write_token(token, really, &mut *out, fill)?;
                mode = after;
            }
            Act::Pass => mode = Mode::LeftOut,
            Act::Call(k) => {
                let met = Met { place, next };
                fill = write_call(&frame, &met, k, really, &mut *out, fill)?;
                mode = Mode::LeftOut;
            }
        }
        at = next;
    }
    Ok(fill)
}

// Makes one pass over the token list, as a body without parameters that may call all macros.
fn write_all(source: &Source<'_>, really: bool, out: &mut [u8]) -> Result<usize, Refusal>
    requires { (token_layout source.now.text.now ≡ None) × (macro_layout source.now.macros.now ≡ None) }
    ensures value { result ≡ answer_from (length out.old) 0 (written_out source.now.text.now source.now.macros.now) }
    ensures out_after { out.new ≡ append out.old 0 (only really (written_from (length out.old) 0 (written_out source.now.text.now source.now.macros.now))) }
{
    let body = Body {
        base: 0,
        start: 0,
        names: 0,
        count: 0,
        args: [0; 8],
    };
    let frame = Frame {
        source: *source,
        reading: Reading {
            list: source.text,
            body,
        },
        most: source.macros.len(),
        levels: 8,
    };
    write_body(&frame, really, out, 0)
}

// Checks for refusals 1 and 2.
fn check(tokens: &[u8], macros: &[u8], out: &[u8]) -> Result<(), Refusal>
    ensures { result ≡ stop_by tokens.now macros.now (length out.now) }
{
    refusal::check_layout(0, lexer::first_bad_token(tokens))?;
    refusal::check_layout(1, macros::first_bad_macro(macros))?;
    refusal::check_layout(2, record::past_limit(out))?;
    refusal::check_names(1, macro_lookup::first_repeat(&Macros { bytes: macros }))
}

// Writes the token list, with its calls written out, to the start of `out` and returns the new fill. A refusal changes no byte.
pub fn write_out(tokens: &[u8], macros: &[u8], out: &mut [u8]) -> Result<u32, Refusal>
    ensures { write_out_outcome tokens.now macros.now out.old ≡ (record { answer = result; out = out.new }) }
{
    check(tokens, macros, &*out)?;
    let source = Source {
        text: tokens,
        macros,
    };
    write_all(&source, false, &mut *out)?;
    Ok(write_all(&source, true, out)? as u32)
}
