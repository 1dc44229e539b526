// Tokens by their places, as writing out reads them: a body with its arguments put in, a call's arguments, and what to do with a token.
#![tactic(auto)]

ghost use Rattle.std.proofs.Props.{props};
ghost use Rattle.std.specs.Prelude.{◌≡◌, None, MatchOption, ◌+◌, ◌*◌, ◌≤◌, ◌<◌, length};
ghost use Rattle.std.specs.Iterator.{YieldsFirst, item_count};
ghost use Rattle.record.specs.Bytes.{location_at};
ghost use Rattle.record.specs.Records.{kind_at, next, places_from, first_bad, limit};
ghost use Rattle.record.specs.Stores.{append};
ghost use Rattle.lexer.specs.Tokens.{TokenIs, token_ok, text_of};
ghost use Rattle.line_heads.specs.Lines.{starts_colon, record_at};
ghost use Rattle.macros.specs.Macros.{macro_layout};
ghost use Rattle.written_out.specs.Above.{above};
ghost use Rattle.written_out.specs.Acts.{leading_of, act_of};
ghost use Rattle.macro_lookup.specs.Lookup.{CalleeIs};
ghost use Rattle.macro_tokens.specs.Places.{token_record, TokenIn, only, place_of, read_from, Readable, ReadableFrom};
ghost use Rattle.macro_tokens.specs.Arguments.{with_token, arguments_from, Takes};
ghost use Rattle.macro_tokens.specs.Meant.{ActIs};

use macros::{Macros, Names, PARAMETER};
use record::Location;
use written_out::Mode;

// The kinds of tokens, as usize: half_at returns a record's kind as one.
const COMMENT: usize = lexer::COMMENT as usize;

const SYMBOL: usize = lexer::SYMBOL as usize;

const COMMA: usize = lexer::COMMA as usize;

const COLON: usize = lexer::COLON as usize;

const NEW_LINE: usize = lexer::NEW_LINE as usize;

// A body being read. Its tokens begin at `start` in its list, its `count` parameter names at `names`; `args` holds the arguments' places.
// A place counts on from the token list into the macro list; `base` is the place of the list's first byte.
#[derive(Clone, Copy)]
pub struct Body {
    pub base: usize,
    pub start: usize,
    pub names: usize,
    pub count: usize,
    pub args: [usize; 8],
}

// A body with the list that holds its tokens and its parameters' names.
#[derive(Clone, Copy)]
pub struct Reading<'a> {
    pub list: &'a [u8],
    pub body: Body,
}

// The token list and the macro list; each place is in one of them.
#[derive(Clone, Copy)]
pub struct Source<'a> {
    pub text: &'a [u8],
    pub macros: &'a [u8],
}

// The record of a token.
#[derive(Clone, Copy)]
pub struct Token<'a> {
    pub bytes: &'a [u8],
    ghost long: { 12 ≤ length bytes.now },
    ghost whole: { length bytes.now ≡ next bytes.now 0 } by { Prim.hlevel props },
}

// An iterator over the places of a list's tokens, from `at` on. Each record there is a token, so none needs a check for being cut off.
#[derive(Clone, Copy)]
struct Tokens<'a> {
    list: &'a [u8],
    at: usize,
    ghost good: { first_bad (token_ok list.now) (places_from list.now at) ≡ None } by { Prim.hlevel props },
}

// The two lists, and the place `limit` in the macro list: only macros before it may be called.
#[derive(Clone, Copy)]
pub struct Callable<'a> {
    pub source: Source<'a>,
    pub limit: usize,
    pub ghost within: { limit ≤ length source.macros.now },
    pub ghost macros_good: { macro_layout source.macros.now ≡ None } by { Prim.hlevel props },
}

// A call's arguments: how many, and the places of the first eight.
// kept: an array beside its count, since nothing is taken from a heap.
#[derive(Clone, Copy)]
pub struct Taken {
    pub count: usize,
    pub args: [usize; 8],
}

// What is done with the next token.
#[derive(Clone, Copy)]
pub enum Act {
    Write(Mode),
    Pass,
    // the macro's place in the macro list
    Call(usize),
}

// ---- the token at a place

impl<'a> Token<'a> {
    pub fn location(self) -> Location
        ensures { result ≡ location_at self.entry.bytes.now 4 }
    {
        record::location_at(self.bytes, 4)
    }

    // Copies the token to `fill` on, if `really` is set.
    pub fn put(self, really: bool, out: &mut [u8], fill: usize)
        requires { fill + length self.bytes.now ≤ length out.old }
        ensures { out.new ≡ append out.old fill (only really self.entry.bytes.now) }
    {
        if really {
            record::put_all(out, fill, self.bytes);
        }
    }

    fn text(self) -> &'a [u8]
        ensures { result.now ≡ text_of self.entry.bytes.now 0 }
    {
        &self.bytes[12..]
    }
}

// Returns the token whose record stands at `at` in a list.
fn token_of(list: &[u8], at: usize) -> Token<'_>
    requires { TokenIs list.now at }
    ensures { result.bytes.now ≡ record_at list.now at }
{
    Token {
        bytes: &list[at..record::next(list, at)],
    }
}

pub fn token_at<'a>(source: &Source<'a>, place: usize) -> Token<'a>
    requires { TokenIn source.now.text.now source.now.macros.now place }
    ensures { result.bytes.now ≡ token_record source.now.text.now source.now.macros.now place }
{
    if place < source.text.len() {
        token_of(source.text, place)
    } else {
        token_of(source.macros, place - source.text.len())
    }
}

// Returns the kind of the token at a place, for which its record's end is not needed.
fn kind_of(source: &Source<'_>, place: usize) -> usize
    requires { TokenIn source.now.text.now source.now.macros.now place }
    ensures { result ≡ kind_at (token_record source.now.text.now source.now.macros.now place) 0 }
{
    if place < source.text.len() {
        record::half_at(source.text, place + 2)
    } else {
        record::half_at(source.macros, place - source.text.len() + 2)
    }
}

// Returns the macro before the limit that the token's text names.
fn callee_of(callable: &Callable<'_>, token: Token<'_>) -> Option<usize>
    ensures { MatchOption result (CalleeIs callable.now.source.macros.now (text_of token.entry.bytes.now 0) callable.now.limit callable.now.limit)
        (λ k. CalleeIs callable.now.source.macros.now (text_of token.entry.bytes.now 0) callable.now.limit k × (k < callable.now.limit)) }
{
    let macros = Macros {
        bytes: callable.source.macros,
    };
    macro_lookup::callee(&macros, callable.limit, token.text())
}

// ---- a body

// Returns the place of the argument for the Parameter at `at`, or the Parameter's own place if it is none of the body's. It stays a call,
// so that `place_at` is short enough to be inlined.
#[inline(never)]
fn argument_at(reading: &Reading<'_>, at: usize) -> usize
    requires { Readable reading.now.list.now reading.now.body × TokenIs reading.now.list.now at × (kind_at reading.now.list.now at ≡ 2) }
    ensures { result ≡ place_of reading.now.list.now reading.now.body at }
{
    let names = Names {
        list: reading.list,
        count: reading.body.count,
        at: reading.body.names,
    };
    let next = record::next(reading.list, at);
    match names.index_of(&reading.list[at + 12..next]) {
        Some(i) => reading.body.args[i],
        None => reading.body.base + at,
    }
}

// Returns the place of the token at `at`, or of the argument put in for it.
pub fn place_at(reading: &Reading<'_>, at: usize) -> usize
    requires { Readable reading.now.list.now reading.now.body × TokenIs reading.now.list.now at }
    ensures { result ≡ place_of reading.now.list.now reading.now.body at }
{
    if record::half_at(reading.list, at + 2) == PARAMETER {
        argument_at(reading, at)
    } else {
        reading.body.base + at
    }
}

// Whether a Colon stands at `at`; false at the end of the list.
fn colon_at(source: &Source<'_>, reading: &Reading<'_>, at: usize) -> bool
    requires { ReadableFrom source.now.text.now source.now.macros.now reading.now.list.now reading.now.body at }
    ensures { result ≡ starts_colon (read_from source.now.text.now source.now.macros.now reading.now.list.now reading.now.body at) }
{
    if at < reading.list.len() {
        kind_of(source, place_at(reading, at)) == COLON
    } else {
        false
    }
}

// Takes one more token of a call. A Comma or Comment is not an argument; from the ninth on, arguments are only counted.
fn take(taken: &mut Taken, kind: usize, place: usize)
    requires { (taken.old.count ≤ 2 * limit) × (length taken.old.args ≡ 8) }
    ensures { taken.new ≡ with_token taken.old kind place }
{
    if kind == COMMA || kind == COMMENT {
        return;
    }
    if taken.count < 8 {
        taken.args[taken.count] = place;
    }
    taken.count += 1;
}

impl<'a> Iterator for Tokens<'a> {
    type Item = usize;

    ghost next_gives = { YieldsFirst (λ s. places_from s.list.now s.at) };

    ghost remaining = { item_count (λ s. places_from s.list.now s.at) };

    fn next(&mut self) -> Option<usize> {
        let at = self.at;
        if at >= self.list.len() {
            return None;
        }
        *self = Tokens {
            list: self.list,
            at: record::next(self.list, at),
        };
        Some(at)
    }
}

// Collects the arguments from `from` up to NewLine or the end.
pub fn arguments_from(source: &Source<'_>, reading: &Reading<'_>, from: usize) -> Taken
    requires { ReadableFrom source.now.text.now source.now.macros.now reading.now.list.now reading.now.body from }
    ensures { Takes source.now.text.now source.now.macros.now result (arguments_from source.now.text.now source.now.macros.now reading.now.list.now reading.now.body from) }
{
    let mut taken = Taken {
        count: 0,
        args: [0; 8],
    };
    let tokens = Tokens {
        list: reading.list,
        at: from,
    };
    for at in tokens {
        let place = place_at(reading, at);
        let kind = kind_of(source, place);
        if kind == NEW_LINE {
            return taken;
        }
        take(&mut taken, kind, place);
    }
    taken
}

// ---- what is done with a token

// Decides what to do with a token before its line's head.
fn act_leading(
    callable: &Callable<'_>,
    reading: &Reading<'_>,
    place: usize,
    kind: usize,
    next: usize,
) -> Act
    requires token_in { TokenIn callable.now.source.text.now callable.now.source.macros.now place }
    requires kind_is { kind ≡ kind_at (token_record callable.now.source.text.now callable.now.source.macros.now place) 0 }
    requires readable_from { ReadableFrom callable.now.source.text.now callable.now.source.macros.now reading.now.list.now reading.now.body next }
    ensures { ActIs callable.now.source.macros.now callable.now.limit (leading_of (above callable.now.source.macros.now callable.now.limit) (token_record callable.now.source.text.now callable.now.source.macros.now place) (starts_colon (read_from callable.now.source.text.now callable.now.source.macros.now reading.now.list.now reading.now.body next))) result }
{
    match kind {
        NEW_LINE | COMMENT => Act::Write(Mode::Leading),
        SYMBOL if colon_at(&callable.source, reading, next) => Act::Write(Mode::Labelled),
        SYMBOL => callee_of(callable, token_at(&callable.source, place)).map_or(
            Act::Write(Mode::Copied),
            Act::Call,
        ),
        _ => Act::Write(Mode::Copied),
    }
}

// Decides what to do with the token at `place`; the body goes on at `next`. The token's length matters only where it may be a call.
pub fn act_at(
    callable: &Callable<'_>,
    reading: &Reading<'_>,
    mode: Mode,
    place: usize,
    next: usize,
) -> Act
    requires token_in { TokenIn callable.now.source.text.now callable.now.source.macros.now place }
    requires readable_from { ReadableFrom callable.now.source.text.now callable.now.source.macros.now reading.now.list.now reading.now.body next }
    ensures { ActIs callable.now.source.macros.now callable.now.limit (act_of (above callable.now.source.macros.now callable.now.limit) mode (token_record callable.now.source.text.now callable.now.source.macros.now place) (read_from callable.now.source.text.now callable.now.source.macros.now reading.now.list.now reading.now.body next)) result }
{
    let kind = kind_of(&callable.source, place);
    // kept: an arm `Copied | LeftOut if kind == NEW_LINE` is no plainer, since each arm after it is then proved twice
    match mode {
        Mode::Leading => act_leading(callable, reading, place, kind, next),
        Mode::Labelled => Act::Write(Mode::Leading),
        Mode::Copied => {
            if kind == NEW_LINE {
                Act::Write(Mode::Leading)
            } else {
                Act::Write(Mode::Copied)
            }
        }
        Mode::LeftOut => {
            if kind == NEW_LINE {
                Act::Write(Mode::Leading)
            } else {
                Act::Pass
            }
        }
    }
}
