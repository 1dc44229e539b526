// Writes tokens as token records, the reverse of `token_at`.
#![tactic(auto)]

ghost use Rattle.std.specs.Prelude.{◌≡◌, ◌+◌, ◌≤◌, length};
ghost use Rattle.std.specs.Float.Ieee.{to_bits};
ghost use Rattle.std.specs.Float.{binary64};
ghost use Rattle.record.specs.Stores.{append};
ghost use Rattle.token_bytes.specs.TokenBytes.{carried_by, carried_size, carried_bytes, text_bytes, token_bytes, TextFits, CarriedFits};

use lexer::{Text, Token, TokenKind};
use registers::Slot;

// The bytes before the payload: the length and the kind, then the location.
const BEFORE_PAYLOAD: usize = 12;

// What a token carries after its location. A text's bytes are in another list.
#[derive(Clone, Copy)]
pub enum Carried {
    Text(Text),
    Slot(u8),
    Number(u64),
    Name(Text),
    Nothing,
}

// Returns the bits of a float. Every NaN gives the quiet NaN's bits, since the model of floats has only one NaN.
fn bits_of(x: f64) -> u64
    ensures { result ≡ to_bits binary64 x }
{
    if x.is_nan() {
        0x7FF8_0000_0000_0000
    } else {
        x.to_bits()
    }
}

fn carried_by(kind: TokenKind) -> Carried
    ensures { result ≡ carried_by kind }
{
    match kind {
        TokenKind::Comment(text)
        | TokenKind::Directive(text)
        | TokenKind::Parameter(text)
        | TokenKind::StringLiteral(text) => Carried::Text(text),
        TokenKind::Symbol(text) => Carried::Name(text),
        TokenKind::Register(slot) => Carried::Slot(slot.number() as u8),
        TokenKind::FPRegister(slot) => Carried::Slot(slot.number() as u8),
        TokenKind::IntegerLiteral(n) => Carried::Number(n),
        TokenKind::FloatLiteral(x) => Carried::Number(bits_of(x)),
        _ => Carried::Nothing,
    }
}

fn carried_size(carried: Carried) -> usize
    ensures { result ≡ carried_size carried }
{
    match carried {
        Carried::Text(text) | Carried::Name(text) => text.len,
        Carried::Slot(_) => 1,
        Carried::Number(_) => 8,
        Carried::Nothing => 0,
    }
}

// Returns how many bytes a token's record has. Its text has at most 64 of them.
pub fn record_size(kind: TokenKind) -> usize
    requires { carried_size (carried_by kind) ≤ 64 }
    ensures { result ≡ 12 + carried_size (carried_by kind) }
{
    BEFORE_PAYLOAD + carried_size(carried_by(kind))
}

// Copies a token's text from its place in `texts`.
fn put_text(d: &mut [u8], texts: &[u8], at: usize, text: Text)
    requires text_fits { TextFits texts.now text }
    requires len_in_bounds { at + text.len ≤ length d.old }
    ensures { d.new ≡ append d.old at (text_bytes texts.now text) }
{
    record::put_all(d, at, &texts[text.start..text.start + text.len]);
}

fn put_carried(d: &mut [u8], texts: &[u8], at: usize, carried: Carried)
    requires carried_fits { CarriedFits texts.now carried }
    requires carried_in_bounds { at + carried_size carried ≤ length d.old }
    ensures { d.new ≡ append d.old at (carried_bytes texts.now carried) }
{
    match carried {
        Carried::Text(text) | Carried::Name(text) => put_text(d, texts, at, text),
        Carried::Slot(n) => d[at] = n,
        Carried::Number(n) => record::put64(d, at, n),
        Carried::Nothing => {}
    }
}

// Writes one token record at `at`. The token's text, if it has one, is a part of `texts`.
pub fn put_token(d: &mut [u8], texts: &[u8], at: usize, token: Token)
    requires carried_fits { CarriedFits texts.now (carried_by token.kind) }
    requires kind_in_bounds { at + 12 + carried_size (carried_by token.kind) ≤ length d.old }
    ensures { d.new ≡ append d.old at (token_bytes texts.now token) }
{
    let payload = carried_by(token.kind);
    let body = 8 + carried_size(payload);
    record::put_head(d, at, body as u16, u16::from(lexer::strip(token.kind)));
    record::put_location(d, at + 4, token.location);
    put_carried(d, texts, at + BEFORE_PAYLOAD, payload);
}
