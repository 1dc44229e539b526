// Reads token records into tokens (the token types of lexer.rs).
#![tactic(auto)]

ghost use Rattle.std.specs.Prelude.{◌≡◌, ◌+◌, ◌≤◌, ◌<◌, min, ◌&&◌, length, leb};
ghost use Rattle.std.specs.Float.Ieee.{of_bits};
ghost use Rattle.std.specs.Float.{binary64};
ghost use Rattle.record.specs.Bytes.{part, is_text, all};
ghost use Rattle.record.specs.Records.{body_len, kind_at, next};
ghost use Rattle.lexer.specs.Tokens.{payload_of, payload_ok, token_ok, TokenIs, token_layout, token_at, strip};
ghost use Rattle.lexer.specs.Views.{as_register, as_fp_register, as_integer, as_symbol};

use record::Location;
use registers::{FPRegisterSlot, RegisterSlot};

// The token kinds, numbered as in StrippedKind.
pub const COMMENT: u8 = 0;

pub const DIRECTIVE: u8 = 1;

pub const PARAMETER: u8 = 2;

pub const REGISTER: u8 = 3;

pub const FP_REGISTER: u8 = 4;

pub const INTEGER_LITERAL: u8 = 5;

pub const FLOAT_LITERAL: u8 = 6;

pub const STRING_LITERAL: u8 = 7;

pub const SYMBOL: u8 = 8;

pub const PLUS: u8 = 9;

pub const MINUS: u8 = 10;

pub const COMMA: u8 = 11;

pub const COLON: u8 = 12;

pub const NEW_LINE: u8 = 13;

pub const LEFT_BRACE: u8 = 14;

pub const RIGHT_BRACE: u8 = 15;

// Where a text stands in the token list.
#[derive(Clone, Copy)]
pub struct Text {
    pub start: usize,
    pub len: usize,
}

#[derive(Clone, Copy)]
pub enum TokenKind {
    Comment(Text),
    Directive(Text),
    Parameter(Text),
    Register(RegisterSlot),
    FPRegister(FPRegisterSlot),
    IntegerLiteral(u64),
    FloatLiteral(f64),
    StringLiteral(Text),
    Symbol(Text),
    Plus,
    Minus,
    Comma,
    Colon,
    NewLine,
    LeftBrace,
    RightBrace,
}

#[derive(Clone, Copy)]
pub struct Token {
    pub location: Location,
    pub kind: TokenKind,
}

// What a kind of token has as its payload.
#[derive(Clone, Copy)]
pub enum Payload {
    Text,
    Slot,
    Number,
    Name,
    Nothing,
    Unknown,
}

// Returns the float with these bits. All patterns of NaN become one NaN, as Rattle makes none from its bits.
fn float_of(bits: u64) -> f64
    ensures { result ≡ of_bits binary64 bits }
{
    if 0x7FF0_0000_0000_0000 < bits % 0x8000_0000_0000_0000 {
        0.0 / 0.0
    } else {
        f64::from_bits(bits)
    }
}

// Returns the kind of the record at `at`, at most 255: no token has a kind above 15.
fn kind_at(list: &[u8], at: usize) -> u8
    requires { at + 4 ≤ length list.now }
    ensures { result ≡ min (kind_at list.now at) 255 }
{
    record::half_at(list, at + 2).min(255) as u8
}

#[tactic(auto, unfolding(crate::specs::Tokens::payload_of))]
fn payload_of(kind: u8) -> Payload
    ensures { result ≡ payload_of kind }
{
    match kind {
        COMMENT | DIRECTIVE | PARAMETER | STRING_LITERAL => Payload::Text,
        REGISTER | FP_REGISTER => Payload::Slot,
        INTEGER_LITERAL | FLOAT_LITERAL => Payload::Number,
        SYMBOL => Payload::Name,
        PLUS..=RIGHT_BRACE => Payload::Nothing,
        _ => Payload::Unknown,
    }
}

// Whether the payload of the record at `at`, `n` bytes long, is a text of at most 64 bytes.
fn text_ok(list: &[u8], at: usize, n: usize) -> bool
    requires { at + 12 + n ≤ length list.now }
    ensures { result ≡ (leb n 64 && all is_text (part list.now (at + 12) n)) }
{
    n <= 64 && record::all_text(&list[at + 12..at + 12 + n])
}

// Whether the payload of the record at `at`, `n` bytes long, is of the sort `payload`.
#[tactic(auto, unfolding(crate::specs::Tokens::payload_ok))]
fn payload_ok(payload: Payload, list: &[u8], at: usize, n: usize) -> bool
    requires { (n + 8 ≡ body_len list.now at) × (next list.now at ≤ length list.now) }
    ensures { result ≡ payload_ok payload list.now at }
{
    match payload {
        Payload::Text => text_ok(list, at, n),
        Payload::Slot => n == 1 && list[at + 12] <= 31,
        Payload::Number => n == 8,
        Payload::Name => 1 <= n && text_ok(list, at, n),
        Payload::Nothing => n == 0,
        Payload::Unknown => false,
    }
}

// The layout of a list of tokens.
struct Tokens;

impl record::Layout for Tokens {
    ghost keeps = { λ self list at. token_ok list at };

    fn keeps(&self, list: &[u8], at: usize) -> bool {
        if !record::whole_at(list, at) {
            return false;
        }
        let n = record::half_at(list, at);
        n >= 8 && payload_ok(payload_of(kind_at(list, at)), list, at, n - 8)
    }
}

// Returns the place of the first record that is not a token, or the limit if the list is longer.
#[tactic(auto, unfolding(crate::specs::Tokens::token_layout))]
pub fn first_bad_token(list: &[u8]) -> Option<usize>
    ensures { result ≡ token_layout list.now }
{
    record::first_bad_within(&Tokens, list)
}

// Reads the token at `at`, a record that keeps its layout.
pub fn token_at(list: &[u8], at: usize) -> Token
    requires { TokenIs list.now at }
    ensures { result ≡ token_at list.now at }
{
    let location = record::location_at(list, at + 4);
    let text = Text {
        start: at + 12,
        len: record::half_at(list, at) - 8,
    };
    let kind = match kind_at(list, at) {
        COMMENT => TokenKind::Comment(text),
        DIRECTIVE => TokenKind::Directive(text),
        PARAMETER => TokenKind::Parameter(text),
        REGISTER => TokenKind::Register(RegisterSlot::from(list[at + 12])),
        FP_REGISTER => TokenKind::FPRegister(FPRegisterSlot::from(list[at + 12])),
        INTEGER_LITERAL => TokenKind::IntegerLiteral(record::long_at(list, at + 12)),
        FLOAT_LITERAL => TokenKind::FloatLiteral(float_of(record::long_at(list, at + 12))),
        STRING_LITERAL => TokenKind::StringLiteral(text),
        SYMBOL => TokenKind::Symbol(text),
        PLUS => TokenKind::Plus,
        MINUS => TokenKind::Minus,
        COMMA => TokenKind::Comma,
        COLON => TokenKind::Colon,
        NEW_LINE => TokenKind::NewLine,
        LEFT_BRACE => TokenKind::LeftBrace,
        RIGHT_BRACE => TokenKind::RightBrace,
        _ => TokenKind::NewLine,
    };
    Token { location, kind }
}

// Returns a kind's number, as in StrippedKind.
pub fn strip(kind: TokenKind) -> u8
    ensures { result ≡ strip kind }
{
    match kind {
        TokenKind::Comment(_) => COMMENT,
        TokenKind::Directive(_) => DIRECTIVE,
        TokenKind::Parameter(_) => PARAMETER,
        TokenKind::Register(_) => REGISTER,
        TokenKind::FPRegister(_) => FP_REGISTER,
        TokenKind::IntegerLiteral(_) => INTEGER_LITERAL,
        TokenKind::FloatLiteral(_) => FLOAT_LITERAL,
        TokenKind::StringLiteral(_) => STRING_LITERAL,
        TokenKind::Symbol(_) => SYMBOL,
        TokenKind::Plus => PLUS,
        TokenKind::Minus => MINUS,
        TokenKind::Comma => COMMA,
        TokenKind::Colon => COLON,
        TokenKind::NewLine => NEW_LINE,
        TokenKind::LeftBrace => LEFT_BRACE,
        TokenKind::RightBrace => RIGHT_BRACE,
    }
}

// Returns the slot of a general register; None for another kind.
pub fn as_register(kind: TokenKind) -> Option<RegisterSlot>
    ensures { result ≡ as_register kind }
{
    match kind {
        TokenKind::Register(x) => Some(x),
        _ => None,
    }
}

// Returns the slot of a float register; None for another kind.
pub fn as_fp_register(kind: TokenKind) -> Option<FPRegisterSlot>
    ensures { result ≡ as_fp_register kind }
{
    match kind {
        TokenKind::FPRegister(x) => Some(x),
        _ => None,
    }
}

// Returns the number of an integer literal; None for another kind.
pub fn as_integer(kind: TokenKind) -> Option<u64>
    ensures { result ≡ as_integer kind }
{
    match kind {
        TokenKind::IntegerLiteral(x) => Some(x),
        _ => None,
    }
}

// Returns where a symbol's text stands; None for another kind.
pub fn as_symbol(kind: TokenKind) -> Option<Text>
    ensures { result ≡ as_symbol kind }
{
    match kind {
        TokenKind::Symbol(x) => Some(x),
        _ => None,
    }
}
