// Reads what is at a place of a text: a blank, a token or a fault.
#![tactic(auto)]

ghost use Rattle.std.specs.Prelude.{◌≡◌, ◌+◌, ◌<◌, ◌≤◌, length, drop};
ghost use Rattle.text_pieces.specs.Numbers.{number_in};
ghost use Rattle.text_pieces.specs.Pieces.{line_ends, symbol_at, directive_at, parameter_at, comment_at, string_at, register_at};
ghost use Rattle.text_pieces.specs.Pieces.{starts_hexadecimal, hexadecimal_piece, number_at, mark_at, piece_at};

pub mod runs;

use byte_class::{ByteClasses, Class, Mark};
use lexer::{Text, TokenKind};
use register_names::{NamedRegister, RegisterNames};

// The most bytes that a token's text may have.
const LONGEST: usize = 64;

// The tables that a text is read with.
#[derive(Clone, Copy)]
pub struct Tables {
    pub classes: ByteClasses,
    pub names: RegisterNames,
}

impl Tables {
    pub fn new() -> Self {
        Tables {
            classes: ByteClasses::new(),
            names: RegisterNames::new(),
        }
    }
}

// A place of a text, before its end.
#[derive(Clone, Copy)]
pub struct Place<'a> {
    pub text: &'a [u8],
    pub at: usize,
    pub ghost inside: { at < length text.now },
}

#[derive(Clone, Copy)]
pub enum Piece {
    Blank,
    // its kind, and how many bytes of the text it takes
    Token(TokenKind, usize),
    // refusals 21 and 22
    BadByte,
    BadToken,
}

// A symbol, a directive and a parameter are read alike. Kept as three: a helper called at three places would not be inlined, and would return its
// 40 bytes through memory (CONTRIBUTING.md, 'Speed').
fn symbol_at(tables: &Tables, place: &Place<'_>) -> Piece
    ensures { result ≡ symbol_at place.now.text.now place.now.at }
{
    let len = runs::word_len(&tables.classes, &place.text[place.at..]);
    if len > LONGEST {
        return Piece::BadToken;
    }
    Piece::Token(
        TokenKind::Symbol(Text {
            start: place.at,
            len,
        }),
        len,
    )
}

fn directive_at(tables: &Tables, place: &Place<'_>) -> Piece
    ensures { result ≡ directive_at place.now.text.now place.now.at }
{
    let start = place.at + 1;
    let len = runs::word_len(&tables.classes, &place.text[start..]);
    if len > LONGEST {
        return Piece::BadToken;
    }
    Piece::Token(TokenKind::Directive(Text { start, len }), len + 1)
}

fn parameter_at(tables: &Tables, place: &Place<'_>) -> Piece
    ensures { result ≡ parameter_at place.now.text.now place.now.at }
{
    let start = place.at + 1;
    let len = runs::word_len(&tables.classes, &place.text[start..]);
    if len == 0 || len > LONGEST {
        return Piece::BadToken;
    }
    Piece::Token(TokenKind::Parameter(Text { start, len }), len + 1)
}

// Whether the text or the line ends at `at`.
fn line_ends(text: &[u8], at: usize) -> bool
    ensures { result ≡ line_ends text.now at }
{
    at >= text.len() || text[at] == b'\n'
}

fn comment_at(place: &Place<'_>) -> Piece
    ensures { result ≡ comment_at place.now.text.now place.now.at }
{
    let start = place.at + 1;
    let len = runs::text_len(&place.text[start..], b'\n');
    let end = start + len;
    if !line_ends(place.text, end) {
        return Piece::BadByte;
    }
    if len > LONGEST {
        return Piece::BadToken;
    }
    Piece::Token(TokenKind::Comment(Text { start, len }), len + 1)
}

fn string_at(place: &Place<'_>) -> Piece
    ensures { result ≡ string_at place.now.text.now place.now.at }
{
    let start = place.at + 1;
    let len = runs::text_len(&place.text[start..], b'"');
    let end = start + len;
    if end == place.text.len() || place.text[end] != b'"' {
        return Piece::BadByte;
    }
    if len > LONGEST {
        return Piece::BadToken;
    }
    Piece::Token(TokenKind::StringLiteral(Text { start, len }), len + 2)
}

fn register_at(tables: &Tables, place: &Place<'_>) -> Piece
    ensures { result ≡ register_at place.now.text.now place.now.at }
{
    let start = place.at + 1;
    let len = runs::word_len(&tables.classes, &place.text[start..]);
    let end = start + len;
    match tables.names.register_named(&place.text[start..end]) {
        Some(NamedRegister::General(r)) => Piece::Token(TokenKind::Register(r), len + 1),
        Some(NamedRegister::Float(r)) => Piece::Token(TokenKind::FPRegister(r), len + 1),
        None => Piece::BadToken,
    }
}

// Whether `0x` is at this place.
fn is_hexadecimal(place: &Place<'_>) -> bool
    ensures { result ≡ starts_hexadecimal place.now.text.now place.now.at }
{
    place.text[place.at..].starts_with(b"0x")
}

fn hexadecimal_at(place: &Place<'_>) -> Piece
    requires { place.now.at + 2 ≤ length place.now.text.now }
    ensures { result ≡ hexadecimal_piece (number_in 16 (drop (place.now.at + 2) place.now.text.now)) }
{
    match runs::number_in(&place.text[place.at + 2..], 16) {
        Some((value, len)) if len > 0 => Piece::Token(TokenKind::IntegerLiteral(value), len + 2),
        _ => Piece::BadToken,
    }
}

fn number_at(place: &Place<'_>) -> Piece
    ensures { result ≡ number_at place.now.text.now place.now.at }
{
    if is_hexadecimal(place) {
        return hexadecimal_at(place);
    }
    match runs::number_in(&place.text[place.at..], 10) {
        Some((value, len)) => Piece::Token(TokenKind::IntegerLiteral(value), len),
        None => Piece::BadToken,
    }
}

fn mark_at(tables: &Tables, mark: Mark, place: &Place<'_>) -> Piece
    ensures { result ≡ mark_at mark place.now.text.now place.now.at }
{
    match mark {
        Mark::Comment => comment_at(place),
        Mark::Directive => directive_at(tables, place),
        Mark::Parameter => parameter_at(tables, place),
        Mark::Register => register_at(tables, place),
        Mark::StringLiteral => string_at(place),
        Mark::Plus => Piece::Token(TokenKind::Plus, 1),
        Mark::Minus => Piece::Token(TokenKind::Minus, 1),
        Mark::Comma => Piece::Token(TokenKind::Comma, 1),
        Mark::Colon => Piece::Token(TokenKind::Colon, 1),
        Mark::LeftBrace => Piece::Token(TokenKind::LeftBrace, 1),
        Mark::RightBrace => Piece::Token(TokenKind::RightBrace, 1),
    }
}

pub fn piece_at(tables: &Tables, place: &Place<'_>) -> Piece
    ensures { result ≡ piece_at place.now.text.now place.now.at }
{
    match tables.classes.class_of(place.text[place.at]) {
        Class::Blank => Piece::Blank,
        Class::Newline => Piece::Token(TokenKind::NewLine, 1),
        Class::Digit => number_at(place),
        Class::Letter => symbol_at(tables, place),
        Class::Mark(mark) => mark_at(tables, mark, place),
        Class::Nothing => Piece::BadByte,
    }
}
