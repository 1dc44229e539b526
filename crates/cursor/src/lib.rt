// A position in a token list, held as a value beside the list (cursor.rs): a read costs only the tokens that it passes.
#![tactic(auto)]

ghost use Rattle.std.specs.Prelude.{◌≡◌};
ghost use Rattle.lexer.specs.Tokens.{token_layout, tokens};
ghost use Rattle.cursor.specs.Cursors.{cursor_at, start_index, is_adjacent_kind, peek, step, seek};
ghost use Rattle.cursor.specs.Reads.{Placed};

mod lexer_cursor;

use lexer::{Token, TokenKind};
pub use lexer_cursor::LexerCursor;

// A position: the number of tokens before it, and its byte place.
#[derive(Clone, Copy)]
pub struct Cursor {
    pub index: usize,
    pub at: usize,
}

// Returns the position of the token with that number, or the list's end.
pub fn start(list: &[u8], position: usize) -> Cursor
    requires { token_layout list.now ≡ None }
    ensures { (result ≡ cursor_at list.now (start_index (tokens list.now) position)) × Placed list.now result }
{
    // kept: `nth` on the records' places gives nothing past the end, where the answer is the count of all tokens
    let mut at = 0;
    for index in 0..position {
        if at >= list.len() {
            return Cursor { index, at };
        }
        at = record::next(list, at);
    }
    Cursor {
        index: position,
        at,
    }
}

// Returns the token at the position.
// kept: this and `next` beside the methods of `LexerCursor`, as document 01 wants "thin peek and next over covered functions on slice and position".
fn peek(list: &[u8], position: Cursor) -> Option<Token>
    requires { Placed list.now position }
    ensures { result ≡ peek (tokens list.now) position.index }
{
    if position.at < list.len() {
        Some(lexer::token_at(list, position.at))
    } else {
        None
    }
}

// Returns the position past that token; at the list's end it stays.
pub fn next(list: &[u8], position: Cursor) -> Cursor
    requires { Placed list.now position }
    ensures { (result ≡ cursor_at list.now (step (tokens list.now) position.index)) × Placed list.now result }
{
    if position.at < list.len() {
        Cursor {
            index: position.index + 1,
            at: record::next(list, position.at),
        }
    } else {
        position
    }
}

// Whether operand reading stops at this kind: it passes over Comment and Comma.
fn is_adjacent_kind(kind: TokenKind) -> bool
    ensures { result ≡ is_adjacent_kind kind }
{
    !matches!(kind, TokenKind::Comment(_) | TokenKind::Comma)
}

// Returns the position of the next token that is neither Comment nor Comma, or the list's end.
fn seek_without(list: &[u8], position: Cursor) -> Cursor
    requires { Placed list.now position }
    ensures { (result ≡ cursor_at list.now (seek (tokens list.now) position.index)) × Placed list.now result }
{
    let mut cursor = position;
    while cursor.at < list.len() && !is_adjacent_kind(lexer::token_at(list, cursor.at).kind) {
        cursor = next(list, cursor);
    }
    cursor
}
