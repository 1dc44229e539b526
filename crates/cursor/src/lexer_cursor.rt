// `LexerCursor`: reads a borrowed token list from a position on (cursor.rs). Its methods are thin: the functions of lib.rt on slice and position do the work.
ghost use Rattle.std.specs.Prelude.{◌≡◌};
ghost use Rattle.lexer.specs.Tokens.{tokens};
ghost use Rattle.cursor.specs.Cursors.{cursor_at, peek, step, seek, next_adjacent, peek_adjacent};
ghost use Rattle.cursor.specs.Reads.{Placed, Reads};

use crate::Cursor;
use lexer::Token;
use std::marker::Model;

// A token list, the number of tokens before the position, and the position's byte place.
#[derive(Drop)]
pub struct LexerCursor<'a> {
    tokens: &'a [u8],
    index: usize,
    at: usize,
}

impl<'a> Model for LexerCursor<'a> {
    ghost use Rattle.cursor.specs.Reads.{CursorIn, Placed};

    ghost Value = { CursorIn };

    ghost view = { λ cursor. record { list = cursor.tokens.now; index = cursor.index } };

    ghost invariant = { λ cursor. Placed cursor.tokens.now (record { index = cursor.index; at = cursor.at }) };
}

impl<'a> LexerCursor<'a> {
    // Returns a cursor at a position of the list. The Rust starts at the first token and then sets the position.
    pub fn new(tokens: &'a [u8], position: Cursor) -> Self
        requires { Placed tokens.now position }
        ensures { result ≡ (record { list = tokens.now; index = position.index }) }
    {
        Self {
            tokens,
            index: position.index,
            at: position.at,
        }
    }

    pub fn position(&self) -> Cursor
        ensures { (result ≡ cursor_at self.now.list self.now.index) × Placed self.now.list result }
    {
        Cursor {
            index: self.index,
            at: self.at,
        }
    }

    pub fn set_position(&mut self, position: Cursor)
        requires { Placed self.old.list position }
        ensures { self.new ≡ (record { list = self.old.list; index = position.index }) }
    {
        self.index = position.index;
        self.at = position.at;
    }

    // Returns the current token, or None at the list's end.
    pub fn peek(&self) -> Option<Token>
        ensures { result ≡ peek (tokens self.now.list) self.now.index }
    {
        crate::peek(self.tokens, self.position())
    }

    // Returns the current token and moves past it; at the list's end it stays.
    pub fn next(&mut self) -> Option<Token>
        ensures { Reads self.old (record { answer = peek (tokens self.old.list) self.old.index; index = step (tokens self.old.list) self.old.index })
            result self.new }
    {
        let seen = self.peek();
        self.set_position(crate::next(self.tokens, self.position()));
        seen
    }

    // Moves past Comment and Comma to the next other token, or to the list's end.
    fn seek(&mut self)
        ensures { self.new ≡ (record { list = self.old.list; index = seek (tokens self.old.list) self.old.index }) }
    {
        self.set_position(crate::seek_without(self.tokens, self.position()));
    }

    // Moves past Comment and Comma, and returns the token there.
    #[tactic(auto, unfolding(crate::specs::Cursors::peek_adjacent))]
    pub fn seek_without(&mut self) -> Option<Token>
        ensures { Reads self.old (peek_adjacent (tokens self.old.list) self.old.index) result self.new }
    {
        self.seek();
        self.peek()
    }

    // Returns the next token other than Comment and Comma, and moves past it.
    #[tactic(auto, unfolding(crate::specs::Cursors::next_adjacent))]
    pub fn next_adjacent(&mut self) -> Option<Token>
        ensures { Reads self.old (next_adjacent (tokens self.old.list) self.old.index) result self.new }
    {
        self.seek();
        self.next()
    }
}
