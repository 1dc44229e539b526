// Reads registers, numbers and values at a cursor: the first operand readers (assembler_util.rs).
#![tactic(auto)]

ghost use Rattle.std.specs.Prelude.{◌≡◌};
ghost use Rattle.lexer.specs.Tokens.{tokens};
ghost use Rattle.lexer.specs.Views.{as_register, as_fp_register, as_integer};
ghost use Rattle.cursor.specs.Reads.{Reads};
ghost use Rattle.operand.specs.Answers.{answer_of, given};
ghost use Rattle.operands.specs.Operands.{get_token, no_register, no_constant, register_met, fp_register_met, code_met, constant_met, value_met, get_register, get_fp_register, get_cc, with_sign, signed, get_integer, get_constant, get_value, maybe_get_value};

use cursor::LexerCursor;
use lexer::{Token, TokenKind};
use operand::{InstructionValue, Miss, Operand, Want};

fn expected_register(token: Token) -> Miss
    ensures { result ≡ no_register token }
{
    Miss::ExpectedRegister(lexer::strip(token.kind), token.location)
}

fn expected_constant(token: Token) -> Miss
    ensures { result ≡ no_constant token }
{
    Miss::ExpectedConstant(lexer::strip(token.kind), token.location)
}

// Returns the next token other than Comment and Comma.
#[tactic(auto, unfolding(crate::specs::Operands::get_token))]
pub fn get_token(cursor: &mut LexerCursor<'_>) -> Result<Token, Miss>
    ensures { Reads cursor.old (get_token (tokens cursor.old.list) cursor.old.index) result cursor.new }
{
    cursor.next_adjacent().ok_or(Miss::EndOfFile)
}

#[tactic(auto, unfolding(crate::specs::Operands::get_register, crate::specs::Operands::get_token))]
pub fn get_register(cursor: &mut LexerCursor<'_>) -> Result<Operand, Miss>
    ensures { Reads cursor.old (given Want.Register (get_register (tokens cursor.old.list) cursor.old.index)) result cursor.new }
{
    register_met(get_token(cursor)?)
}

fn register_met(token: Token) -> Result<Operand, Miss>
    ensures { result ≡ answer_of Want.Register (register_met token (as_register token.kind)) }
{
    match token.kind {
        TokenKind::Register(slot) => Ok(Operand::Register(slot)),
        _ => Err(expected_register(token)),
    }
}

#[tactic(auto, unfolding(crate::specs::Operands::get_fp_register, crate::specs::Operands::get_token))]
pub fn get_fp_register(cursor: &mut LexerCursor<'_>) -> Result<Operand, Miss>
    ensures { Reads cursor.old (given Want.FPRegister (get_fp_register (tokens cursor.old.list) cursor.old.index)) result cursor.new }
{
    fp_register_met(get_token(cursor)?)
}

fn fp_register_met(token: Token) -> Result<Operand, Miss>
    ensures { result ≡ answer_of Want.FPRegister (fp_register_met token (as_fp_register token.kind)) }
{
    match token.kind {
        TokenKind::FPRegister(slot) => Ok(Operand::FPRegister(slot)),
        _ => Err(expected_register(token)),
    }
}

// Reads a condition code: a number without a sign.
#[tactic(auto, unfolding(crate::specs::Operands::get_cc, crate::specs::Operands::get_token))]
pub fn get_cc(cursor: &mut LexerCursor<'_>) -> Result<Operand, Miss>
    ensures { Reads cursor.old (given Want.Code (get_cc (tokens cursor.old.list) cursor.old.index)) result cursor.new }
{
    code_met(get_token(cursor)?)
}

fn code_met(token: Token) -> Result<Operand, Miss>
    ensures { result ≡ answer_of Want.Code (code_met token (as_integer token.kind)) }
{
    match token.kind {
        TokenKind::IntegerLiteral(n) => Ok(Operand::Code(n)),
        _ => Err(expected_constant(token)),
    }
}

// Returns the number with its sign; negation wraps at 64 bits.
pub fn with_sign(minus: bool, n: u64) -> u64
    ensures { result ≡ with_sign minus n }
{
    if minus { n.wrapping_neg() } else { n }
}

// Reads the literal after a sign. If there is none, sets the cursor back to just after the sign.
#[tactic(auto, unfolding(crate::specs::Operands::signed))]
fn signed(minus: bool, cursor: &mut LexerCursor<'_>) -> Option<u64>
    ensures { Reads cursor.old (signed minus (tokens cursor.old.list) cursor.old.index) result cursor.new }
{
    let back = cursor.position();
    let literal = cursor
        .next_adjacent()
        .and_then(|token| lexer::as_integer(token.kind));
    match literal {
        Some(n) => Some(with_sign(minus, n)),
        None => {
            cursor.set_position(back);
            None
        }
    }
}

// Reads the number that begins with `first`; the cursor is just after that token.
#[tactic(auto, unfolding(crate::specs::Operands::get_integer))]
pub fn get_integer(first: Token, cursor: &mut LexerCursor<'_>) -> Option<u64>
    ensures { Reads cursor.old (get_integer first (tokens cursor.old.list) cursor.old.index) result cursor.new }
{
    match first.kind {
        TokenKind::Plus => signed(false, cursor),
        TokenKind::Minus => signed(true, cursor),
        kind => lexer::as_integer(kind),
    }
}

#[tactic(auto, unfolding(crate::specs::Operands::get_constant, crate::specs::Operands::get_token))]
pub fn get_constant(cursor: &mut LexerCursor<'_>) -> Result<Operand, Miss>
    ensures { Reads cursor.old (given Want.Constant (get_constant (tokens cursor.old.list) cursor.old.index)) result cursor.new }
{
    let token = get_token(&mut *cursor)?;
    constant_met(token, get_integer(token, cursor))
}

fn constant_met(token: Token, number: Option<u64>) -> Result<Operand, Miss>
    ensures { result ≡ answer_of Want.Constant (constant_met token number) }
{
    number
        .map(Operand::Constant)
        .ok_or_else(|| expected_constant(token))
}

#[tactic(auto, unfolding(crate::specs::Operands::get_value, crate::specs::Operands::get_token))]
pub fn get_value(cursor: &mut LexerCursor<'_>) -> Result<Operand, Miss>
    ensures { Reads cursor.old (given Want.Value (get_value (tokens cursor.old.list) cursor.old.index)) result cursor.new }
{
    let token = get_token(&mut *cursor)?;
    value_met(token, get_integer(token, cursor))
}

fn value_met(token: Token, number: Option<u64>) -> Result<Operand, Miss>
    ensures { result ≡ answer_of Want.Value (value_met token number) }
{
    match (number, token.kind) {
        (Some(n), _) => Ok(Operand::Value(InstructionValue::Literal(n))),
        (None, TokenKind::Register(slot)) => Ok(Operand::Value(InstructionValue::Slot(slot))),
        (None, _) => Err(expected_register(token)),
    }
}

// Reads the optional third operand of Inputs. If there is no value, leaves the cursor at the next token other than Comment and Comma.
#[tactic(auto, unfolding(crate::specs::Operands::maybe_get_value))]
pub fn maybe_get_value(cursor: &mut LexerCursor<'_>) -> Result<Operand, Miss>
    ensures { Reads cursor.old (given Want.MaybeValue (maybe_get_value (tokens cursor.old.list) cursor.old.index)) result cursor.new }
{
    let start = cursor.position();
    match get_value(&mut *cursor) {
        Ok(value) => Ok(value),
        Err(_) => {
            cursor.set_position(start);
            cursor.seek_without();
            Ok(Operand::Absent)
        }
    }
}
