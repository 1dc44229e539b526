// Reads labels and offsets: the operand readers that build on registers and numbers (assembler_util.rs).
#![tactic(auto)]

ghost use Rattle.std.specs.Prelude.{◌≡◌};
ghost use Rattle.lexer.specs.Tokens.{tokens};
ghost use Rattle.cursor.specs.Reads.{Reads};
ghost use Rattle.operand.specs.Answers.{answer_of, given};
ghost use Rattle.operand.specs.Held.{held_answer};
ghost use Rattle.assembler_util.specs.LabelOperands.{is_met, named, plus_constant, symbol_label, to_label, get_label};
ghost use Rattle.assembler_util.specs.LabelOperands.{or_zero, unbraced, closed_seen, braced, get_offset_or_label};

use address_label::{AddressLabel, NamedLabel};
use cursor::LexerCursor;
use lexer::{Text, Token, TokenKind};
use operand::{Miss, Operand, Want};
use record::Location;
use registers::RegisterSlot;

fn named(text: Text, location: Location, offset: u64) -> AddressLabel
    ensures { result ≡ named text location offset }
{
    AddressLabel::Label(NamedLabel {
        name_at: text.start,
        name_len: text.len,
        location,
        offset,
    })
}

// Whether there is a token, and its kind has that number.
fn is_met(number: u8, seen: Option<Token>) -> bool
    ensures { result ≡ is_met number seen }
{
    seen.is_some_and(|token| lexer::strip(token.kind) == number)
}

// Reads the rest of a label after the Symbol `text` at `location`: an optional Plus and constant.
#[tactic(auto, unfolding(crate::specs::LabelOperands::symbol_label))]
fn symbol_label(
    text: Text,
    location: Location,
    cursor: &mut LexerCursor<'_>,
) -> Result<Operand, Miss>
    ensures { Reads cursor.old
        (given Want.Label (symbol_label text location (tokens cursor.old.list) cursor.old.index)) result cursor.new }
{
    let start = cursor.position();
    if is_met(lexer::PLUS, cursor.seek_without()) {
        cursor.next();
        plus_constant(text, location, operands::get_constant(cursor))
    } else {
        cursor.set_position(start);
        Ok(Operand::Label(named(text, location, 0)))
    }
}

fn plus_constant(
    text: Text,
    location: Location,
    constant: Result<Operand, Miss>,
) -> Result<Operand, Miss>
    ensures { result ≡ answer_of Want.Label (plus_constant text location (held_answer Want.Constant constant)) }
{
    let offset = operand::constant_in(constant?);
    Ok(Operand::Label(named(text, location, offset)))
}

// Reads the label that begins with `first`; the cursor is just after that token.
#[tactic(auto, unfolding(crate::specs::LabelOperands::to_label))]
fn to_label(first: Token, cursor: &mut LexerCursor<'_>) -> Result<Operand, Miss>
    ensures { Reads cursor.old (given Want.Label (to_label first (tokens cursor.old.list) cursor.old.index)) result cursor.new }
{
    match operands::get_integer(first, &mut *cursor) {
        Some(n) => Ok(Operand::Label(AddressLabel::Constant(n))),
        None => match first.kind {
            TokenKind::Symbol(text) => symbol_label(text, first.location, cursor),
            _ => Err(Miss::ExpectedLabel(lexer::strip(first.kind), first.location)),
        },
    }
}

#[tactic(auto, unfolding(crate::specs::LabelOperands::get_label, operands::specs::Operands::get_token))]
pub fn get_label(cursor: &mut LexerCursor<'_>) -> Result<Operand, Miss>
    ensures { Reads cursor.old (given Want.Label (get_label (tokens cursor.old.list) cursor.old.index)) result cursor.new }
{
    let token = operands::get_token(&mut *cursor)?;
    to_label(token, cursor)
}

fn or_zero(label: Result<Operand, Miss>) -> AddressLabel
    ensures { result ≡ or_zero (held_answer Want.Label label) }
{
    label.map_or(AddressLabel::Constant(0), operand::label_in)
}

fn unbraced(label: Result<Operand, Miss>) -> Result<Operand, Miss>
    ensures { result ≡ answer_of Want.OffsetOrLabel (unbraced (held_answer Want.Label label)) }
{
    Ok(Operand::Label(operand::label_in(label?)))
}

// Reads the register and the right brace after a left brace.
#[tactic(auto, unfolding(crate::specs::LabelOperands::braced))]
fn braced(label: AddressLabel, cursor: &mut LexerCursor<'_>) -> Result<Operand, Miss>
    ensures { Reads cursor.old (given Want.OffsetOrLabel (braced label (tokens cursor.old.list) cursor.old.index)) result cursor.new }
{
    let slot = operand::slot_in(operands::get_register(&mut *cursor)?);
    closed_seen(label, slot, cursor.next_adjacent())
}

fn closed_seen(
    label: AddressLabel,
    slot: RegisterSlot,
    seen: Option<Token>,
) -> Result<Operand, Miss>
    ensures { result ≡ answer_of Want.OffsetOrLabel (closed_seen label slot seen) }
{
    let token = seen.ok_or(Miss::EndOfFile)?;
    let number = lexer::strip(token.kind);
    if number == lexer::RIGHT_BRACE {
        Ok(Operand::Offset(label, slot))
    } else {
        Err(Miss::ExpectedRightBrace(number, token.location))
    }
}

#[tactic(auto, unfolding(crate::specs::LabelOperands::get_offset_or_label, crate::specs::LabelOperands::after_label))]
pub fn get_offset_or_label(cursor: &mut LexerCursor<'_>) -> Result<Operand, Miss>
    ensures { Reads cursor.old (given Want.OffsetOrLabel (get_offset_or_label (tokens cursor.old.list) cursor.old.index)) result cursor.new }
{
    let label = get_label(&mut *cursor);
    if is_met(lexer::LEFT_BRACE, cursor.seek_without()) {
        cursor.next();
        braced(or_zero(label), cursor)
    } else {
        unbraced(label)
    }
}
