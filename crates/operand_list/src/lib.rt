// Reads a line's operands left to right, as its instruction asks for them.
#![tactic(auto)]

ghost use Rattle.std.specs.Prelude.{◌≡◌};
ghost use Rattle.lexer.specs.Tokens.{tokens};
ghost use Rattle.cursor.specs.Reads.{Reads};
ghost use Rattle.operand.specs.Answers.{given};
ghost use Rattle.operand_list.specs.OperandLists.{read_operand, read_operands, given_all};

use cursor::LexerCursor;
use operand::{Miss, Operand, Want};

// What an instruction asks for, left to right.
#[derive(Clone, Copy)]
pub struct Wants {
    pub first: Want,
    pub second: Want,
    pub third: Want,
}

#[derive(Clone, Copy)]
pub struct Operands {
    pub first: Operand,
    pub second: Operand,
    pub third: Operand,
}

// Reads the next operand, of the kind that is asked for.
fn read_operand(want: Want, cursor: &mut LexerCursor<'_>) -> Result<Operand, Miss>
    ensures { Reads cursor.old (given want (read_operand want (tokens cursor.old.list) cursor.old.index)) result cursor.new }
{
    match want {
        Want::Register => operands::get_register(cursor),
        Want::FPRegister => operands::get_fp_register(cursor),
        Want::Code => operands::get_cc(cursor),
        Want::Value => operands::get_value(cursor),
        Want::MaybeValue => operands::maybe_get_value(cursor),
        Want::Constant => operands::get_constant(cursor),
        Want::Label => assembler_util::get_label(cursor),
        Want::OffsetOrLabel => assembler_util::get_offset_or_label(cursor),
        Want::Nothing => Ok(Operand::Absent),
    }
}

// Reads a line's operands in order; stops at the first that cannot be read.
#[tactic(auto, unfolding(crate::specs::OperandLists::read_operands))]
pub fn read_operands(wants: Wants, cursor: &mut LexerCursor<'_>) -> Result<Operands, Miss>
    ensures { Reads cursor.old (given_all wants (read_operands wants (tokens cursor.old.list) cursor.old.index)) result cursor.new }
{
    let first = read_operand(wants.first, &mut *cursor)?;
    let second = read_operand(wants.second, &mut *cursor)?;
    let third = read_operand(wants.third, cursor)?;
    Ok(Operands {
        first,
        second,
        third,
    })
}
