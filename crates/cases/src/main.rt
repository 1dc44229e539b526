// What each program prints for its stored cases (docs/PROGRAMS.md, vectors/stored). A case begins with a byte for the program that it is a
// case of, and the program's input is the bytes after that.
#![tactic(auto)]

ghost use Rattle.std.specs.Prelude.{◌≡◌, ◌≤◌};
ghost use Rattle.cases.specs.Cases.{text_by, case_text};

use dry_run_text::DryRunText;
use find_text::FindLabelText;
use image_text::{FinishManualText, FinishText};
use index_text::MakeIndexText;
use indexed_text::EmitIndexedText;
use line_text::EmitLineText;
use macro_text::ExpandText;
use page_text::PageText;
use patching_text::PatchStepsText;
use program::{Program, TextProgram};
use text::{Printed, Text};
use token_text::ReadTextText;

// The byte of each program. A new program takes the next one.
const EMIT_LINE: u8 = 0;

const FINISH: u8 = 1;

const FINISH_MANUAL: u8 = 2;

const READ_TEXT: u8 = 3;

const EXPAND: u8 = 4;

const DRY_RUN: u8 = 5;

const PAGE: u8 = 6;

const EMIT_INDEXED: u8 = 7;

const MAKE_INDEX: u8 = 8;

const PATCH_STEPS: u8 = 9;

const FIND_LABEL: u8 = 10;

// Writes the text that a program prints for an input, from a text of its own room.
fn put_text<const N: usize, P: TextProgram<N>>(program: &P, input: &[u8], out: &mut Printed)
    requires { N ≤ 1195960 }
    ensures { out.new ≡ P.text_of input.now }
{
    let mut text = Text::<N>::new();
    program.print_text(input, &mut text);
    out.clear();
    out.push(text.as_bytes());
}

// Writes the text that the program with this byte prints for an input, and none if there is no such program.
#[tactic(auto, unfolding(crate::specs::Cases::text_by))]
fn print_by(number: u8, input: &[u8], out: &mut Printed)
    ensures { out.new ≡ text_by number input.now }
{
    match number {
        EMIT_LINE => put_text(&EmitLineText, input, out),
        FINISH => put_text(&FinishText, input, out),
        FINISH_MANUAL => put_text(&FinishManualText, input, out),
        READ_TEXT => put_text(&ReadTextText, input, out),
        EXPAND => put_text(&ExpandText, input, out),
        DRY_RUN => put_text(&DryRunText, input, out),
        PAGE => PageText.print(input, out),
        EMIT_INDEXED => put_text(&EmitIndexedText, input, out),
        MAKE_INDEX => put_text(&MakeIndexText, input, out),
        PATCH_STEPS => put_text(&PatchStepsText, input, out),
        FIND_LABEL => put_text(&FindLabelText, input, out),
        _ => out.clear(),
    }
}

// All stored cases as one program.
struct CaseText;

impl Program for CaseText {
    ghost text_of = { case_text };

    fn print(&self, input: &[u8], out: &mut Printed) {
        match input.split_first() {
            Some((&number, rest)) => print_by(number, rest, out),
            None => out.clear(),
        }
    }
}

fn main() {
    program::run_cases(&CaseText);
}
