// The lines of an emit call's outcome.
ghost use Rattle.std.specs.Prelude.{◌≡◌, ◌++◌, ◌+◌, ◌≤◌, length};
ghost use Rattle.line_text.specs.Line.{answer_text, fills_line, loaded_line, loaded_text, head_text};

use emit_outcome::{EmitAnswer, FillCounts};
use loading::LoadForm;
use text::Text;

// Room for the line of three counts of at most twenty digits.
const MOST_FILLS: usize = 69;

// Appends the refusal, if there is one, and the position.
pub fn put_answer<const N: usize>(out: &mut Text<N>, answer: EmitAnswer)
    requires { length out.old + length (answer_text answer) ≤ N }
    ensures { out.new ≡ out.old ++ answer_text answer }
{
    match answer {
        Ok(done) => out.push_number_line(b"position", u64::from(done.position)),
        Err(refused) => {
            out.push_refusal(refused.refusal);
            out.push_number_line(b"position", u64::from(refused.position));
        }
    }
}

// Returns the line of the fill counts as a text of its own, with room for any counts.
#[tactic(auto, using(text::proofs::TextLaws::field_most, text::proofs::TextLaws::last_most, std::proofs::lemmas::Grind::common_steps), unfolding(crate::specs::Line::fills_line))]
fn fills_line(counts: FillCounts) -> Text<MOST_FILLS>
    ensures { result ≡ fills_line counts }
{
    let mut line = Text::new();
    line.push(b"fills");
    line.push_field(u64::from(counts.data_len));
    line.push_field(u64::from(counts.pending));
    line.push_last_field(u64::from(counts.breakpoints));
    line
}

pub fn put_fills<const N: usize>(out: &mut Text<N>, counts: FillCounts)
    requires { length out.old + length (fills_line counts) ≤ N }
    ensures { out.new ≡ out.old ++ fills_line counts }
{
    let line = fills_line(counts);
    out.push(line.as_bytes());
}

fn put_form<const N: usize>(out: &mut Text<N>, form: LoadForm)
    requires { length out.old + length (loaded_line form) ≤ N }
    ensures { out.new ≡ out.old ++ loaded_line form }
{
    match form {
        LoadForm::Nothing => out.push(b"loaded none\n"),
        LoadForm::Addiu => out.push(b"loaded addiu\n"),
        LoadForm::Ori => out.push(b"loaded ori\n"),
        LoadForm::Lui => out.push(b"loaded lui\n"),
        LoadForm::BothHalves => out.push(b"loaded both\n"),
    }
}

// Appends an accepted line's form; nothing for a refused line.
pub fn put_loaded<const N: usize>(out: &mut Text<N>, answer: EmitAnswer)
    requires { length out.old + length (loaded_text answer) ≤ N }
    ensures { out.new ≡ out.old ++ loaded_text answer }
{
    if let Ok(done) = answer {
        put_form(out, done.loaded);
    }
}

// Appends all lines but the buffers'.
#[tactic(auto, using(crate::proofs::LineLaws::head_length, std::proofs::lemmas::Grind::common_steps), unfolding(crate::specs::Line::head_text))]
pub(crate) fn put_head<const N: usize>(out: &mut Text<N>, answer: EmitAnswer, counts: FillCounts)
    requires { length out.old + length (head_text answer counts) ≤ N }
    ensures { out.new ≡ out.old ++ head_text answer counts }
{
    put_answer(&mut *out, answer);
    put_fills(&mut *out, counts);
    put_loaded(out, answer);
}
