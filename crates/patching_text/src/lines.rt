// The lines that `patch_steps` prints.
ghost use Rattle.std.specs.Prelude.{◌≡◌, ◌++◌, ◌+◌, ◌≤◌, length};
ghost use Rattle.patching_text.specs.Script.{step_text, line_text, state_text, counts_text, end_text};

use emit_outcome::{EmitAnswer, FillCounts};
use patching_outcome::{PatchCounts, Progress, StepAnswer};
use text::Text;

// Prints the entry address once patching has ended.
fn put_ended<const N: usize>(out: &mut Text<N>, address: u32)
    requires { length out.old + length (step_text (Ok (Progress.Ended address))) ≤ N }
    ensures { out.new ≡ out.old ++ step_text (Ok (Progress.Ended address)) }
{
    out.push(b"ended ");
    out.push_hex(address, 8);
    out.push_byte(b'\n');
}

pub(crate) fn put_step<const N: usize>(out: &mut Text<N>, answer: StepAnswer)
    requires { length out.old + length (step_text answer) ≤ N }
    ensures { out.new ≡ out.old ++ step_text answer }
{
    match answer {
        Ok(Progress::Patched(count)) => out.push_number_line(b"patched", u64::from(count)),
        Ok(Progress::Ended(address)) => put_ended(out, address),
        Err(refusal) => out.push_refusal(refusal),
    }
}

// Prints a line's answer, with `accepted` before it unless the line is refused.
#[tactic(auto, using(crate::proofs::TurnsLaws::accepted_is, crate::proofs::TurnsLaws::refused_is, std::proofs::lemmas::Grind::common_steps))]
pub(crate) fn put_line<const N: usize>(out: &mut Text<N>, answer: EmitAnswer)
    requires { length out.old + length (line_text answer) ≤ N }
    ensures { out.new ≡ out.old ++ line_text answer }
{
    if answer.is_ok() {
        out.push(b"accepted\n");
    }
    line_text::lines::put_answer(out, answer);
}

fn put_state<const N: usize>(out: &mut Text<N>, state: u32)
    requires { length out.old + length (state_text state) ≤ N }
    ensures { out.new ≡ out.old ++ state_text state }
{
    match state {
        patching_outcome::RUNNING => out.push(b"state running\n"),
        patching_outcome::ENDED => out.push(b"state ended\n"),
        _ => out.push(b"state refused\n"),
    }
}

// Prints the caller's record.
#[tactic(auto, using(crate::proofs::TurnsLaws::counts_length, std::proofs::lemmas::Grind::common_steps), unfolding(crate::specs::Script::counts_text))]
fn put_counts<const N: usize>(out: &mut Text<N>, counts: PatchCounts)
    requires { length out.old + length (counts_text counts) ≤ N }
    ensures { out.new ≡ out.old ++ counts_text counts }
{
    let fills = FillCounts {
        data_len: counts.regions,
        pending: counts.pending,
        breakpoints: counts.breakpoints,
    };
    put_state(&mut *out, counts.state);
    line_text::lines::put_fills(&mut *out, fills);
    out.push_number_line(b"patches", u64::from(counts.patches));
}

// Prints what comes after the turns: the caller's record and the buffers.
#[tactic(auto, using(crate::proofs::TurnsLaws::end_length, std::proofs::lemmas::Grind::common_steps), unfolding(crate::specs::Script::end_text))]
pub(crate) fn put_end<const N: usize>(
    out: &mut Text<N>,
    counts: PatchCounts,
    regions: &[u8],
    pending: &[u8],
    breakpoints: &[u8],
)
    requires { length out.old + length (end_text counts regions.now pending.now breakpoints.now) ≤ N }
    ensures { out.new ≡ out.old ++ end_text counts regions.now pending.now breakpoints.now }
{
    put_counts(&mut *out, counts);
    bytes_line::push_bytes(&mut *out, b"regions ", regions);
    bytes_line::push_bytes(&mut *out, b"pending ", pending);
    bytes_line::push_bytes(out, b"breakpoints ", breakpoints);
}
