// The program `patch_steps` (document 02, P12), from the bytes it reads to the text it prints: it runs a script of steps and lines.
#![tactic(auto)]

ghost use Rattle.std.specs.Prelude.{◌≡◌, ◌++◌, ◌+◌, ◌*◌, ◌≤◌, length};
ghost use Rattle.std.proofs.Common.{rules};
ghost use Rattle.patching_outcome.specs.Patching.{patching_of};
ghost use Rattle.patching_text.specs.Setup.{given_by};
ghost use Rattle.patching_text.specs.Script.{line_in, turn_of, behind_turn, most_turns, script_text, end_text, counts_in, job_text, steps_text};
ghost use Rattle.patching_text.specs.Turns.{Turns, StepTurns, LineTurns};

use jobs::Job;
use patching_outcome::PatchCounts;
use program::TextProgram;
use text::Text;

mod lines;

// The most turns of a script that are made; a longer script ends here.
const MOST_TURNS: usize = 4096;

// Room for the lines of as many turns and for the end.
pub const MOST: usize = 1_000_000;

// The bytes that begin a turn; any other byte ends the script.
const STEP: u8 = 0;

const LINE: u8 = 1;

// Four bytes for each pending that a list may have.
const KEPT: usize = 4 * pending::MOST;

// What every turn uses: the job, the labels, the entry record and the descriptors.
#[derive(Clone, Copy)]
struct Setup<'a> {
    job: Job,
    labels: &'a [u8],
    entry: &'a [u8],
    descriptors: &'a [u8],
}

// Returns the script after its next turn.
#[tactic(auto, using(input::proofs::InputLaws::rest_is), unfolding(crate::specs::Script::behind_turn))]
fn behind_turn(script: &[u8]) -> &[u8]
    requires { 1 ≤ length script.now }
    ensures { result.now ≡ behind_turn script.now }
{
    let rest = &script[1..];
    if script[0] == STEP {
        return rest;
    }
    let numbers = input::behind_lists(rest, 2);
    input::behind(numbers, 6)
}

// Makes a step, prints its answer and returns the caller's record after it.
#[tactic(auto, using(crate::proofs::TurnsLaws::step_most))]
fn do_step<const N: usize>(
    out: &mut Text<N>,
    setup: Setup<'_>,
    counts: PatchCounts,
    regions: &mut [u8],
    pending: &[u8],
    kept: &mut [u8],
) -> PatchCounts
    requires { length out.old + 144 ≤ N }
    ensures { let g = given_by setup.entry in StepTurns g.job g.labels g.entry regions.old pending.now kept.old counts
        out.old out.new result regions.new kept.new }
{
    let stepped = patching_step::patch_step(
        setup.job,
        setup.labels,
        setup.entry,
        counts,
        regions,
        pending,
        kept,
    );
    lines::put_step(out, stepped.answer);
    stepped.counts
}

// Adds a line, prints its answer and returns the caller's record after it. `line` is the script after the byte LINE.
#[tactic(auto, using(crate::proofs::TurnsLaws::line_most))]
fn do_line<const N: usize>(
    out: &mut Text<N>,
    setup: Setup<'_>,
    line: &[u8],
    counts: PatchCounts,
    regions: &mut [u8],
    pending: &mut [u8],
    breakpoints: &mut [u8],
) -> PatchCounts
    requires { length out.old + 144 ≤ N }
    ensures { let g = given_by setup.entry in LineTurns g.job (line_in g.descriptors line.now) regions.old pending.old breakpoints.old counts
        out.old out.new result regions.new pending.new breakpoints.new }
{
    let numbers = input::behind_lists(line, 2);
    let lined = patching_line::patch_line(
        setup.job,
        counts,
        input::list_of(line, 0),
        input::list_of(line, 1),
        setup.descriptors,
        regions,
        pending,
        breakpoints,
        input::word_or_zero(numbers, 0),
        input::half_or_zero(numbers, 4),
    );
    lines::put_line(out, lined.answer);
    lined.counts
}

// Makes the next turn of a script: a step or a line.
fn do_turn<const N: usize>(
    out: &mut Text<N>,
    setup: Setup<'_>,
    script: &[u8],
    counts: PatchCounts,
    regions: &mut [u8],
    pending: &mut [u8],
    breakpoints: &mut [u8],
    kept: &mut [u8],
) -> PatchCounts
    requires { (length out.old + 144 ≤ N) × (1 ≤ length script.now) }
    ensures { Turns (turn_of (given_by setup.entry)
        (patching_of regions.old pending.old breakpoints.old kept.old counts) script.now)
        out.old out.new (patching_of regions.new pending.new breakpoints.new kept.new result) }
{
    if script[0] == STEP {
        return do_step(out, setup, counts, regions, &*pending, kept);
    }
    do_line(
        out,
        setup,
        &script[1..],
        counts,
        regions,
        pending,
        breakpoints,
    )
}

// Clears `out`, makes all turns and prints their lines. Returns the caller's record after them; only the lines of the end are then missing.
fn put_turns<const N: usize>(
    out: &mut Text<N>,
    setup: Setup<'_>,
    script: &[u8],
    start: PatchCounts,
    regions: &mut [u8],
    pending: &mut [u8],
    breakpoints: &mut [u8],
    kept: &mut [u8],
) -> PatchCounts
    requires { 1000000 ≤ N }
    ensures text { script_text most_turns (given_by setup.entry)
        (patching_of regions.old pending.old breakpoints.old kept.old start) script.now
        ≡ out.new ++ end_text result regions.new pending.new breakpoints.new }
    ensures short { length out.new ≤ 144 * most_turns }
{
    let mut counts = start;
    let mut rest = script;
    out.clear();
    for _ in 0..MOST_TURNS {
        let Some(&turn) = rest.first() else {
            break;
        };
        if turn > LINE {
            break;
        }
        counts = do_turn(
            &mut *out,
            setup,
            rest,
            counts,
            &mut *regions,
            &mut *pending,
            &mut *breakpoints,
            &mut *kept,
        );
        rest = behind_turn(rest);
    }
    counts
}

// Reads the caller's record at the start from the numbers after the lists.
fn counts_in(numbers: &[u8]) -> PatchCounts
    ensures { result ≡ counts_in numbers.now }
{
    PatchCounts {
        regions: input::word_or_zero(numbers, 0),
        pending: input::word_or_zero(numbers, 4),
        breakpoints: input::word_or_zero(numbers, 8),
        patches: 0,
        state: patching_outcome::RUNNING,
    }
}

// Writes the text of an input's script in this job.
fn put_job<const N: usize>(job: Job, input: &[u8], out: &mut Text<N>)
    requires { 1000000 ≤ N }
    ensures { out.new ≡ job_text job input.now }
{
    let mut regions = [0u8; record::LIMIT + 1];
    let mut pending = [0u8; record::LIMIT + 1];
    let mut breakpoints = [0u8; record::LIMIT + 1];
    let mut kept = [0u8; KEPT];
    let regions = input::hold_in(&mut regions, input::list_of(input, 3));
    let pending = input::hold_in(&mut pending, input::list_of(input, 4));
    let breakpoints = input::hold_in(&mut breakpoints, input::list_of(input, 5));
    let numbers = input::behind_lists(input, 6);
    let setup = Setup {
        job,
        labels: input::list_of(input, 0),
        entry: input::list_of(input, 1),
        descriptors: input::list_of(input, 2),
    };
    let counts = put_turns(
        &mut *out,
        setup,
        input::behind(numbers, 13),
        counts_in(numbers),
        &mut *regions,
        &mut *pending,
        &mut *breakpoints,
        &mut kept,
    );
    lines::put_end(out, counts, regions, pending, breakpoints);
}

// Writes the text that `patch_steps` prints for an input.
#[tactic(auto, unfolding(crate::specs::Script::steps_text))]
pub fn patch_steps(input: &[u8], out: &mut Text<MOST>)
    ensures { out.new ≡ steps_text input.now }
{
    let numbers = input::behind_lists(input, 6);
    match line_text::job_numbered(input::byte_or_zero(numbers, 12)) {
        Some(job) => put_job(job, input, out),
        None => line_text::put_no_job(out),
    }
}

// `patch_steps` as a program.
pub struct PatchStepsText;

impl TextProgram<MOST> for PatchStepsText {
    ghost text_of = { steps_text };

    fn print_text(&self, input: &[u8], out: &mut Text<MOST>) {
        patch_steps(input, out);
    }

    ghost fits = { Prim.search rules };
}
