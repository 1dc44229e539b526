// What `replay` does: it makes stored calls of both linked entries again, compares what they give back with what is stored, and prints how many
// differ. specs/Replay.antt says how the list of calls is laid out.
#![tactic(auto)]

ghost use Rattle.std.specs.Prelude.{◌≡◌, ◌++◌, ◌+◌, ◌^◌, ◌<◌, ◌≤◌, length, ltb};
ghost use Rattle.record.specs.Bytes.{same_bytes};
ghost use Rattle.emit_outcome.specs.Call.{lent_of};
ghost use Rattle.input.specs.Input.{list_of};
ghost use Rattle.replay_text.specs.Replay.{built_met, build_met, emitted_met, line_met, call_met, tally_of, tally_text, replay_text};

use jobs::Job;
use text::Text;

// Room for the list of calls.
pub const MOST: usize = 0x40_0000;

// Room for three lines. The list is long, so a text with room for any program's output would not fit beside it on the stack.
pub const MOST_TEXT: usize = 128;

// How many calls differ, and the last that does, counted from 1.
#[derive(Clone, Copy)]
pub struct Tally {
    pub differ: u64,
    pub last: u64,
}

// Whether the call's list with this number has these bytes.
fn is_list(call: &[u8], number: usize, bytes: &[u8]) -> bool
    ensures { result ≡ same_bytes bytes.now (list_of number call.now) }
{
    record::same(bytes, input::list_of(call, number))
}

// Makes a stored build on this copy of its regions. Returns whether the answer and the copy come out as stored.
fn is_built(call: &[u8], regions: &mut [u8]) -> bool
    ensures { result ≡ built_met call.now regions.old }
{
    let mut answer = [0u8; 24];
    nazgwern::nazgwern_build(
        Job::Commit,
        input::list_of(call, 0),
        input::list_of(call, 1),
        &mut *regions,
        input::list_of(call, 3),
        &mut answer,
    );
    is_list(call, 4, &answer) && is_list(call, 5, &*regions)
}

fn is_build_met(call: &[u8]) -> bool
    ensures { result ≡ build_met call.now }
{
    let mut regions = [0u8; record::LIMIT + 1];
    is_built(call, input::hold_in(&mut regions, input::list_of(call, 2)))
}

// Makes a stored line's call on these copies of its buffers and counts. Returns whether the answer and the copies come out as stored.
fn is_emitted(
    call: &[u8],
    data: &mut [u8],
    pending: &mut [u8],
    breakpoints: &mut [u8],
    counts: &mut [u8],
) -> bool
    ensures { result ≡ emitted_met call.now
        (lent_of «data».old pending.old breakpoints.old) counts.old }
{
    let mut answer = [0u8; 24];
    let place = input::list_of(call, 7);
    nazgwern::nazgwern_do_instruction(
        Job::Commit,
        input::list_of(call, 0),
        input::list_of(call, 1),
        input::list_of(call, 2),
        &mut *data,
        &mut *pending,
        &mut *breakpoints,
        &mut *counts,
        input::word_or_zero(place, 0),
        input::half_or_zero(place, 4),
        input::word_or_zero(place, 6),
        &mut answer,
    );
    is_list(call, 8, &answer)
        && is_list(call, 9, &*counts)
        && is_list(call, 10, &*data)
        && is_list(call, 11, &*pending)
        && is_list(call, 12, &*breakpoints)
}

fn is_line_met(call: &[u8]) -> bool
    ensures { result ≡ line_met call.now }
{
    let mut data = [0u8; record::LIMIT + 1];
    let mut pending = [0u8; record::LIMIT + 1];
    let mut breakpoints = [0u8; record::LIMIT + 1];
    let mut counts = [0u8; record::LIMIT + 1];
    is_emitted(
        call,
        input::hold_in(&mut data, input::list_of(call, 3)),
        input::hold_in(&mut pending, input::list_of(call, 4)),
        input::hold_in(&mut breakpoints, input::list_of(call, 5)),
        input::hold_in(&mut counts, input::list_of(call, 6)),
    )
}

// Whether the call with this number, counted from 0, comes out as stored. The first calls are builds, the others lines.
fn is_met(input: &[u8], builds: usize, number: usize) -> bool
    requires { number < 2 ^ 32 }
    ensures { result ≡ call_met (ltb number builds) (list_of (number + 1) input.now) }
{
    let call = input::list_of(input, number + 1);
    if number < builds {
        is_build_met(call)
    } else {
        is_line_met(call)
    }
}

fn tally_of(input: &[u8], builds: usize, calls: usize) -> Tally
    requires { calls < 2 ^ 32 }
    ensures { result ≡ tally_of builds calls input.now }
{
    let mut tally = Tally { differ: 0, last: 0 };
    for i in 0..calls {
        if !is_met(input, builds, i) {
            tally = Tally {
                differ: tally.differ + 1,
                last: i as u64 + 1,
            };
        }
    }
    tally
}

#[tactic(auto, using(std::proofs::lemmas::Grind::common_steps))]
fn put_tally(out: &mut Text<MOST_TEXT>, calls: u64, tally: Tally)
    requires { length out.old + length (tally_text calls tally) ≤ MOST_TEXT }
    ensures { out.new ≡ out.old ++ tally_text calls tally }
{
    out.push_number_line(b"calls", calls);
    out.push_number_line(b"differ", tally.differ);
    out.push_number_line(b"last", tally.last);
}

// Writes the text that `replay` prints for an input.
#[tactic(auto, using(text::proofs::TextLaws::last_most, std::proofs::lemmas::Grind::common_steps), unfolding(crate::specs::Replay::replay_text))]
pub fn replay(input: &[u8], out: &mut Text<MOST_TEXT>)
    ensures { out.new ≡ replay_text input.now }
{
    let head = input::list_of(input, 0);
    let builds = input::word_or_zero(head, 0);
    let calls = input::word_or_zero(head, 4);
    let tally = tally_of(input, builds as usize, calls as usize);
    out.clear();
    put_tally(out, u64::from(calls), tally);
}
