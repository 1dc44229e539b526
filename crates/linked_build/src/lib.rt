// A build as a linked call: it patches the regions in place, and writes its answer as six words into a buffer of its own.
#![tactic(auto)]

ghost use Rattle.std.specs.Prelude.{◌≡◌};
ghost use Rattle.linked_build.specs.LinkedBuild.{linked_build_by};

use jobs::Job;
use linked_answer::{ANSWER_BYTES, TOO_SHORT};

// Patches the regions in place or refuses, writes the answer and returns its number: 0 for an accepted build.
// If the answer is too short, it returns TOO_SHORT and changes nothing.
pub fn build(
    job: Job,
    labels: &[u8],
    entry: &[u8],
    regions: &mut [u8],
    pending: &[u8],
    answer: &mut [u8],
) -> u32
    ensures { linked_build_by job labels.now entry.now regions.old pending.now answer.old
        ≡ (record { result = result; regions = regions.new; answer = answer.new }) }
{
    if answer.len() < ANSWER_BYTES {
        return TOO_SHORT;
    }
    let built = binary_builder::build_for(job, labels, entry, regions, pending);
    let words = linked_answer::answered_words(built);
    linked_answer::store_answer(answer, words)
}
