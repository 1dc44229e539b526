// The program `page` (document 02, P3), from the bytes it reads to the text it prints.
#![tactic(auto)]

ghost use Rattle.std.specs.Prelude.{◌≡◌, ◌≤◌, length, take};
ghost use Rattle.page_outcome.specs.Outcome.{page_outcome};
ghost use Rattle.page_text.specs.PageText.{length_in, page_text};

use program::Program;
use refusal::Refusal;
use text::Printed;

// Room for a page buffer that is one byte over its limit: that of `Printed`.
pub const MOST: usize = page_core::LIMIT + 1;

// Reads the page buffer's length from the bytes after the two lists; if there are fewer than four, it is the limit.
fn length_in(rest: &[u8]) -> usize
    ensures { result ≡ length_in rest.now }
{
    if rest.len() < 4 {
        return page_core::LIMIT;
    }
    record::word_at(rest, 0) as usize
}

// Lays the page out in the first `room` bytes of a space.
fn lay_out_in(space: &mut [u8], room: usize, labels: &[u8], regions: &[u8]) -> Result<u32, Refusal>
    requires { room ≤ length space.old }
    ensures { page_outcome labels.now regions.now (take room space.old) ≡ (record { answer = result; page = take room space.new }) }
{
    page_core::lay_out(labels, regions, &mut space[..room])
}

// Writes the text that `page` prints for an input: the page, or the refusal alone. A page buffer over its limit is made one byte over it,
// so that the call still refuses it.
#[tactic(auto, using(text::proofs::TextLaws::refused_most))]
pub fn page(input: &[u8], out: &mut Printed)
    ensures { out.new ≡ page_text input.now }
{
    let room = length_in(input::behind_lists(input, 2)).min(MOST);
    let labels = input::list_of(input, 0);
    let regions = input::list_of(input, 1);
    match lay_out_in(out.whole(), room, labels, regions) {
        Ok(length) => out.truncate(length as usize),
        Err(refusal) => {
            out.clear();
            out.push_refusal(refusal);
        }
    }
}

// `page` as a program.
pub struct PageText;

impl Program for PageText {
    ghost text_of = { page_text };

    fn print(&self, input: &[u8], out: &mut Printed) {
        page(input, out);
    }
}
