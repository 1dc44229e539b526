// What `finish` (document 01) and `finish_manual` (document 02, P5) do: each reads the input of a build, and prints the image or the refusal.
#![tactic(auto)]

ghost use Rattle.std.specs.Prelude.{◌≡◌, ◌++◌, ◌+◌, ◌<◌, ◌≤◌, length};
ghost use Rattle.std.proofs.Common.{rules};
ghost use Rattle.jobs.specs.declared.Job.TheVariants.{Manual};
ghost use Rattle.regions.specs.Regions.{region_count, region_place, region_at};
ghost use Rattle.reading.specs.Reading.{image_region, image_of};
ghost use Rattle.image_text.specs.Image.{data_lines, region_text, regions_text, image_text, finish_text_by, finish_text};

use jobs::Job;
use program::TextProgram;
use regions::{Region, Regions};
use text::{MOST, Text};

mod lines;

// Appends a line for each four bytes, and one for a shorter rest.
fn put_data<const N: usize>(out: &mut Text<N>, address: u32, data: &[u8])
    requires data_len_bound { length «data».now ≤ 65536 }
    requires data_in_bounds { length out.old + length (data_lines address 0 «data».now) ≤ N }
    ensures { out.new ≡ out.old ++ data_lines address 0 «data».now }
{
    for (i, bytes) in data.chunks(4).enumerate() {
        lines::put_row(&mut *out, address.wrapping_add(4 * i as u32), bytes);
    }
}

// Appends the region with this number.
fn put_region<const N: usize>(
    out: &mut Text<N>,
    regions: &Regions<'_>,
    number: usize,
    region: Region,
)
    requires number_bound { number < region_count regions.now }
    requires region_value { region ≡ region_at regions.now (region_place regions.now number) }
    requires number_in_bounds { length out.old + length (region_text number (image_region regions.now (region_place regions.now number))) ≤ N }
    ensures { out.new ≡ out.old ++ region_text number (image_region regions.now (region_place regions.now number)) }
{
    let list = regions.bytes();
    let start = region.start;
    let end = start + region.size;
    lines::put_region_line(&mut *out, number as u64, region.address);
    put_data(out, region.address, &list[start..end]);
}

fn put_regions<const N: usize>(out: &mut Text<N>, regions: &Regions<'_>)
    requires { length out.old + length (regions_text 0 (image_of regions.now)) ≤ N }
    ensures { out.new ≡ out.old ++ regions_text 0 (image_of regions.now) }
{
    for (number, at) in regions.places().enumerate() {
        put_region(&mut *out, regions, number, regions.region_at(at));
    }
}

// Appends the image of the patched regions.
#[tactic(auto, using(crate::proofs::ImageLaws::entry_length, std::proofs::lemmas::Grind::common_steps))]
fn put_image<const N: usize>(out: &mut Text<N>, entry: u32, regions: &Regions<'_>)
    requires { length out.old + length (image_text entry (image_of regions.now)) ≤ N }
    ensures { out.new ≡ out.old ++ image_text entry (image_of regions.now) }
{
    lines::put_entry(&mut *out, entry);
    put_regions(out, regions);
}

// Builds an input in a job, and writes the image, or the refusal alone.
#[tactic(auto, using(text::proofs::TextLaws::refused_most))]
fn put_input<const N: usize>(job: Job, input: &[u8], out: &mut Text<N>)
    requires { 400000 ≤ N }
    ensures { out.new ≡ finish_text_by job input.now }
{
    let mut space = [0u8; record::LIMIT + 1];
    let regions = input::hold_in(&mut space, input::list_of(input, 2));
    let labels = input::list_of(input, 0);
    let entry = input::list_of(input, 1);
    let pending = input::list_of(input, 3);
    out.clear();
    match binary_builder::build_for(job, labels, entry, &mut *regions, pending) {
        Ok(address) => put_image(out, address, &Regions::new(&*regions)),
        Err(refusal) => out.push_refusal(refusal),
    }
}

// Writes the text that `finish` prints for an input.
pub fn finish(input: &[u8], out: &mut Text<MOST>)
    ensures { out.new ≡ finish_text input.now }
{
    put_input(Job::Commit, input, out);
}

// Writes the text that `finish_manual` prints for an input.
pub fn finish_manual(input: &[u8], out: &mut Text<MOST>)
    ensures { out.new ≡ finish_text_by Job.Manual input.now }
{
    put_input(Job::Manual, input, out);
}

// `finish` as a program.
pub struct FinishText;

impl TextProgram<MOST> for FinishText {
    ghost text_of = { finish_text };

    fn print_text(&self, input: &[u8], out: &mut Text<MOST>) {
        finish(input, out);
    }

    ghost fits = { Prim.search rules };
}

// `finish_manual` as a program.
pub struct FinishManualText;

impl TextProgram<MOST> for FinishManualText {
    ghost text_of = { finish_text_by Manual };

    fn print_text(&self, input: &[u8], out: &mut Text<MOST>) {
        finish_manual(input, out);
    }

    ghost fits = { Prim.search rules };
}
