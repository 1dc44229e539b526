// A page for the wall (document 02, P3): an image and its labels laid out in a lent buffer.
#![tactic(auto)]

ghost use Rattle.std.specs.Prelude.{◌≡◌, ◌+◌, ◌*◌, ◌<◌, ◌≤◌, length};
ghost use Rattle.record.specs.Records.{places};
ghost use Rattle.regions.specs.Regions.{region_count, region_place, region_at};
ghost use Rattle.reading.specs.Reading.{image_region, image_of};
ghost use Rattle.text.specs.Text.{Put};
ghost use Rattle.page_outcome.specs.Page.{label_at, page_of};
ghost use Rattle.page_outcome.specs.Page.{line_count};
ghost use Rattle.page_outcome.specs.Outcome.{layout_verdicts, page_outcome};
ghost use Rattle.page_labels.specs.Slots.{Shows};
ghost use Rattle.page_core.specs.Texts.{data_text, region_text};

use labels::LabelTable;
use refusal::Refusal;
use regions::{Region, Regions};

// "the page buffer, alone allowed up to 1,195,959 bytes"
pub const LIMIT: usize = 1_195_959;

// Labels and regions of at most this many bytes together count as short. A label has at least nine bytes.
const SHORT: usize = 2304;

const SHORT_LABELS: usize = SHORT / 9;

const SHORT_WORDS: usize = SHORT / 4;

// Writes a line for each four bytes, and one for any bytes left over.
// kept: `slots[i]`; a zip ends with either side, and the proof would also have to show that the slots last as long as the data.
fn put_data(
    out: &mut [u8],
    at: usize,
    address: u32,
    data: &[u8],
    labels: &[u8],
    slots: &[u16],
) -> usize
    requires data_len_bound { (length «data».now ≤ 65536) × (length «data».now ≤ 4 * length slots.now) }
    requires shows { Shows labels.now address (length «data».now) slots.now }
    requires data_in_bounds { at + length (data_text (label_at labels.now) address 0 «data».now) ≤ length out.old }
    ensures { Put out.old at (data_text (label_at labels.now) address 0 «data».now) out.new result }
{
    let mut end = at;
    for (i, bytes) in data.chunks(4).enumerate() {
        let pc = address.wrapping_add(4 * i as u32);
        let name = page_labels::name_in(labels, slots[i]);
        end = page_lines::put_row(&mut *out, end, pc, bytes, name);
    }
    end
}

// Writes the region of this number; the lent slots take the labels of its words.
fn put_region(
    out: &mut [u8],
    at: usize,
    labels: &LabelTable<'_>,
    regions: &Regions<'_>,
    number: usize,
    region: Region,
    slots: &mut [u16],
) -> usize
    requires slots_in_bounds { length regions.now ≤ 4 * length slots.old }
    requires number_bound { number < region_count regions.now }
    requires region_value { region ≡ region_at regions.now (region_place regions.now number) }
    requires number_in_bounds { at + length (region_text (label_at labels.now.list) number (image_region regions.now (region_place regions.now number))) ≤ length out.old }
    ensures { Put out.old at
        (region_text (label_at labels.now.list) number (image_region regions.now (region_place regions.now number))) out.new result }
{
    let list = regions.bytes();
    let address = region.address;
    let start = region.start;
    let size = region.size;
    page_labels::find_shown(labels.index(), address, size, &mut *slots);
    let data_at = page_lines::put_number(&mut *out, at, number);
    put_data(
        out,
        data_at,
        address,
        &list[start..start + size],
        labels.bytes(),
        slots,
    )
}

// Writes all regions in turn.
fn put_page(
    out: &mut [u8],
    labels: &LabelTable<'_>,
    regions: &Regions<'_>,
    slots: &mut [u16],
) -> usize
    requires slots_in_bounds { length regions.now ≤ 4 * length slots.old }
    requires regions_in_bounds { length (page_of labels.now.list regions.now) ≤ length out.old }
    ensures { Put out.old 0 (page_of labels.now.list regions.now) out.new result }
{
    let mut end = 0;
    for (number, place) in regions.places().enumerate() {
        let region = regions.region_at(place);
        end = put_region(&mut *out, end, labels, regions, number, region, &mut *slots);
    }
    end
}

// Counts the lines of a page: one for each region and one for each of its words. The four address bytes in a record count as the region's own line.
// kept: a loop; the closure for `map` reads the list and would need its bounds as a clause, and `sum` asks that each part of it fits.
fn count_lines(regions: &Regions<'_>) -> usize
    ensures { (result ≡ line_count (image_of regions.now)) × (result < 16384) }
{
    let list = regions.bytes();
    let mut count: usize = 0;
    for at in regions.places() {
        count += (record::half_at(list, at) + 3) / 4;
    }
    count
}

// Refusal 1: the first buffer that breaks its layout.
fn check_layouts(labels: &[u8], regions: &[u8], page: &[u8]) -> Result<(), Refusal>
    ensures { result ≡ layout_verdicts labels.now regions.now (length page.now) }
{
    refusal::check_layout(0, labels::first_bad_label(labels))?;
    refusal::check_layout(1, regions::first_bad_region(regions))?;
    if page.len() > LIMIT {
        return Err(Refusal::BadLayout(2, LIMIT as u32));
    }
    Ok(())
}

// Lays out lists that have passed refusal 1, of at most so many labels and words. The slots also serve while the index is made.
fn lay_out_by<const LABELS: usize, const WORDS: usize>(
    labels: &[u8],
    regions: &[u8],
    page: &mut [u8],
) -> Result<u32, Refusal>
    requires page_value { layout_verdicts labels.now regions.now (length page.old) ≡ Ok tt }
    requires labels_in_bounds { (length (places labels.now) ≤ LABELS) × (length (places labels.now) ≤ WORDS) × (length regions.now ≤ 4 * WORDS) }
    requires arrays_len_bound { (LABELS ≤ 65536) × (WORDS ≤ 65536) }
    ensures { page_outcome labels.now regions.now page.old ≡ (record { answer = result; page = page.new }) }
{
    let mut order = [0u16; LABELS];
    let mut slots = [0u16; WORDS];
    let regions = Regions::new(regions);
    let table = LabelTable::make(labels, &mut order, &mut slots)?;
    if page.len() < 73 * count_lines(&regions) {
        return Err(Refusal::NoPageSpace);
    }
    Ok(put_page(page, &table, &regions, &mut slots) as u32)
}

// Lays the image out and returns the page's length, or refuses and changes no byte. Short lists use small arrays.
pub fn lay_out(labels: &[u8], regions: &[u8], page: &mut [u8]) -> Result<u32, Refusal>
    ensures { page_outcome labels.now regions.now page.old ≡ (record { answer = result; page = page.new }) }
{
    check_layouts(labels, regions, &*page)?;
    if labels.len() + regions.len() <= SHORT {
        return lay_out_by::<SHORT_LABELS, SHORT_WORDS>(labels, regions, page);
    }
    lay_out_by::<{ labels::MOST }, { page_labels::MOST_WORDS }>(labels, regions, page)
}
