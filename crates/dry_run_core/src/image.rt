// The image of a region list: finds the regions' places once, then reads the word at a pc.
#![tactic(auto)]

ghost use Rattle.std.specs.Prelude.{◌≡◌, ◌≤◌, length, take};
ghost use Rattle.record.specs.Records.{places};
ghost use Rattle.reading.specs.Reading.{image_of};
ghost use Rattle.dry_run_outcome.specs.Fetch.{fetch};

use regions::Regions;
use std::marker::Model;

// A region list with the places of its records.
#[derive(Drop)]
pub(crate) struct Placed<'a> {
    regions: Regions<'a>,
    at: [usize; regions::MOST],
    count: usize,
}

impl<'a> Model for Placed<'a> {
    ghost use Rattle.std.specs.Prelude.{◌≡◌, ◌≤◌, take};
    ghost use Rattle.record.specs.Records.{places};
    ghost use Rattle.reading.specs.Reading.{Image, image_of};

    ghost Value = { Image };

    ghost view = { λ placed. image_of placed.regions };

    ghost invariant = { λ placed. (take placed.count placed.at ≡ places placed.regions) × (placed.count ≤ 16) };
}

impl<'a> Placed<'a> {
    // kept: `count` is counted by hand, as it is kept too: with `enumerate` the records would be counted in a second walk.
    pub(crate) fn new(regions: Regions<'a>) -> Self
        ensures { result ≡ image_of regions.entry }
    {
        let mut at = [0usize; regions::MOST];
        let mut count: usize = 0;
        for place in regions.places() {
            at[count] = place;
            count += 1;
        }
        Placed { regions, at, count }
    }

    // Returns the word at pc, from the first region that has it.
    pub(crate) fn fetch(&self, pc: u32) -> Option<u32>
        ensures { result ≡ fetch self.now pc }
    {
        let list = self.regions.bytes();
        for &at in &self.at[..self.count] {
            let offset = pc.wrapping_sub(record::word_at(list, at + 4)) as usize;
            if offset + 8 <= record::half_at(list, at) {
                return Some(record::word_at(list, at + 8 + offset));
            }
        }
        None
    }
}
