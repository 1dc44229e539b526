// The regions: a list of region records instead of the Rust's vector of regions.
#![tactic(auto)]

ghost use Rattle.std.specs.Prelude.{◌≡◌, ◌≤◌, ◌<◌, true, length};
ghost use Rattle.record.specs.Records.{places};
ghost use Rattle.record.specs.Left.{places_left};
ghost use Rattle.regions.specs.Regions.{region_ok, region_layout, region_count, region_place, region_at};

use std::marker::Model;

// The record kind.
const REGION: usize = 35;

// "1 to 16 regions"
pub const MOST: usize = 16;

// A region's address, and where its data stands in the list.
#[derive(Clone, Copy)]
pub struct Region {
    pub address: u32,
    pub start: usize,
    pub size: usize,
}

// A region list that keeps its layout.
#[derive(Drop)]
pub struct Regions<'a> {
    bytes: &'a [u8],
}

impl<'a> Model for Regions<'a> {
    ghost use Rattle.std.specs.Prelude.{◌≡◌, ℕ, List, None};
    ghost use Rattle.regions.specs.Regions.{region_layout};

    ghost Value = { List ℕ };

    ghost view = { λ list. list.bytes.now };

    ghost invariant = { λ list. region_layout list.bytes.now ≡ None };
}

impl<'a> Regions<'a> {
    pub fn new(bytes: &'a [u8]) -> Self
        requires { region_layout bytes.now ≡ None }
        ensures { result ≡ bytes.now }
    {
        Regions { bytes }
    }

    pub fn bytes(&self) -> &'a [u8]
        ensures value { result.now ≡ self.now }
        ensures layout { region_layout self.now ≡ None }
    {
        self.bytes
    }

    // Returns the places of its records, in order.
    pub fn places(&self) -> record::Iter<'a>
        ensures value { places_left result ≡ places self.now }
        ensures layout { region_layout self.now ≡ None }
    {
        record::places(self.bytes)
    }

    pub fn count(&self) -> usize
        ensures { (result ≡ region_count self.now) × (result ≤ 16) }
    {
        record::places(self.bytes).count()
    }

    // Returns the region of the record at `at`.
    pub fn region_at(&self, at: usize) -> Region
        requires { region_ok self.now at ≡ true }
        ensures { result ≡ region_at self.now at }
    {
        let list = self.bytes;
        let address = record::word_at(list, at + 4);
        let size = record::half_at(list, at) - 4;
        Region {
            address,
            start: at + 8,
            size,
        }
    }

    // Returns the region with that number, counted from 0.
    pub fn region(&self, number: usize) -> Region
        requires { number < region_count self.now }
        ensures { result ≡ region_at self.now (region_place self.now number) }
    {
        // kept: `nth` over `places` asks of each record on the way whether it is whole, and a build looks a region up twice for each patch
        let mut at: usize = 0;
        for _ in 0..number {
            at = record::next(self.bytes, at);
        }
        self.region_at(at)
    }
}

// The layout of a region.
#[derive(Clone, Copy)]
struct RegionLayout;

impl record::Layout for RegionLayout {
    ghost keeps = { λ self s at. region_ok s at };

    #[tactic(auto, unfolding(crate::specs::Regions::region_ok))]
    fn keeps(&self, list: &[u8], at: usize) -> bool {
        record::whole_at(list, at)
            && record::half_at(list, at + 2) == REGION
            && record::half_at(list, at) >= 4
    }
}

// Returns the place of the first record that breaks the layout, 0 for an empty list, or the limit if the list is longer.
#[tactic(auto, using(crate::proofs::RegionsLaws::layout_none, crate::proofs::RegionsLaws::layout_first))]
pub fn first_bad_region(regions: &[u8]) -> Option<usize>
    ensures { result ≡ region_layout regions.now }
{
    if regions.is_empty() {
        return Some(0);
    }
    record::first_bad_of_within(&RegionLayout, regions, MOST)
}
