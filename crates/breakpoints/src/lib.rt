// The three buffers that an emit call appends to: region data, and the filled parts of the pending and breakpoint lists.
#![tactic(auto)]

ghost use Rattle.std.specs.Prelude.{◌≡◌, ◌+◌, ◌*◌, ◌^◌, ◌≤◌, length};
ghost use Rattle.record.specs.Stores.{append};
ghost use Rattle.breakpoints.specs.BreakpointBytes.{breakpoint_bytes};
ghost use Rattle.breakpoints.specs.Breakpoints.{breakpoint_ok, filled_layout, pending_buffer_layout, breakpoint_buffer_layout, region_number_ok, data_buffer_layout};

use record::Location;

// The record kind.
const BREAKPOINT: u16 = 37;

// The region number that means: no region is selected.
pub const NO_REGION: u16 = 65535;

// The pcs of a line's words: `count` of them, four apart.
#[derive(Clone, Copy)]
pub struct Pcs {
    pub first: u32,
    pub count: usize,
}

// The layout of a list of breakpoints.
#[derive(Clone, Copy)]
struct Breakpoints;

impl record::Layout for Breakpoints {
    ghost keeps = { λ self s at. breakpoint_ok s at };

    #[tactic(auto, unfolding(crate::specs::Breakpoints::breakpoint_ok))]
    fn keeps(&self, list: &[u8], at: usize) -> bool {
        record::whole_at(list, at)
            && record::half_at(list, at + 2) == usize::from(BREAKPOINT)
            && record::half_at(list, at) >= 12
            && record::half_at(list, at) <= 28
            && record::half_at(list, at) % 4 == 0
    }
}

// Returns None if the buffer is within the limit and the fill count within the buffer, else the limit or the buffer's length.
#[tactic(auto, unfolding(crate::specs::Breakpoints::filled_layout, record::specs::Records::within_limit))]
pub fn filled(buffer: &[u8], fill: usize) -> Option<usize>
    ensures { result ≡ filled_layout fill buffer.now None }
{
    record::past_limit(buffer).or_else(|| (fill > buffer.len()).then_some(buffer.len()))
}

// Checks the first `fill` bytes as a list of pendings, and returns the first bad place. A pending's region is 0 to 15.
pub fn check_pending_buffer(buffer: &[u8], fill: usize) -> Option<usize>
    ensures { result ≡ pending_buffer_layout fill buffer.now }
{
    filled(buffer, fill).or_else(|| pending::first_bad_pending(&buffer[..fill], regions::MOST))
}

// Checks the first `fill` bytes as a list of breakpoints, and returns the first bad place.
pub fn check_breakpoint_buffer(buffer: &[u8], fill: usize) -> Option<usize>
    ensures { result ≡ breakpoint_buffer_layout fill buffer.now }
{
    filled(buffer, fill).or_else(|| record::first_bad(&Breakpoints, &buffer[..fill]))
}

// "The selected number is 0 to 15, or 65535 for none."
pub fn region_number_ok(region: u16) -> bool
    ensures { result ≡ region_number_ok region }
{
    region <= 15 || region == NO_REGION
}

// Checks the region's number, then the data's length and fill count. A bad number gives place 0.
#[tactic(auto, unfolding(crate::specs::Breakpoints::data_buffer_layout))]
pub fn check_data_buffer(buffer: &[u8], fill: usize, region: u16) -> Option<usize>
    ensures { result ≡ data_buffer_layout region fill buffer.now }
{
    if !region_number_ok(region) {
        return Some(0);
    }
    filled(buffer, fill)
}

// Writes a breakpoint record from `at` on.
pub fn put_breakpoint(d: &mut [u8], at: usize, location: Location, pcs: Pcs)
    requires { (pcs.count ≤ 5) × (at + 12 + 4 * pcs.count ≤ length d.old) × (pcs.first + 4 * pcs.count ≤ 2 ^ 32 + 3) }
    ensures { d.new ≡ append d.old at (breakpoint_bytes location pcs.first pcs.count) }
{
    record::put_head(d, at, (8 + 4 * pcs.count) as u16, BREAKPOINT);
    record::put_location(d, at + 4, location);
    for i in 0..pcs.count {
        record::put32(d, at + 12 + 4 * i, pcs.first + 4 * (i as u32));
    }
}
