// Refusal 1 for the lists of patching by steps: the filled part of the region list, the filled part of the pendings, and a step's kept words.
#![tactic(auto)]

ghost use Rattle.std.specs.Prelude.{◌≡◌, ◌*◌, ◌≤◌, length, take};
ghost use Rattle.record.specs.Records.{places};
ghost use Rattle.regions.specs.Regions.{region_layout};
ghost use Rattle.pending.specs.Pendings.{pending_layout};
ghost use Rattle.breakpoints.specs.Breakpoints.{filled_layout};
ghost use Rattle.binary_builder.specs.Steps.{PendingList, most_pendings};
ghost use Rattle.patching_outcome.specs.Patching.{has_patched};

// Returns where the first `fill` bytes break the layout of a region list, or None.
pub fn check_regions(buffer: &[u8], fill: usize) -> Option<usize>
    ensures { result ≡ filled_layout fill buffer.now (region_layout (take fill buffer.now)) }
{
    breakpoints::filled(buffer, fill).or_else(|| regions::first_bad_region(&buffer[..fill]))
}

// Counts the pendings of a list.
pub fn count_pendings(pending: &[u8]) -> usize
    requires { PendingList pending.now }
    ensures { (result ≡ length (places pending.now)) × (result ≤ most_pendings) }
{
    record::places(pending).count()
}

// Returns where a pending list breaks its layout, or None. A list of fewer than `patches` pendings breaks it at its end.
fn check_patched(pending: &[u8], regions: usize, patches: usize) -> Option<usize>
    ensures { result ≡ has_patched patches pending.now (pending_layout regions pending.now) }
{
    let bad = pending::first_bad_pending(pending, regions);
    if bad.is_some() || patches <= count_pendings(pending) {
        bad
    } else {
        Some(pending.len())
    }
}

// The same for the first `fill` bytes of a buffer, which must be within the limit and have that many bytes.
pub fn check_pendings(buffer: &[u8], fill: usize, regions: usize, patches: usize) -> Option<usize>
    ensures { result ≡ filled_layout fill buffer.now
        (has_patched patches (take fill buffer.now) (pending_layout regions (take fill buffer.now))) }
{
    breakpoints::filled(buffer, fill).or_else(|| check_patched(&buffer[..fill], regions, patches))
}

// Checks that the kept words have four bytes for each pending: None if they do.
pub fn check_kept(kept: &[u8], pending: &[u8]) -> Option<usize>
    requires { PendingList pending.now }
    ensures { result ≡ filled_layout (4 * length (places pending.now)) kept.now None }
{
    breakpoints::filled(kept, 4 * count_pendings(pending))
}
