// Reads the counted lists, the numbers and the registers in a program's input.
#![tactic(auto)]

ghost use Rattle.std.specs.Prelude.{◌≡◌, ◌+◌, ◌≤◌, ◌<◌, min, length, take, drop};
ghost use Rattle.std.specs.Option.{MatchOption};
ghost use Rattle.record.specs.Bytes.{byte_at};
ghost use Rattle.record.specs.Stores.{append};
ghost use Rattle.input.specs.Input.{list_end, list_in, behind_list, behind_lists, list_of, word_or_zero, half_or_zero};
ghost use Rattle.input.specs.RegisterBytes.{registers_in};

// The most bytes of standard input that a program reads.
pub const MOST: usize = 0x10_0000;

// The file descriptor of standard input.
pub const STDIN: i32 = 0;

// Returns where the first list ends, the input's end at most.
fn list_end(input: &[u8]) -> usize
    ensures { result ≡ min (list_end input.now) (length input.now) }
{
    if input.len() < 4 {
        return input.len();
    }
    input.len().min(4 + record::word_at(input, 0) as usize)
}

// Returns the bytes after the first `count` lists.
pub fn behind_lists(input: &[u8], count: usize) -> &[u8]
    ensures { result.now ≡ behind_lists count input.now }
{
    let mut rest = input;
    for _ in 0..count {
        rest = &rest[list_end(rest)..];
    }
    rest
}

// Returns the bytes after the first `count` bytes.
pub fn behind(bytes: &[u8], count: usize) -> &[u8]
    ensures { result.now ≡ drop count bytes.now }
{
    let start = bytes.len().min(count);
    &bytes[start..]
}

// Returns the list with this number, counted from 0.
pub fn list_of(input: &[u8], number: usize) -> &[u8]
    ensures { result.now ≡ list_of number input.now }
{
    let rest = behind_lists(input, number);
    let end = list_end(rest);
    &rest[end.min(4)..end]
}

// Returns the `N` bytes at `at`, or none if any of them is missing.
fn bytes_at<const N: usize>(input: &[u8], at: usize) -> Option<[u8; N]>
    ensures { MatchOption result (length input.now < at + N) (λ bytes. (at + N ≤ length input.now) × (bytes ≡ take N (drop at input.now))) }
{
    input.get(at..)?.first_chunk().copied()
}

// Returns the 4-byte number at `at`, or 0 if any of its bytes is missing.
pub fn word_or_zero(input: &[u8], at: usize) -> u32
    ensures { result ≡ word_or_zero input.now at }
{
    bytes_at(input, at).map_or(0, u32::from_le_bytes)
}

// Reads 32 registers from the start of `bytes`, four bytes each. A register with missing bytes is 0.
pub fn registers_in(bytes: &[u8]) -> [u32; 32]
    ensures { result ≡ registers_in bytes.now }
{
    std::array::from_fn(|i| word_or_zero(bytes, 4 * i))
}

// Returns the 2-byte number at `at`, or 0 if any of its bytes is missing.
pub fn half_or_zero(input: &[u8], at: usize) -> u16
    ensures { result ≡ half_or_zero input.now at }
{
    bytes_at(input, at).map_or(0, u16::from_le_bytes)
}

// Returns the byte at `at`, or 0 if it is missing.
pub fn byte_or_zero(input: &[u8], at: usize) -> u8
    ensures { result ≡ byte_at input.now at }
{
    input.get(at).copied().unwrap_or(0)
}

// Copies as much of the list as fits into `space`, and returns how many bytes that is.
pub fn hold(space: &mut [u8], list: &[u8]) -> usize
    ensures value { result ≡ min (length list.now) (length space.old) }
    ensures space_after { space.new ≡ append space.old 0 (take result list.now) }
{
    let count = list.len().min(space.len());
    record::put_all(space, 0, &list[..count]);
    count
}

// Copies as much of the list as fits into `space`, and returns the part of `space` that holds it.
pub fn hold_in<'a>(space: &'a mut [u8], list: &[u8]) -> &'a mut [u8]
    ensures { result.now ≡ take (length space.old) list.now }
{
    let count = hold(&mut *space, list);
    &mut space[..count]
}
