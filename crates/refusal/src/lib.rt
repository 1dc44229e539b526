// The refusals, and what each returns by documents 01 and 02: a number, a location and two numbers.
#![tactic(auto)]

ghost use Rattle.std.specs.Prelude.{◌≡◌, ◌<◌, ◌^◌};
ghost use Rattle.std.specs.Option.{ForSome};
ghost use Rattle.refusal.specs.Numbers.{zero_location, numbered};
ghost use Rattle.refusal.specs.Verdicts.{layout_verdict, name_verdict};

use record::Location;

// Why a call stops. The names are the Rust's where it has one.
#[derive(Clone, Copy)]
pub enum Refusal {
    // a buffer, by its argument's number, and the place in it
    BadLayout(u32, u32),
    DuplicateName(u32, u32),
    UnknownInstruction(Location),
    EndOfFile(Location),
    // the kind of the token found instead
    ExpectedRegister(Location, u8),
    ExpectedConstant(Location, u8),
    ExpectedLabel(Location, u8),
    ExpectedRightBrace(Location, u8),
    ConstantOutOfRange(Location),
    MissingRegion(Location),
    // the region's address and the data's length
    OverwriteEdge(Location, u32, u32),
    // 0 words, 1 pending records, 2 breakpoint records
    NoSpace(Location, u8),
    UnknownEntry(Location),
    PatchPastEnd(Location),
    UnknownLabel(Location),
    // the destination and the patch's pc
    JumpOutOfRange(Location, u32, u32),
    // of a line in a manual or a Release 6 job
    ShiftOutOfRange(Location),
    CodeOutOfRange(Location),
    // of a line for a Release 6 board
    DroppedInstruction(Location),
    // a token of a text that cannot be read, that no record can hold, or that has no room
    BadByte(Location),
    BadToken(Location),
    NoTokenSpace(Location),
    // a macro call with a wrong count of arguments, or nine deep; or a written-out token that has no room
    WrongArguments(Location),
    NinthLevel(Location),
    NoWrittenSpace(Location),
    // the index of a pending list is longer than its buffer
    NoIndexSpace(Location),
    // a line for a region that patching has passed, or after patching ended or was refused
    LateLine(Location),
    // a page for the wall is longer than its buffer
    NoPageSpace,
    // a dry run's starting pc is no multiple of four, or has no whole word
    BadStart,
    // a range of constants to count starts past its end
    StartPastEnd,
}

// A refusal as it is returned.
#[derive(Clone, Copy)]
pub struct Numbered {
    pub number: u32,
    pub location: Location,
    pub a: i64,
    pub b: u32,
}

// Returns the location of what has none: zeros.
pub fn zero_location() -> Location
    ensures { result ≡ zero_location }
{
    Location {
        source: 0,
        index: 0,
    }
}

pub fn numbers(refusal: Refusal) -> Numbered
    ensures { result ≡ numbered refusal }
{
    let zero = zero_location();
    let (number, location, a, b) = match refusal {
        Refusal::BadLayout(a, b) => (1, zero, i64::from(a), b),
        Refusal::DuplicateName(a, b) => (2, zero, i64::from(a), b),
        Refusal::UnknownInstruction(l) => (3, l, 0, 0),
        Refusal::EndOfFile(l) => (4, l, 0, 0),
        Refusal::ExpectedRegister(l, kind) => (5, l, i64::from(kind), 0),
        Refusal::ExpectedConstant(l, kind) => (6, l, i64::from(kind), 0),
        Refusal::ExpectedLabel(l, kind) => (7, l, i64::from(kind), 0),
        Refusal::ExpectedRightBrace(l, kind) => (8, l, i64::from(kind), 0),
        Refusal::ConstantOutOfRange(l) => (9, l, -8000, 32767),
        Refusal::MissingRegion(l) => (10, l, 0, 0),
        Refusal::OverwriteEdge(l, a, b) => (11, l, i64::from(a), b),
        Refusal::NoSpace(l, short) => (12, l, i64::from(short), 0),
        Refusal::UnknownEntry(l) => (13, l, 0, 0),
        Refusal::PatchPastEnd(l) => (14, l, 0, 0),
        Refusal::UnknownLabel(l) => (15, l, 0, 0),
        Refusal::JumpOutOfRange(l, a, b) => (16, l, i64::from(a), b),
        Refusal::ShiftOutOfRange(l) => (19, l, 0, 0),
        Refusal::CodeOutOfRange(l) => (20, l, 0, 0),
        Refusal::DroppedInstruction(l) => (27, l, 0, 0),
        Refusal::BadByte(l) => (21, l, 0, 0),
        Refusal::BadToken(l) => (22, l, 0, 0),
        Refusal::NoTokenSpace(l) => (23, l, 0, 0),
        Refusal::WrongArguments(l) => (24, l, 0, 0),
        Refusal::NinthLevel(l) => (25, l, 0, 0),
        Refusal::NoWrittenSpace(l) => (26, l, 0, 0),
        Refusal::NoIndexSpace(l) => (17, l, 0, 0),
        Refusal::LateLine(l) => (29, l, 0, 0),
        Refusal::NoPageSpace => (18, zero, 0, 0),
        Refusal::BadStart => (28, zero, 0, 0),
        Refusal::StartPastEnd => (30, zero, 0, 0),
    };
    Numbered {
        number,
        location,
        a,
        b,
    }
}

// Returns refusal 1 if the buffer's list has a bad place.
pub fn check_layout(buffer: u32, bad: Option<usize>) -> Result<(), Refusal>
    requires { ForSome bad (λ place. place < 2 ^ 32) }
    ensures { result ≡ layout_verdict buffer bad }
{
    match bad {
        None => Ok(()),
        Some(place) => Err(Refusal::BadLayout(buffer, place as u32)),
    }
}

// Returns refusal 2 if a name of the buffer's list is repeated at a later place.
pub fn check_names(buffer: u32, later: Option<usize>) -> Result<(), Refusal>
    requires { ForSome later (λ place. place < 2 ^ 32) }
    ensures { result ≡ name_verdict buffer later }
{
    match later {
        None => Ok(()),
        Some(place) => Err(Refusal::DuplicateName(buffer, place as u32)),
    }
}
