// What most programs do: each reads standard input, makes a text from it and prints that text, or does so for each stored case.
#![tactic(auto)]

ghost use Rattle.std.specs.Prelude.{◌≡◌, ◌<◌, List, ℕ};
ghost use Rattle.std.proofs.Common.{rules};

use text::{Printed, Text};

// A program: the text that it prints for its input. The text has room for the longest that any program prints.
// kept: a trait's parameter takes no default, so with `TextProgram` alone each such impl would name the room and prove that it fits
pub trait Program {
    ghost text_of: { List ℕ → List ℕ };

    // Replaces what is in `out` by that text.
    fn print(&self, input: &[u8], out: &mut Printed)
        ensures { out.new ≡ text_of input.now };
}

// A program whose text has a room of its own, `N` bytes.
pub trait TextProgram<const N: usize> {
    ghost text_of: { List ℕ → List ℕ };

    // Replaces what is in `out` by that text.
    fn print_text(&self, input: &[u8], out: &mut Text<N>)
        ensures { out.new ≡ text_of input.now };

    // A text with this room is under 4 GiB.
    ghost fits: { N < 4294967296 };
}

// Each `Program` is a `TextProgram` with room for the longest text.
impl<P: Program> TextProgram<{ text::LONGEST }> for P {
    ghost text_of = { P.text_of };

    fn print_text(&self, input: &[u8], out: &mut Printed) {
        self.print(input, out);
    }

    ghost fits = { Prim.search rules };
}

// Reads standard input and prints the program's text for it.
pub fn run<const N: usize, P: TextProgram<N>>(program: &P) {
    let mut input = [0u8; input::MOST];
    let count = io::read_full(input::STDIN, &mut input);
    put(program, &input[..count], &mut Text::<N>::new());
}

// Reads one case of standard input after the other, and prints for each its number and then the program's text. A case is an input after
// its 4-byte count, so only one case has to fit into `input::MOST` bytes, and not all of them.
pub fn run_cases<const N: usize, P: TextProgram<N>>(program: &P) {
    let mut space = [0u8; input::MOST];
    let mut out = Text::<N>::new();
    for number in 0..u64::MAX {
        let Some(case) = next_case(&mut space) else {
            break;
        };
        put_head(number);
        put(program, case, &mut out);
    }
}

// Reads the next case into `space`, and returns its bytes. There is none where a byte of its count is missing, and none with a count that
// is more than `space` holds. A case that is cut off is the bytes that are there.
fn next_case(space: &mut [u8]) -> Option<&[u8]> {
    let mut head = [0u8; 4];
    let known = io::read_full(input::STDIN, &mut head);
    let size = u32::from_le_bytes(head) as usize;
    if known < 4 || size > space.len() {
        return None;
    }
    let count = io::read_full(input::STDIN, &mut space[..size]);
    Some(&space[..count])
}

fn put<const N: usize, P: TextProgram<N>>(program: &P, input: &[u8], out: &mut Text<N>) {
    program.print_text(input, &mut *out);
    io::write_all(text::STDOUT, out.as_bytes());
}

fn put_head(number: u64) {
    let mut head = Text::<32>::new();
    head.push_number_line(b"case", number);
    io::write_all(text::STDOUT, head.as_bytes());
}
