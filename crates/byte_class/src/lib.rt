// The class of each byte of a text, from a constant table.
#![tactic(auto)]

ghost use Rattle.std.specs.Prelude.{◌≡◌};
ghost use Rattle.std.proofs.Props.{props};
ghost use Rattle.byte_class.specs.Class.{class_of, word_byte, blank_byte};
ghost use Rattle.byte_class.specs.Letters.{letter_of, letters};

#[derive(Clone, Copy)]
pub enum Class {
    Blank,
    Newline,
    Digit,
    Letter,
    Mark(Mark),
    Nothing,
}

// The marks, by what each begins or is.
#[derive(Clone, Copy)]
pub enum Mark {
    Comment,
    Directive,
    Parameter,
    Register,
    StringLiteral,
    Plus,
    Minus,
    Comma,
    Colon,
    LeftBrace,
    RightBrace,
}

// b means blank, n newline, 0 digit, a letter, ~ nothing; a mark stands for itself. 32 bytes to a row.
const CLASSES: [u8; 256] = *b"\
    ~~~~~~~~~bn~~b~~~~~~~~~~~~~~~~~~\
    b~\"#$%~~()~+,-.~0000000000:~~~~~\
    ~aaaaaaaaaaaaaaaaaaaaaaaaaa~~~~a\
    ~aaaaaaaaaaaaaaaaaaaaaaaaaa~~~~~\
    ~~~~~~~~~~~~~~~~~~~~~~~~~~~~~~~~\
    ~~~~~~~~~~~~~~~~~~~~~~~~~~~~~~~~\
    ~~~~~~~~~~~~~~~~~~~~~~~~~~~~~~~~\
    ~~~~~~~~~~~~~~~~~~~~~~~~~~~~~~~~";

// The table as a value. A constant array is made anew at each use, so a reader of a text makes one value and lends it.
#[derive(Clone, Copy)]
pub struct ByteClasses {
    table: [u8; 256],
    ghost of_bytes: { table ≡ letters } by { Prim.hlevel props },
}

impl ByteClasses {
    pub fn new() -> Self {
        ByteClasses { table: CLASSES }
    }

    // Returns the table's letter for a byte.
    fn letter_of(&self, byte: u8) -> u8
        ensures { result ≡ letter_of (class_of byte) }
    {
        self.table[usize::from(byte)]
    }

    pub fn class_of(&self, byte: u8) -> Class
        ensures { result ≡ class_of byte }
    {
        match self.letter_of(byte) {
            b'b' => Class::Blank,
            b'n' => Class::Newline,
            b'0' => Class::Digit,
            b'a' => Class::Letter,
            b'#' => Class::Mark(Mark::Comment),
            b'.' => Class::Mark(Mark::Directive),
            b'%' => Class::Mark(Mark::Parameter),
            b'$' => Class::Mark(Mark::Register),
            b'"' => Class::Mark(Mark::StringLiteral),
            b'+' => Class::Mark(Mark::Plus),
            b'-' => Class::Mark(Mark::Minus),
            b',' => Class::Mark(Mark::Comma),
            b':' => Class::Mark(Mark::Colon),
            b'(' => Class::Mark(Mark::LeftBrace),
            b')' => Class::Mark(Mark::RightBrace),
            _ => Class::Nothing,
        }
    }

    // Whether the byte is a letter or a digit.
    pub fn is_word_byte(&self, byte: u8) -> bool
        ensures { result ≡ word_byte byte }
    {
        matches!(self.letter_of(byte), b'a' | b'0')
    }

    // Whether the byte is a blank.
    pub fn is_blank(&self, byte: u8) -> bool
        ensures { result ≡ blank_byte byte }
    {
        self.letter_of(byte) == b'b'
    }
}
