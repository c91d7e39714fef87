// The 22 operations: one table of word, used columns and extra, which reading, vetting and running all go by.
ghost use Rattle.std.specs.Prelude.{◌≡◌, slice_get};
ghost use Rattle.std.specs.Result.{result_ok};
ghost use Rattle.std.specs.Str.{bytes_eq};
ghost use Rattle.operations.specs.Sound.{leads};
ghost use Rattle.operations.specs.Table.{row, number_of, code_at, code_of, guessed, Tells};

use crate::unknown::{UnknownCode, UnknownWord};
use crate::uses::Uses;

// What a module may do, in the order of the numbers that stand for it.
#[derive(Clone, Copy, Debug, Default, PartialEq, Eq)]
pub enum Code {
    #[default]
    Stop,
    Set,
    Copy,
    Add,
    Sub,
    Addi,
    Mul,
    Div,
    Less,
    Load,
    Store,
    Loadb,
    Storeb,
    Jump,
    Jzero,
    Call,
    Ret,
    Frame,
    Global,
    Grab,
    Release,
    Out,
}

// The operations by their numbers.
#[rattlefmt::skip]
const EVERY: [Code; 22] = [
    Code::Stop, Code::Set, Code::Copy, Code::Add, Code::Sub, Code::Addi, Code::Mul, Code::Div,
    Code::Less, Code::Load, Code::Store, Code::Loadb, Code::Storeb,
    Code::Jump, Code::Jzero, Code::Call, Code::Ret, Code::Frame, Code::Global,
    Code::Grab, Code::Release, Code::Out,
];

// A row of the table: the word in a text, the columns in use, and how many micro-operations are counted as put in.
#[derive(Clone, Copy, Debug, PartialEq, Eq)]
pub struct Row {
    pub word: &'static str,
    pub uses: Uses,
    pub extra: u8,
}

const NONE: Uses = Uses {
    d: false,
    a: false,
    b: false,
    n: false,
};

const A: Uses = Uses { a: true, ..NONE };

const N: Uses = Uses { n: true, ..NONE };

const AN: Uses = Uses { n: true, ..A };

const DA: Uses = Uses { d: true, ..A };

const DN: Uses = Uses { d: true, ..N };

const ABN: Uses = Uses { b: true, ..AN };

const DAB: Uses = Uses { b: true, ..DA };

const DAN: Uses = Uses { n: true, ..DA };

impl Code {
    #[rattlefmt::skip]
    pub fn row(self) -> Row
        ensures { Tells result (row self) }
    {
        match self {
            Code::Stop => Row { word: "stop", uses: NONE, extra: 0 },
            Code::Set => Row { word: "set", uses: DN, extra: 0 },
            Code::Copy => Row { word: "copy", uses: DA, extra: 0 },
            Code::Add => Row { word: "add", uses: DAB, extra: 1 },
            Code::Sub => Row { word: "sub", uses: DAB, extra: 0 },
            Code::Addi => Row { word: "addi", uses: DAN, extra: 0 },
            Code::Mul => Row { word: "mul", uses: DAB, extra: 0 },
            Code::Div => Row { word: "div", uses: DAB, extra: 0 },
            Code::Less => Row { word: "less", uses: DAB, extra: 0 },
            Code::Load => Row { word: "load", uses: DAN, extra: 2 },
            Code::Store => Row { word: "store", uses: ABN, extra: 2 },
            Code::Loadb => Row { word: "loadb", uses: DAN, extra: 1 },
            Code::Storeb => Row { word: "storeb", uses: ABN, extra: 1 },
            Code::Jump => Row { word: "jump", uses: N, extra: 0 },
            Code::Jzero => Row { word: "jzero", uses: AN, extra: 0 },
            Code::Call => Row { word: "call", uses: N, extra: 4 },
            Code::Ret => Row { word: "ret", uses: NONE, extra: 4 },
            Code::Frame => Row { word: "frame", uses: DN, extra: 0 },
            Code::Global => Row { word: "global", uses: DN, extra: 0 },
            Code::Grab => Row { word: "grab", uses: DA, extra: 1 },
            Code::Release => Row { word: "release", uses: A, extra: 1 },
            Code::Out => Row { word: "out", uses: A, extra: 0 },
        }
    }

    // Whether the word of a text is the operation's. Inlined first, so that it is compiled knowing which operations were guessed.
    #[inline(always)]
    fn is_named(self, word: &[u8]) -> bool
        ensures { result ≡ bytes_eq word.now (row self).word }
    {
        word == self.row().word.as_bytes()
    }

    // Whether n is the position that the operation goes to.
    pub(crate) fn has_target(self) -> bool
        ensures { result ≡ leads self }
    {
        matches!(self, Code::Jump | Code::Jzero | Code::Call)
    }
}

// The number that stands for the operation in a record.
impl From<Code> for u8 {
    ghost from_gives = { λ code number. number ≡ number_of code };

    fn from(code: Code) -> u8 {
        code as u8
    }
}

// The operation that a record's number stands for.
impl TryFrom<u8> for Code {
    type Error = UnknownCode;

    ghost try_from_gives = { λ number r. result_ok r ≡ code_at number };

    fn try_from(number: u8) -> Result<Code, UnknownCode> {
        numbered(&EVERY, number).ok_or(UnknownCode)
    }
}

// The operation that a text's word names.
impl TryFrom<&[u8]> for Code {
    type Error = UnknownWord;

    ghost try_from_gives = { λ word r. result_ok r ≡ code_of word.now };

    #[tactic(auto, using(crate::proofs::Words::guess_right))]
    fn try_from(word: &[u8]) -> Result<Code, UnknownWord> {
        let code = guess(word);
        if code.is_named(word) {
            Ok(code)
        } else {
            Err(UnknownWord)
        }
    }
}

// The operation that has the number among these. The list is a parameter, since the proof is over any.
fn numbered(codes: &[Code], number: u8) -> Option<Code>
    ensures { result ≡ slice_get codes.now number }
{
    codes.get(usize::from(number)).copied()
}

// The only operation that the word can name: its first two letters and its length tell the words apart, so that one comparison
// is enough.
fn guess(word: &[u8]) -> Code
    ensures { result ≡ guessed word.now }
{
    let [first, second, ..] = *word else {
        return Code::Out;
    };
    match (first, second, word.len()) {
        (b'a', _, 3) => Code::Add,
        (b'a', _, _) => Code::Addi,
        (b'c', b'o', _) => Code::Copy,
        (b'c', _, _) => Code::Call,
        (b'd', _, _) => Code::Div,
        (b'f', _, _) => Code::Frame,
        (b'g', b'l', _) => Code::Global,
        (b'g', _, _) => Code::Grab,
        (b'j', b'u', _) => Code::Jump,
        (b'j', _, _) => Code::Jzero,
        (b'l', b'e', _) => Code::Less,
        (b'l', _, 4) => Code::Load,
        (b'l', _, _) => Code::Loadb,
        (b'm', _, _) => Code::Mul,
        (b'r', _, 3) => Code::Ret,
        (b'r', _, _) => Code::Release,
        (b's', b'e', _) => Code::Set,
        (b's', b'u', _) => Code::Sub,
        (b's', _, 4) => Code::Stop,
        (b's', _, 5) => Code::Store,
        (b's', _, _) => Code::Storeb,
        _ => Code::Out,
    }
}
