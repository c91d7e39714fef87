// A value of a line.
ghost use Rattle.std.specs.Prelude.{◌≡◌, true, false, MatchResult};
ghost use Rattle.std.specs.Str.{bytes_eq};
ghost use Rattle.form.specs.Reading.{column_of, register_of, offset_of, operator_of};
ghost use Rattle.form.specs.Values.{says};
ghost use Rattle.text.specs.Values.{piece_of, says_of};

use faults::cause::Cause;
use numerals::number_in;
use operations::code::Code;

// A part of the text, and the place where it begins there.
#[derive(Clone, Copy)]
pub struct Piece<'a> {
    pub at: usize,
    pub bytes: &'a [u8],
}

// What stands between two commas: a plain number, nothing, or else a word.
#[derive(Clone, Copy)]
pub enum Value<'a> {
    Word(Piece<'a>),
    Number(Piece<'a>, i64),
    Blank(Piece<'a>),
}

impl<'a> From<Piece<'a>> for Value<'a> {
    ghost from_gives = { λ p v. (piece_of v ≡ p) × (says_of v ≡ says p.bytes.now) };

    #[inline(always)]
    fn from(piece: Piece<'a>) -> Value<'a> {
        if piece.bytes.is_empty() {
            return Value::Blank(piece);
        }
        match number_in(piece.bytes) {
            Some(n) => Value::Number(piece, n),
            None => Value::Word(piece),
        }
    }
}

impl<'a> Value<'a> {
    // The part of the text that the value borrows.
    pub(crate) fn piece(self) -> Piece<'a>
        ensures { result ≡ piece_of self.entry }
    {
        match self {
            Value::Word(piece) | Value::Number(piece, _) | Value::Blank(piece) => piece,
        }
    }

    // Whether it is the name, byte for byte.
    pub(crate) fn is(self, name: &[u8]) -> bool
        ensures { result ≡ bytes_eq name.now (piece_of self.entry).bytes.now }
    {
        name == self.piece().bytes
    }

    // The number that a column in use is to hold.
    fn number(self) -> Result<i64, Cause>
        ensures { MatchResult result (λ n. column_of true (says_of self.entry) ≡ Ok (Some n)) (λ c. column_of true (says_of self.entry) ≡ Err c) }
    {
        match self {
            Value::Number(_, n) => Ok(n),
            Value::Word(_) => Err(Cause::BadNumber),
            Value::Blank(_) => Err(Cause::WrongBlank),
        }
    }

    // Nothing, as a column that is not in use is to hold.
    fn nothing(self) -> Result<(), Cause>
        ensures { MatchResult result (λ _. column_of false (says_of self.entry) ≡ Ok None) (λ c. column_of false (says_of self.entry) ≡ Err c) }
    {
        match self {
            Value::Blank(_) => Ok(()),
            _ => Err(Cause::WrongBlank),
        }
    }

    // The number in a column that the operation uses, and nothing in one that it does not use.
    fn column(self, used: bool) -> Result<Option<i64>, Cause>
        ensures { result ≡ column_of used (says_of self.entry) }
    {
        if used {
            self.number().map(Some)
        } else {
            self.nothing().map(|()| None)
        }
    }

    // The register in a column: 0 to 15, and 0 where the operation uses none. The cast loses nothing.
    pub(crate) fn register(self, used: bool) -> Result<u8, Cause>
        ensures { result ≡ register_of used (says_of self.entry) }
    {
        match self.column(used)? {
            None => Ok(0),
            Some(n @ 0..=15) => Ok(n as u8),
            Some(_) => Err(Cause::BadNumber),
        }
    }

    // The number in the column n: any of 64 bits, and 0 where the operation uses none.
    pub(crate) fn offset(self, used: bool) -> Result<i64, Cause>
        ensures { result ≡ offset_of used (says_of self.entry) }
    {
        self.column(used).map(|n| n.unwrap_or(0))
    }

    // The operation that the op column names.
    pub(crate) fn operator(self) -> Result<Code, Cause>
        ensures { result ≡ operator_of (says_of self.entry) }
    {
        match self {
            Value::Word(word) => Code::try_from(word.bytes).map_err(|_| Cause::UnknownWord),
            _ => Err(Cause::UnknownWord),
        }
    }
}
