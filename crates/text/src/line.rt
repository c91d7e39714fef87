// A line of five values.
ghost use Rattle.std.specs.Prelude.{◌≡◌, ◌-◌, ◌<◌, ◌≤◌, [], IfSome, length, slice_index, slice_index_or};
ghost use Rattle.std.proofs.Props.{props};
ghost use Rattle.form.specs.Columns.{stands_from};
ghost use Rattle.form.specs.Pieces.{pieces};
ghost use Rattle.form.specs.Values.{says};
ghost use Rattle.text.specs.Lines.{Five, line_of};
ghost use Rattle.text.specs.Values.{piece_of, says_of};

use crate::rest::Rest;
use crate::values::{Piece, Value};

// Where in the text the five values begin, and where the next line does; a value ends one byte before the next begins.
// Places and no slices, since values are handed on with their place; seen by its fields, since what a line of the text is taken
// for is said of places.
#[derive(Clone, Copy)]
pub struct Line<'a> {
    pub text: &'a [u8],
    pub starts: [usize; 6],
    ghost five: { Five text.now starts } by { Prim.hlevel props },
}

impl<'a> Line<'a> {
    // The value in a place of the line.
    #[inline(always)]
    pub(crate) fn value(&self, place: usize) -> Value<'a>
        requires { place < 5 }
        ensures at { (piece_of result).at ≡ slice_index self.now.starts place }
        ensures bytes { (piece_of result).bytes.now ≡ slice_index_or (pieces 44 (line_of self.now.text.now self.now.starts)) place [] }
        ensures meaning { says_of result ≡ says (slice_index_or (pieces 44 (line_of self.now.text.now self.now.starts)) place []) }
    {
        let at = self.starts[place];
        let end = self.starts[place + 1] - 1;
        Value::from(Piece {
            at,
            bytes: &self.text[at..end],
        })
    }

    // The first place of a name in the line.
    pub(crate) fn place_of(&self, name: &[u8]) -> Option<usize>
        ensures value { result ≡ stands_from 0 name.now (pieces 44 (line_of self.now.text.now self.now.starts)) }
        ensures bound { IfSome result (λ i. i < 5) }
    {
        (0..5).find(|place| self.value(*place).is(name))
    }

    // The bytes before the line's end.
    pub(crate) fn len(&self) -> usize
        ensures { result ≡ slice_index self.now.starts 5 - 1 - slice_index self.now.starts 0 }
    {
        self.starts[5] - 1 - self.starts[0]
    }

    // The text behind the line.
    pub(crate) fn after(&self) -> Rest<'a>
        ensures text { result.text.now ≡ self.now.text.now }
        ensures at { result.at ≡ slice_index self.now.starts 5 }
    {
        Rest {
            text: self.text,
            at: self.starts[5],
        }
    }
}
