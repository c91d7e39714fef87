// A step as it is listed: its word, and the fields that it uses.
ghost use Rattle.std.specs.Prelude.{Some};
ghost use Rattle.operations.specs.Listing.{listed, field_shown};

use crate::code::Row;
use crate::step::Step;
use std::fmt;

// A field by its column, shown only where it is used.
#[derive(Clone, Copy)]
struct Field {
    column: char,
    value: Option<i64>,
}

impl fmt::Display for Field {
    ghost output = { λ x. Some (field_shown x.column x.value) };

    fn fmt<W: fmt::Write>(&self, f: &mut fmt::Formatter<W>) -> fmt::Result {
        let column = self.column;
        match self.value {
            Some(value) => write!(f, " {column}={value}"),
            None => Ok(()),
        }
    }
}

impl fmt::Display for Step {
    ghost output = { λ s. Some (listed s) };

    fn fmt<W: fmt::Write>(&self, f: &mut fmt::Formatter<W>) -> fmt::Result {
        let Row { word, uses, .. } = self.code.row();
        let d = Field {
            column: 'd',
            value: uses.d.then_some(i64::from(self.d)),
        };
        let a = Field {
            column: 'a',
            value: uses.a.then_some(i64::from(self.a)),
        };
        let b = Field {
            column: 'b',
            value: uses.b.then_some(i64::from(self.b)),
        };
        let n = Field {
            column: 'n',
            value: uses.n.then_some(self.n),
        };
        write!(f, "{word}{d}{a}{b}{n}")
    }
}
