// The order of the columns, which the first line names.
ghost use Rattle.std.specs.Prelude.{◌≡◌, MatchOption, None, Some};
ghost use Rattle.std.proofs.Props.{props};
ghost use Rattle.form.specs.Columns.{order as order_in, Placed};
ghost use Rattle.form.specs.Pieces.{pieces};
ghost use Rattle.form.specs.Reading.{operation};
ghost use Rattle.text.specs.Lines.{line_of};

use crate::line::Line;
use faults::cause::Cause;
use form::order::Order;
use operations::operation::Operation;

// An order in which each column stands among five values.
#[derive(Clone, Copy)]
pub struct Columns {
    pub order: Order,
    ghost placed: { Placed order } by { Prim.hlevel props },
}

impl Columns {
    // The order of the columns, where the line names each of them.
    pub(crate) fn named_in(line: &Line<'_>) -> Option<Columns>
        ensures { MatchOption result (order_in (pieces 44 (line_of line.now.text.now line.now.starts)) ≡ None) (λ c. order_in (pieces 44 (line_of line.now.text.now line.now.starts)) ≡ Some c.order) }
    {
        let op = line.place_of(b"op")?;
        let d = line.place_of(b"d")?;
        let a = line.place_of(b"a")?;
        let b = line.place_of(b"b")?;
        let n = line.place_of(b"n")?;
        Some(Columns {
            order: Order { op, d, a, b, n },
        })
    }

    // The operation that the five values of a line say.
    pub(crate) fn operation(self, line: &Line<'_>, number: u32) -> Result<Operation, Cause>
        ensures { result ≡ operation self.order number (pieces 44 (line_of line.now.text.now line.now.starts)) }
    {
        let order = self.order;
        let code = line.value(order.op).operator()?;
        let uses = code.row().uses;
        let d = line.value(order.d).register(uses.d)?;
        let a = line.value(order.a).register(uses.a)?;
        let b = line.value(order.b).register(uses.b)?;
        let n = line.value(order.n).offset(uses.n)?;
        Ok(Operation {
            code: u8::from(code),
            d,
            a,
            b,
            n,
            line: number,
        })
    }
}
