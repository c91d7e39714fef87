// A stretch of the heap's bytes: a living block, or a gap; as a row of the placement sheet.
ghost use Rattle.std.specs.Prelude.{◌≡◌, Some};

use std::fmt;

#[derive(Clone, Copy, Debug, PartialEq, Eq)]
pub enum Kind {
    Block,
    Gap,
}

#[derive(Clone, Copy, Debug, PartialEq, Eq)]
pub struct Stretch {
    pub start: u16,
    pub size: u16,
    pub kind: Kind,
}

// A mark of the bar stands for so many bytes.
pub(crate) const MARK_BYTES: u16 = 64;

impl Stretch {
    ghost use Rattle.sheets.specs.Drawing.{touches};

    // Whether it is of the kind, and has a byte among those of the mark that begins there.
    pub(crate) fn touches(&self, kind: Kind, mark: u16) -> bool
        ensures { result ≡ touches kind mark self.now }
    {
        let start = u32::from(self.start);
        let end = start + u32::from(self.size);
        let mark = u32::from(mark);
        self.kind == kind && start < mark + u32::from(MARK_BYTES) && mark < end
    }
}

// The words have one width: clauses know no width, as in `{kind:<5}`, at a type of one's own.
impl fmt::Display for Kind {
    ghost use Rattle.sheets.specs.Rows.{shown_kind};

    ghost output = { λ k. Some (shown_kind k) };

    fn fmt<W: fmt::Write>(&self, f: &mut fmt::Formatter<W>) -> fmt::Result {
        f.write_str(match self {
            Kind::Block => "block",
            Kind::Gap => "gap  ",
        })
    }
}

impl fmt::Display for Stretch {
    ghost use Rattle.sheets.specs.Rows.{shown_stretch};

    ghost output = { λ s. Some (shown_stretch s) };

    fn fmt<W: fmt::Write>(&self, f: &mut fmt::Formatter<W>) -> fmt::Result {
        let Stretch { start, size, kind } = *self;
        write!(f, "  | {start:>5} | {size:>5} | {kind} |")
    }
}
