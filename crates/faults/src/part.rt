// The part of the product that refuses.
ghost use Rattle.std.specs.Prelude.{◌≡◌, Some};
ghost use Rattle.faults.specs.Parts.{name_of};

use std::fmt;

#[derive(Clone, Copy, Debug, PartialEq, Eq)]
pub enum Part {
    Text,
    Heap,
    Rack,
    Machine,
}

impl Part {
    // The part's name, as it is printed.
    pub fn name(self) -> &'static str
        ensures { result.now ≡ name_of self }
    {
        match self {
            Part::Text => "text",
            Part::Heap => "heap",
            Part::Rack => "rack",
            Part::Machine => "machine",
        }
    }
}

// By hand, for its `output`.
impl fmt::Display for Part {
    ghost output = { λ p. Some (name_of p) };

    fn fmt<W: fmt::Write>(&self, f: &mut fmt::Formatter<W>) -> fmt::Result {
        f.write_str(self.name())
    }
}
