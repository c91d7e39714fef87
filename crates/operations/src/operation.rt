// A record of an operation.
ghost use Rattle.std.specs.Prelude.{◌≡◌};
ghost use Rattle.operations.specs.Records.{field_fits, record_fits};

use crate::uses::Uses;

// Plain numbers from anywhere, not looked at yet: a code, three register numbers, a signed number, and the line of the text.
#[derive(Clone, Copy, Debug, Default, PartialEq, Eq)]
pub struct Operation {
    pub code: u8,
    pub d: u8,
    pub a: u8,
    pub b: u8,
    pub n: i64,
    pub line: u32,
}

const REGISTERS: u8 = 16;

impl Operation {
    // Whether a register in use is below 16, and a field not in use is 0.
    pub(crate) fn fits(&self, uses: Uses) -> bool
        ensures { result ≡ record_fits uses self.now.d self.now.a self.now.b self.now.n }
    {
        register_fits(uses.d, self.d)
            && register_fits(uses.a, self.a)
            && register_fits(uses.b, self.b)
            && (uses.n || self.n == 0)
    }
}

fn register_fits(used: bool, register: u8) -> bool
    ensures { result ≡ field_fits used register }
{
    if used {
        register < REGISTERS
    } else {
        register == 0
    }
}
