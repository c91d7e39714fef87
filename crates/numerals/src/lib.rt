// Plain numbers: no leading zero, no plus, no -0; and the noun after a count.
#![tactic(auto)]

ghost use Rattle.std.specs.Prelude.{◌≡◌, ◌-◌, ◌^◌};
ghost use Rattle.numerals.specs.Numerals.{bounded, natural, above, below, number_in, Writes, natural_in, WritesNatural, noun};

// The largest signed number, and the largest after a minus.
const ABOVE: u64 = (1 << 63) - 1;

const BELOW: u64 = 1 << 63;

// The largest number of 64 bits without a sign.
const LARGEST: u64 = u64::MAX;

// The number that the digits write, where it is at most `most`: no limit of the type, so no `checked_mul` tells it.
fn bounded_of(digits: &[u8], most: u64) -> Option<u64>
    ensures { result ≡ bounded most 0 digits.now }
{
    let mut v: u64 = 0;
    for &d in digits {
        if !d.is_ascii_digit() {
            return None;
        }
        let digit = u64::from(d - b'0');
        if v > most / 10 || digit > most - v * 10 {
            return None;
        }
        v = v * 10 + digit;
    }
    Some(v)
}

// The same of a plain numeral: at least one digit, and no zero in front of others. A lone digit, as most numerals are, has an
// arm of its own, which compiles to no loop.
fn natural_of(digits: &[u8], most: u64) -> Option<u64>
    ensures { result ≡ natural most digits.now }
{
    match digits {
        [] => None,
        [_] => bounded_of(digits, most),
        [b'0', ..] => None,
        _ => bounded_of(digits, most),
    }
}

// A numeral with no sign. The limit makes the cast fit.
fn positive_of(digits: &[u8]) -> Option<i64>
    ensures { result ≡ above (natural (2 ^ 63 - 1) digits.now) }
{
    natural_of(digits, ABOVE).map(|v| v as i64)
}

// A numeral after a minus. It has another limit and sign, and no 0, so this is not the function above with a parameter.
// The limit makes the cast fit.
fn negative_of(digits: &[u8]) -> Option<i64>
    ensures { result ≡ below (natural (2 ^ 63) digits.now) }
{
    match natural_of(digits, BELOW)? {
        0 => None,
        v => Some(-1 - (v - 1) as i64),
    }
}

// The 64-bit number that the bytes write.
pub fn number_in(bytes: &[u8]) -> Option<i64>
    ensures value { result ≡ number_in bytes.now }
    ensures law { Writes bytes.now result }
{
    match bytes {
        [b'-', digits @ ..] => negative_of(digits),
        _ => positive_of(bytes),
    }
}

// The 64-bit number without a sign that the bytes write.
pub fn natural_in(bytes: &[u8]) -> Option<u64>
    ensures value { result ≡ natural_in bytes.now }
    ensures law { WritesNatural bytes.now result }
{
    natural_of(bytes, LARGEST)
}

// The noun that stands after a count.
pub fn noun<'a>(count: u64, one: &'a str, more: &'a str) -> &'a str
    ensures { result.now ≡ noun count one.now more.now }
{
    if count == 1 { one } else { more }
}
