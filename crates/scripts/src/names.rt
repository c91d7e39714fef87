// The heaps and racks that a script can name.
ghost use Rattle.std.specs.Prelude.{◌≡◌, Some, codes};
ghost use Rattle.scripts.specs.Names.{direct_written, heap_written, rack_written, direct_of, heap_of, rack_of, read_as};

use crate::words::after;
use std::error::Error;
use std::fmt;

const QUARANTINE: &[u8] = b"quarantine ";

// A heap that stands on no other. Two words here and two for the racks: a table for both would be longer than the matches.
#[derive(Clone, Copy, Debug, PartialEq, Eq)]
pub enum DirectName {
    BestFit,
    Slots,
}

// A direct heap, alone or below one or two quarantines.
#[derive(Clone, Copy, Debug, PartialEq, Eq)]
pub enum HeapName {
    Alone(DirectName),
    Quarantined(DirectName),
    TwiceQuarantined(DirectName),
}

#[derive(Clone, Copy, Debug, PartialEq, Eq)]
pub enum RackName {
    Stack,
    Ring,
}

// Words that name no heap, or no rack.
#[derive(Clone, Copy, Debug, PartialEq, Eq)]
pub struct UnknownName;

impl TryFrom<&[u8]> for DirectName {
    type Error = UnknownName;

    ghost try_from_gives = { λ words r. r ≡ read_as (direct_of words.now) };

    fn try_from(words: &[u8]) -> Result<DirectName, UnknownName> {
        match words {
            b"best-fit" => Ok(DirectName::BestFit),
            b"slots" => Ok(DirectName::Slots),
            _ => Err(UnknownName),
        }
    }
}

impl TryFrom<&[u8]> for HeapName {
    type Error = UnknownName;

    ghost try_from_gives = { λ words r. r ≡ read_as (heap_of words.now) };

    fn try_from(words: &[u8]) -> Result<HeapName, UnknownName> {
        let Some(below) = after(words, QUARANTINE) else {
            return DirectName::try_from(words).map(HeapName::Alone);
        };
        match after(below, QUARANTINE) {
            Some(direct) => DirectName::try_from(direct).map(HeapName::TwiceQuarantined),
            None => DirectName::try_from(below).map(HeapName::Quarantined),
        }
    }
}

impl TryFrom<&[u8]> for RackName {
    type Error = UnknownName;

    ghost try_from_gives = { λ words r. r ≡ read_as (rack_of words.now) };

    fn try_from(words: &[u8]) -> Result<RackName, UnknownName> {
        match words {
            b"stack" => Ok(RackName::Stack),
            b"ring" => Ok(RackName::Ring),
            _ => Err(UnknownName),
        }
    }
}

// The names as scripts write them; by hand, for their `output`.
impl fmt::Display for DirectName {
    ghost output = { λ n. Some (direct_written n) };

    fn fmt<W: fmt::Write>(&self, f: &mut fmt::Formatter<W>) -> fmt::Result {
        f.write_str(match *self {
            DirectName::BestFit => "best-fit",
            DirectName::Slots => "slots",
        })
    }
}

impl fmt::Display for HeapName {
    ghost output = { λ n. Some (heap_written n) };

    fn fmt<W: fmt::Write>(&self, f: &mut fmt::Formatter<W>) -> fmt::Result {
        match *self {
            HeapName::Alone(name) => write!(f, "{name}"),
            HeapName::Quarantined(name) => write!(f, "quarantine {name}"),
            HeapName::TwiceQuarantined(name) => write!(f, "quarantine quarantine {name}"),
        }
    }
}

impl fmt::Display for RackName {
    ghost output = { λ n. Some (rack_written n) };

    fn fmt<W: fmt::Write>(&self, f: &mut fmt::Formatter<W>) -> fmt::Result {
        f.write_str(match *self {
            RackName::Stack => "stack",
            RackName::Ring => "ring",
        })
    }
}

impl fmt::Display for UnknownName {
    ghost output = { λ _. Some (codes "unknown name") };

    fn fmt<W: fmt::Write>(&self, f: &mut fmt::Formatter<W>) -> fmt::Result {
        f.write_str("unknown name")
    }
}

impl Error for UnknownName {}
