// What a call on a heap or a rack answers, or why it is refused, as it is printed.
ghost use Rattle.std.specs.Prelude.{◌≡◌, Some};
ghost use Rattle.benches.specs.declared.reply.Refusal.TheVariants.{Fault};
ghost use Rattle.benches.specs.Replies.{shown_reply, shown_refusal};

use faults::fault::Fault;
use std::error::Error;
use std::fmt;

#[derive(Clone, Copy, Debug, PartialEq, Eq)]
pub enum Reply {
    Done,
    // A take's block.
    Granted { start: u64, held: u64 },
    // How many bytes the block at a start holds, if one starts there.
    Held(Option<u64>),
    // A draw's place.
    Drawn(u8),
}

#[derive(Clone, Copy, Debug, PartialEq, Eq)]
pub enum Refusal {
    // By the heap or the rack.
    Fault(Fault),
    // There is nothing to call.
    NoHeap,
    NoRack,
    Neither,
}

impl From<Fault> for Refusal {
    ghost from_gives = { λ fault r. r ≡ Fault fault };

    fn from(fault: Fault) -> Refusal {
        Refusal::Fault(fault)
    }
}

// By hand, like the refusal's below, for its `output`.
impl fmt::Display for Reply {
    ghost output = { λ r. Some (shown_reply r) };

    fn fmt<W: fmt::Write>(&self, f: &mut fmt::Formatter<W>) -> fmt::Result {
        match *self {
            Reply::Done => f.write_str("ok"),
            Reply::Granted { start, held } => write!(f, "start {start}, held {held}"),
            Reply::Held(Some(bytes)) => write!(f, "{bytes}"),
            Reply::Held(None) => f.write_str("nothing"),
            Reply::Drawn(place) => write!(f, "{place}"),
        }
    }
}

impl fmt::Display for Refusal {
    ghost output = { λ r. Some (shown_refusal r) };

    fn fmt<W: fmt::Write>(&self, f: &mut fmt::Formatter<W>) -> fmt::Result {
        match *self {
            Refusal::Fault(fault) => write!(f, "{fault}"),
            Refusal::NoHeap => f.write_str("no heap"),
            Refusal::NoRack => f.write_str("no rack"),
            Refusal::Neither => f.write_str("no heap and no rack"),
        }
    }
}

impl Error for Refusal {}
