// What a line of a script says.
ghost use Rattle.std.specs.Prelude.{◌≡◌, Some, codes};
ghost use Rattle.scripts.specs.Commands.{written, number_after, named_of, counted_of, plain_of, command_of, Reads};

use crate::names::{HeapName, RackName};
use crate::words::after;
use numerals::natural_in;
use std::error::Error;
use std::fmt;

#[derive(Clone, Copy, Debug, PartialEq, Eq)]
pub enum Command {
    // A new heap, or rack.
    Heap(HeapName),
    Rack(RackName),
    // Calls of the heap: a size, and starts of blocks.
    Take(u64),
    Give(u64),
    Holds(u64),
    // Calls of the rack: put has a place.
    Draw,
    Put(u64),
    // Both.
    Clear,
    // The placement sheet of the heap.
    Sheet,
}

// A line that is the writing of no command.
#[derive(Clone, Copy, Debug, PartialEq, Eq)]
pub struct NotUnderstood;

impl TryFrom<&[u8]> for Command {
    type Error = NotUnderstood;

    ghost try_from_gives = { λ line r. Reads line.now r };

    fn try_from(line: &[u8]) -> Result<Command, NotUnderstood> {
        read(line).ok_or(NotUnderstood)
    }
}

fn read(line: &[u8]) -> Option<Command>
    ensures { result ≡ command_of line.now }
{
    named(line)
        .or_else(|| counted(line))
        .or_else(|| plain(line))
}

// Words with the name of a heap or a rack.
fn named(line: &[u8]) -> Option<Command>
    ensures { result ≡ named_of line.now }
{
    if let Some(name) = after(line, b"heap ") {
        return HeapName::try_from(name).ok().map(Command::Heap);
    }
    let name = after(line, b"rack ")?;
    RackName::try_from(name).ok().map(Command::Rack)
}

// The number behind the words, where the line begins with them.
fn number_after(line: &[u8], words: &[u8]) -> Option<u64>
    ensures { result ≡ number_after words.now line.now }
{
    natural_in(after(line, words)?)
}

// Words with a number.
fn counted(line: &[u8]) -> Option<Command>
    ensures { result ≡ counted_of line.now }
{
    number_after(line, b"take ")
        .map(Command::Take)
        .or_else(|| number_after(line, b"give ").map(Command::Give))
        .or_else(|| number_after(line, b"holds ").map(Command::Holds))
        .or_else(|| number_after(line, b"put ").map(Command::Put))
}

// Words alone.
fn plain(line: &[u8]) -> Option<Command>
    ensures { result ≡ plain_of line.now }
{
    match line {
        b"draw" => Some(Command::Draw),
        b"clear" => Some(Command::Clear),
        b"sheet" => Some(Command::Sheet),
        _ => None,
    }
}

// By hand, for its `output`: clauses know by it what is printed.
impl fmt::Display for Command {
    ghost output = { λ c. Some (written c) };

    fn fmt<W: fmt::Write>(&self, f: &mut fmt::Formatter<W>) -> fmt::Result {
        match *self {
            Command::Heap(name) => write!(f, "heap {name}"),
            Command::Rack(name) => write!(f, "rack {name}"),
            Command::Take(n) => write!(f, "take {n}"),
            Command::Give(start) => write!(f, "give {start}"),
            Command::Holds(start) => write!(f, "holds {start}"),
            Command::Draw => f.write_str("draw"),
            Command::Put(place) => write!(f, "put {place}"),
            Command::Clear => f.write_str("clear"),
            Command::Sheet => f.write_str("sheet"),
        }
    }
}

impl fmt::Display for NotUnderstood {
    ghost output = { λ _. Some (codes "not understood") };

    fn fmt<W: fmt::Write>(&self, f: &mut fmt::Formatter<W>) -> fmt::Result {
        f.write_str("not understood")
    }
}

impl Error for NotUnderstood {}
