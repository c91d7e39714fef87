// A script's text by lines, and what each line says.
ghost use Rattle.std.specs.Prelude.{◌≡◌, ◌≤◌, ◌==◌, length};
ghost use Rattle.std.specs.List.{position, before_first, after_first};
ghost use Rattle.scripts.specs.Entries.{entry_of};

use crate::command::{Command, NotUnderstood};

const LINE_END: u8 = b'\n';

// The command that a line says; a blank line and a comment say none.
pub fn command_in(line: &[u8]) -> Result<Option<Command>, NotUnderstood>
    ensures { result ≡ entry_of line.now }
{
    match line {
        [] | [b'#', ..] => Ok(None),
        _ => Command::try_from(line).map(Some),
    }
}

// The lines of a text, without their ends. What follows the last line end is a line if a byte is there.
#[derive(Drop)]
pub struct Lines<'a> {
    rest: &'a [u8],
}

impl<'a> Lines<'a> {
    ghost use Rattle.scripts.specs.Lines.{lines_left, lines_of};

    #[tactic(auto, using(crate::proofs::Lining::lines_few))]
    pub fn of(text: &'a [u8]) -> Lines<'a>
        ensures lines { lines_left result ≡ lines_of text.now }
        ensures few { length (lines_left result) ≤ length text.now }
    {
        Lines { rest: text }
    }
}

impl<'a> Iterator for Lines<'a> {
    ghost use Rattle.std.specs.Iterator.{YieldsFirstRef, item_count};
    ghost use Rattle.scripts.specs.Lines.{lines_left};

    type Item = &'a [u8];

    ghost next_gives = { YieldsFirstRef lines_left };

    ghost remaining = { item_count lines_left };

    fn next(&mut self) -> Option<&'a [u8]> {
        if self.rest.is_empty() {
            return None;
        }
        let (line, rest) = cut(self.rest);
        self.rest = rest;
        Some(line)
    }
}

// The first line, and what comes behind its end.
fn cut(text: &[u8]) -> (&[u8], &[u8])
    ensures line { result.0.now ≡ before_first (λ b. b == 10) text.now }
    ensures rest { result.1.now ≡ after_first (λ b. b == 10) text.now }
{
    match line_end(text) {
        Some(end) => (&text[..end], &text[end + 1..]),
        None => (text, &[]),
    }
}

fn line_end(text: &[u8]) -> Option<usize>
    ensures { result ≡ position (λ b. b == 10) text.now }
{
    text.iter().position(|b| *b == LINE_END)
}
