// What is left of the text, and the line that it begins with, cut into its values in one pass.
ghost use Rattle.std.specs.Prelude.{◌≡◌, ◌+◌, ◌-◌, ◌<◌, ◌≤◌, ◌⊎◌, length, drop, MatchOption, MatchResult, slice_index, ◌==◌};
ghost use Rattle.text.specs.Lines.{Ended, Endless, Run, Past, Astray, Five, Other, Misfit, Blamed};

use crate::line::Line;
use faults::cause::Cause;

// The text from a place on; not the bytes that are left alone, since values are handed on with their place in the text.
#[derive(Clone, Copy)]
pub struct Rest<'a> {
    pub text: &'a [u8],
    pub at: usize,
    ghost inside: { at ≤ length text.now },
}

// The most bytes before a line's end.
const LONGEST: usize = 80;

impl<'a> Rest<'a> {
    // The whole text.
    pub(crate) fn of(text: &'a [u8]) -> Rest<'a>
        ensures text { result.text.now ≡ text.now }
        ensures at { result.at ≡ 0 }
    {
        Rest { text, at: 0 }
    }

    pub(crate) fn is_empty(self) -> bool
        ensures { result ≡ (self.entry.at == length self.entry.text.now) }
    {
        self.at == self.text.len()
    }

    // The first comma or line end.
    #[inline]
    fn value_end(self) -> Option<usize>
        ensures { MatchOption result (Run self.entry.text.now self.entry.at (length self.entry.text.now)) (λ n. Run self.entry.text.now self.entry.at n × (n < length self.entry.text.now) × ((slice_index self.entry.text.now n ≡ 10) ⊎ (slice_index self.entry.text.now n ≡ 44))) }
    {
        (self.at..self.text.len()).find(|at| matches!(self.text[*at], b',' | b'\n'))
    }

    // What follows the value, where that ends before the byte `stop`.
    #[inline]
    fn past(self, stop: u8) -> Option<Rest<'a>>
        ensures { MatchOption result (Astray self.entry.text.now stop self.entry.at) (λ r. (r.text.now ≡ self.entry.text.now) × Past self.entry.text.now stop self.entry.at r.at) }
    {
        match self.value_end() {
            Some(end) if self.text[end] == stop => Some(Rest {
                text: self.text,
                at: end + 1,
            }),
            _ => None,
        }
    }

    // Where the five values of the line begin, and where the next line does, or nothing where it has no end, or fewer or more
    // values. A call of its own that hands back no text: inside the reader its loops would keep their places in memory.
    #[inline(never)]
    fn starts(self) -> Option<[usize; 6]>
        ensures { MatchOption result (Other self.entry.text.now self.entry.at) (λ s. Five self.entry.text.now s × (slice_index s 0 ≡ self.entry.at)) }
    {
        let second = self.past(b',')?;
        let third = second.past(b',')?;
        let fourth = third.past(b',')?;
        let fifth = fourth.past(b',')?;
        let next = fifth.past(b'\n')?;
        Some([self.at, second.at, third.at, fourth.at, fifth.at, next.at])
    }

    // The same as a line.
    #[inline]
    fn cut(self) -> Option<Line<'a>>
        ensures { MatchOption result (Other self.entry.text.now self.entry.at) (λ l. (l.text.now ≡ self.entry.text.now) × (slice_index l.starts 0 ≡ self.entry.at)) }
    {
        let starts = self.starts()?;
        Some(Line {
            text: self.text,
            starts,
        })
    }

    // The five values of a line of at most 80 bytes, or why it is refused: by `other` where it does not have five.
    #[inline]
    pub(crate) fn line(self, other: Cause) -> Result<Line<'a>, Cause>
        ensures { MatchResult result (λ l. (l.text.now ≡ self.entry.text.now) × (slice_index l.starts 0 ≡ self.entry.at) × (slice_index l.starts 5 - 1 - self.entry.at ≤ 80)) (λ c. Misfit self.entry.text.now self.entry.at × Blamed self.entry.text.now self.entry.at other c) }
    {
        match self.cut() {
            Some(line) if line.len() <= LONGEST => Ok(line),
            _ => Err(self.blame(other)),
        }
    }

    // Why a line is refused: for its end or its length, or else by `other`. Only a line that is refused is looked at twice.
    pub(crate) fn blame(self, other: Cause) -> Cause
        ensures { Blamed self.entry.text.now self.entry.at other result }
    {
        match self.line_length() {
            Some(length) if length <= LONGEST => other,
            _ => Cause::LineEnd,
        }
    }

    // How many bytes stand before the line's end, if it has one.
    fn line_length(self) -> Option<usize>
        ensures { MatchOption result (Endless self.entry.text.now self.entry.at) (λ n. Ended self.entry.text.now self.entry.at (self.entry.at + n)) }
    {
        self.bytes().iter().position(|b| *b == b'\n')
    }

    fn bytes(self) -> &'a [u8]
        ensures { result.now ≡ drop self.entry.at self.entry.text.now }
    {
        &self.text[self.at..]
    }
}
