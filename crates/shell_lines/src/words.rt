// The words of a line, one after another.
ghost use Rattle.std.specs.Prelude.{◌≡◌, ◌<◌, ◌≤◌, ◌^◌, ◌∷◌, [], MatchOption, length, not, drop};
ghost use Rattle.std.specs.List.{prefix_len};
ghost use Rattle.shell_lines.specs.Words.{is_space, words_from};

use crate::line::LineStop;

/// A word, and the offset of its first byte.
#[derive(Clone, Copy)]
pub(crate) struct PlacedWord<'a> {
    pub(crate) at: u32,
    pub(crate) text: &'a [u8],
}

impl PlacedWord<'_> {
    /// This word can't stand where it stands.
    pub(crate) fn wrong(self) -> LineStop
        ensures { result ≡ LineStop.Bad self.entry.at }
    {
        LineStop::Bad { at: self.at }
    }
}

/// The words of a line from an offset on.
#[derive(Clone, Copy)]
pub(crate) struct Words<'a> {
    line: &'a [u8],
    at: usize,
    ghost within: { at ≤ length line.now },
    ghost short: { length line.now < 2 ^ 32 },
}

impl<'a> Words<'a> {
    ghost use Rattle.shell_lines.specs.Words.{words_of};
    ghost use Rattle.shell_lines.specs.Left.{words_left, end_of, placed};

    /// The words of a whole line.
    pub(crate) fn new(line: &'a [u8]) -> Self
        requires { length line.now < 2 ^ 32 }
        ensures words { words_left result ≡ words_of line.now }
        ensures end { end_of result ≡ length line.now }
    {
        Words { line, at: 0 }
    }

    /// The length of the line.
    pub(crate) fn end(&self) -> u32
        ensures { result ≡ end_of self.now }
    {
        self.line.len() as u32
    }

    /// A word is missing where the line ends.
    pub(crate) fn missing(&self) -> LineStop
        ensures { result ≡ LineStop.Bad (end_of self.now) }
    {
        LineStop::Bad { at: self.end() }
    }

    /// Takes the next word.
    pub(crate) fn next(&mut self) -> Option<PlacedWord<'a>>
        ensures next { MatchOption result (words_left self.old ≡ [])
            (λ word. words_left self.old ≡ placed word ∷ words_left self.new) }
        ensures end { end_of self.new ≡ end_of self.old }
    {
        let start = self.at + gap_len(&self.line[self.at..]);
        let end = start + word_len(&self.line[start..]);
        self.at = end;
        if start == end {
            return None;
        }
        Some(PlacedWord {
            at: start as u32,
            text: &self.line[start..end],
        })
    }
}

/// How many spaces stand in front.
fn gap_len(bytes: &[u8]) -> usize
    ensures length { result ≡ prefix_len is_space bytes.now }
    ensures within { result ≤ length bytes.now }
{
    bytes.iter().take_while(|byte| **byte == b' ').count()
}

/// How many bytes stand in front of the first space.
fn word_len(bytes: &[u8]) -> usize
    ensures length { result ≡ prefix_len (λ byte. not (is_space byte)) bytes.now }
    ensures within { result ≤ length bytes.now }
{
    bytes.iter().take_while(|byte| **byte != b' ').count()
}
