// The lines of a source.
ghost use Rattle.std.specs.Prelude.{◌≡◌, ◌≢◌, ◌+◌, ◌<◌, ◌≤◌, ℕ, true, false, [], List, None, Some, ⊤, length, take, drop, IfNone, IfOk, IfSome, OnErr, OnOk, IsErrOf, Ok, All, vec_len, vec_capacity};
ghost use Rattle.std.specs.Option.{option_map};
ghost use Rattle.std.specs.Io.{StartsWith};
ghost use Rattle.std.specs.Io.KnownBytes.{IsAtEnd, Keeps};
ghost use Rattle.edge_io.specs.Faults.{HasCause, Rose};
ghost use Rattle.edge_io.specs.Lines.{first_line, is_prompt, line_feed, next_line, next_prompt, rest_of, rest_of_prompt};
ghost use Rattle.edge_io.specs.LineEnds.{HasNoFeed, IsFirstFeed, EndsAt, strip_return};
ghost use Rattle.edge_io.specs.Told.{StillTold, unread};

use crate::{Failed, LineError, NoMemory, Source};
use std::alloc::Global;
use std::marker::Model;

/// The most bytes of a line, without its end.
pub const MAX_LINE: usize = 65536;

// Bytes without a line feed that are too many for a line and a carriage return after it.
const TOO_LONG: usize = MAX_LINE + 2;

// How much is read at once.
const BLOCK: usize = 8192;

// The most bytes that a reader holds.
const CAPACITY: usize = TOO_LONG + BLOCK;

// Where the next line ends.
#[derive(Clone, Copy)]
enum LineEnd {
    // Before the line feed at this place of the bytes that are pending.
    Feed(usize),
    // With the input.
    Input,
    // Further on than a line may.
    TooFar,
}

/// Takes lines from a source, which it reads in blocks. Clauses see it as the bytes that it has
/// taken from the source and not yet given.
#[derive(Drop)]
pub struct LineReader {
    alloc: Global,
    held: Vec<u8>,
    start: usize,
    block: Vec<u8>,
}

impl Model for LineReader {
    ghost use Rattle.std.specs.Prelude.{◌≡◌, ◌≤◌, List, ℕ, drop, vec_len, vec_capacity};
    ghost use Rattle.edge_io.specs.declared.line_reader.TheConstants.{BLOCK, CAPACITY};

    ghost Value = { List ℕ };

    ghost view = { λ reader. drop reader.start reader.held.items };

    ghost invariant = { λ reader. (reader.start ≤ vec_len reader.held) × (CAPACITY ≤ vec_capacity reader.held)
        × (vec_len reader.block ≡ BLOCK) };
}

impl LineReader {
    /// A reader that has taken nothing.
    pub fn new(alloc: Global) -> Result<LineReader, NoMemory>
        ensures { IfOk result (λ reader. reader ≡ []) }
    {
        let held = Vec::with_capacity(alloc, CAPACITY)?;
        let block = vec![in alloc; 0; BLOCK]?;
        Ok(LineReader {
            alloc,
            held,
            start: 0,
            block,
        })
    }

    /// Takes the next line, without its line feed and a carriage return before that. The last line
    /// may lack the line feed, and then a carriage return belongs to it. `None` is the end.
    pub fn next<S: Source>(&mut self, src: &mut S) -> Result<Option<Vec<u8>>, LineError>
        // Where the source tells its bytes, it is the first line of those that are unread.
        ensures line { IfOk result (λ line. IfSome (unread self.old (S.left src.old))
            (λ bytes. option_map (λ line. line.items) line ≡ next_line bytes)) }
        ensures rest { OnOk result (IfSome (unread self.old (S.left src.old))
            (λ bytes. unread self.new (S.left src.new) ≡ Some (rest_of bytes))) }
        ensures long { IsErrOf result LineError.Long → IfSome (unread self.old (S.left src.old))
            (λ bytes. MAX_LINE < length (first_line bytes)) }

        // Of any source.
        ensures short { IfOk result (λ line. IfSome line (λ line. length line.items ≤ MAX_LINE)) }
        ensures one_line { IfOk result (λ line. IfSome line (λ line. All (λ byte. byte ≢ line_feed) line.items)) }
        ensures held_long { IsErrOf result LineError.Long → MAX_LINE < length (first_line self.new) }

        // No byte is lost at an error.
        ensures kept { OnErr result (StartsWith self.new self.old) }
        ensures told { OnErr result (StillTold (unread self.old (S.left src.old)) (unread self.new (S.left src.new))) }

        // The source's faults: they never fall, `Failed` comes only where they rose, and no fault is passed over.
        ensures later { S.faults src.old ≤ S.faults src.new }
        ensures failed { IsErrOf result LineError.Failed → Rose (S.faults src.old) (S.faults src.new) }
        ensures no_fault { (IsErrOf result LineError.Failed → ⊥) → S.faults src.new ≡ S.faults src.old }
    {
        match self.find_end(src)? {
            LineEnd::Feed(at) => {
                let len = without_return(&self.pending()[..at]).len();
                self.give(0, len, at + 1)
            }
            LineEnd::Input => {
                let len = self.pending().len();
                if len == 0 {
                    return Ok(None);
                }
                self.give(0, len, len)
            }
            LineEnd::TooFar => Err(LineError::Long),
        }
    }

    /// Takes the next line where it begins with `<`, and gives the bytes behind that byte. `None`
    /// where no such line is next: then nothing is taken.
    pub fn next_prompt<S: Source>(&mut self, src: &mut S) -> Result<Option<Vec<u8>>, LineError>
        // Where the source tells its bytes, they decide.
        ensures line { IfOk result (λ material. IfSome (unread self.old (S.left src.old))
            (λ bytes. option_map (λ material. material.items) material ≡ next_prompt bytes)) }
        ensures rest { OnOk result (IfSome (unread self.old (S.left src.old))
            (λ bytes. unread self.new (S.left src.new) ≡ Some (rest_of_prompt bytes))) }
        ensures long { IsErrOf result LineError.Long → IfSome (unread self.old (S.left src.old))
            (λ bytes. (is_prompt (first_line bytes) ≡ true)
            × (MAX_LINE < length (first_line bytes))) }

        // Of any source.
        ensures short { IfOk result (λ material. IfSome material
            (λ material. length material.items + 1 ≤ MAX_LINE)) }
        ensures one_line { IfOk result (λ material. IfSome material
            (λ material. All (λ byte. byte ≢ line_feed) material.items)) }
        ensures held_long { IsErrOf result LineError.Long →
            (is_prompt (first_line self.new) ≡ true) × (MAX_LINE < length (first_line self.new)) }
        ensures held_none { IfOk result (λ material. IfNone material (is_prompt self.new ≡ false)) }

        // Where no line is taken no byte is lost.
        ensures untaken { IfOk result (λ material. IfNone material (StartsWith self.new self.old)) }
        ensures kept { OnErr result (StartsWith self.new self.old) }
        ensures told { OnErr result
            (StillTold (unread self.old (S.left src.old)) (unread self.new (S.left src.new))) }

        // The source's faults, as for `next`.
        ensures later { S.faults src.old ≤ S.faults src.new }
        ensures failed { IsErrOf result LineError.Failed →
            Rose (S.faults src.old) (S.faults src.new) }
        ensures no_fault { (IsErrOf result LineError.Failed → ⊥) →
            S.faults src.new ≡ S.faults src.old }
    {
        self.hold_some(src)?;
        if !self.pending().starts_with(b"<") {
            return Ok(None);
        }
        match self.find_end(src)? {
            LineEnd::Feed(at) => {
                let len = without_return(&self.pending()[..at]).len();
                self.give(1, len, at + 1)
            }
            LineEnd::Input => {
                let len = self.pending().len();
                self.give(1, len, len)
            }
            LineEnd::TooFar => Err(LineError::Long),
        }
    }

    // The bytes that were taken and not yet given.
    fn pending(&self) -> &[u8]
        ensures { result.now ≡ self.now }
    {
        &self.held[self.start..]
    }

    // Reads a block where nothing is held.
    fn hold_some<S: Source>(&mut self, src: &mut S) -> Result<(), Failed>
        ensures end { OnOk result (length self.new ≡ 0 →
            IfSome (S.left src.old) (λ _. IsAtEnd (S.left src.new))) }
        ensures unread { OnOk result
            (Keeps (unread self.old (S.left src.old)) (unread self.new (S.left src.new))) }
        ensures told { OnErr result
            (StillTold (unread self.old (S.left src.old)) (unread self.new (S.left src.new))) }
        ensures kept { StartsWith self.new self.old }
        ensures cause { HasCause (S.faults src.old) (S.faults src.new) result }
    {
        if self.pending().is_empty() {
            self.fill(src)?;
        }
        Ok(())
    }

    // Reads until the end of the next line is held, or more bytes than a line has.
    fn find_end<S: Source>(&mut self, src: &mut S) -> Result<LineEnd, Failed>
        ensures end { IfOk result (EndsAt self.new) }
        ensures input { result ≡ Ok LineEnd.Input → IfSome (S.left src.old) (λ _. IsAtEnd (S.left src.new)) }
        ensures unread { OnOk result (Keeps (unread self.old (S.left src.old)) (unread self.new (S.left src.new))) }
        ensures told { OnErr result (StillTold (unread self.old (S.left src.old)) (unread self.new (S.left src.new))) }
        ensures kept { StartsWith self.new self.old }
        ensures cause { HasCause (S.faults src.old) (S.faults src.new) result }
    {
        let mut searched = 0;
        loop {
            if let Some(at) = position_of_feed(&self.pending()[searched..]) {
                return Ok(LineEnd::Feed(searched + at));
            }
            searched = self.pending().len();
            if searched >= TOO_LONG {
                return Ok(LineEnd::TooFar);
            }
            if self.fill(src)? == 0 {
                return Ok(LineEnd::Input);
            }
        }
    }

    // Reads one block more, and answers how many bytes came.
    fn fill<S: Source>(&mut self, src: &mut S) -> Result<usize, Failed>
        requires { length self.old < TOO_LONG }
        ensures more { IfOk result (λ count. length self.new ≡ length self.old + count) }
        ensures end { result ≡ Ok 0 → IfSome (S.left src.old) (λ _. IsAtEnd (S.left src.new)) }
        ensures unread { OnOk result (Keeps (unread self.old (S.left src.old)) (unread self.new (S.left src.new))) }
        ensures told { OnErr result (StillTold (unread self.old (S.left src.old)) (unread self.new (S.left src.new))) }
        ensures kept { StartsWith self.new self.old }
        ensures cause { HasCause (S.faults src.old) (S.faults src.new) result }
    {
        let count = src.read(&mut self.block)?;
        drop_front(&mut self.held, self.start);
        self.start = 0;
        self.held.extend_from_slice(&self.block[..count]).unwrap();
        Ok(count)
    }

    // Gives the first `len` bytes, a whole line, without the `skipped` ones in front, and lets go
    // of the first `taken`.
    fn give(
        &mut self,
        skipped: usize,
        len: usize,
        taken: usize,
    ) -> Result<Option<Vec<u8>>, LineError>
        requires in_len { skipped ≤ len }
        requires in_taken { len ≤ taken }
        requires in_pending { taken ≤ length self.old }
        ensures line { IfOk result (λ line. option_map (λ line. line.items) line
            ≡ Some (drop skipped (take len self.old))) }
        ensures rest { OnOk result (self.new ≡ drop taken self.old) }
        ensures short { IfOk result (λ line. IfSome line
            (λ line. length line.items + skipped ≤ MAX_LINE)) }
        ensures long { IsErrOf result LineError.Long → MAX_LINE < len }
        ensures not_failed { IsErrOf result LineError.Failed → ⊥ }
        ensures err { OnErr result (self.new ≡ self.old) }
    {
        if len > MAX_LINE {
            return Err(LineError::Long);
        }
        let line = self.pending()[..len][skipped..].to_vec(self.alloc)?;
        self.start += taken;
        Ok(Some(line))
    }
}

// Lets go of the first `count` bytes.
fn drop_front(bytes: &mut Vec<u8>, count: usize)
    requires { count ≤ vec_len bytes.old }
    ensures items { bytes.new.items ≡ drop count bytes.old.items }
    ensures capacity { vec_capacity bytes.new ≡ vec_capacity bytes.old }
{
    if count == 0 {
        return;
    }
    let rest = bytes.len() - count;
    bytes.copy_within(count.., 0);
    bytes.truncate(rest);
}

// The first line feed.
fn position_of_feed(bytes: &[u8]) -> Option<usize>
    ensures found { IfSome result (IsFirstFeed bytes.now) }
    ensures none { IfNone result (HasNoFeed bytes.now) }
{
    bytes.iter().position(|byte| *byte == b'\n')
}

// The bytes without a carriage return at their end.
fn without_return(bytes: &[u8]) -> &[u8]
    ensures { result.now ≡ strip_return bytes.now }
{
    match bytes.strip_suffix(b"\r") {
        Some(line) => line,
        None => bytes,
    }
}
