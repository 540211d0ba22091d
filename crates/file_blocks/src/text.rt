// The new texts of the blocks that a write touches.
ghost use Rattle.std.specs.Prelude.{◌≡◌, ◌+◌, ◌≤◌, ◌++◌, [], length, drop, IfErr, IfOk};
ghost use Rattle.file_blocks.specs.Objects.{filled, spliced};
ghost use Rattle.file_blocks.specs.WriteFields.{write_of};
ghost use Rattle.file_blocks.specs.Writes.{first_of, last_of, taken_in, text_over};

use crate::pieces::{first_of, last_of, piece_in, start_in};
use crate::taken::Taken;
use crate::write::Write;
use indirect_macs::MacError;

/// Adds bytes. `NoMemory` is its only error.
pub(crate) fn append(list: &mut Vec<u8>, more: &[u8]) -> Result<(), MacError>
    ensures all { IfOk result (λ _. list.new.items ≡ list.old.items ++ more.now) }
    ensures stop { IfErr result (λ stop. stop ≡ MacError.NoMemory) }
{
    match list.extend_from_slice(more) {
        Ok(()) => Ok(()),
        Err(_) => Err(MacError::NoMemory),
    }
}

// Cuts bytes, or fills them up with zeros, to so many.
fn fill_to(list: &mut Vec<u8>, size: usize) -> Result<(), MacError>
    ensures all { IfOk result (λ _. list.new.items ≡ filled size list.old.items) }
    ensures stop { IfErr result (λ stop. stop ≡ MacError.NoMemory) }
{
    match list.resize(size, 0) {
        Ok(()) => Ok(()),
        Err(_) => Err(MacError::NoMemory),
    }
}

fn tail(bytes: &[u8], from: usize) -> &[u8]
    ensures { result.now ≡ drop from bytes.now }
{
    &bytes[from.min(bytes.len())..]
}

// Puts a piece over old bytes from a start on, into an empty list.
fn splice(old: &[u8], start: usize, piece: &[u8], out: &mut Vec<u8>) -> Result<(), MacError>
    requires empty { out.old.items ≡ [] }
    requires fits { start + length piece.now ≤ 8589934592 }
    ensures all { IfOk result (λ _. out.new.items ≡ spliced old.now start piece.now) }
    ensures stop { IfErr result (λ stop. stop ≡ MacError.NoMemory) }
{
    append(out, old)?;
    fill_to(out, start)?;
    append(out, piece)?;
    append(out, tail(old, start + piece.len()))
}

// What of the old text a touched block takes over.
fn taken_in<'a>(w: &Write, taken: &'a Taken, index: u32) -> &'a [u8]
    ensures { result.now ≡ taken_in (write_of w.now) taken.now.front.items taken.now.back.items index }
{
    if index == first_of(w) {
        taken.front.as_slice()
    } else if index == last_of(w) {
        taken.back.as_slice()
    } else {
        &[]
    }
}

/// The new text of a touched block: what is taken over, and the write's bytes over it. It takes the
/// place of what `out` has, and needs no memory where that has room for the record size.
///
/// # Errors
///
/// `NoMemory`, and never another.
pub fn text_into(w: &Write, taken: &Taken, index: u32, out: &mut Vec<u8>) -> Result<(), MacError>
    requires low { first_of (write_of w.now) ≤ index }
    requires high { index ≤ last_of (write_of w.now) }
    requires front { length taken.now.front.items ≤ w.now.block }
    requires back { length taken.now.back.items ≤ w.now.block }
    ensures size { IfOk result (λ _. (1 ≤ length out.new.items) × (length out.new.items ≤ w.now.block)) }
    ensures text { IfOk result (λ _. out.new.items ≡ text_over (write_of w.now) index
        (taken_in (write_of w.now) taken.now.front.items taken.now.back.items index)) }
    ensures stop { IfErr result (λ stop. stop ≡ MacError.NoMemory) }
{
    out.clear();
    let old = taken_in(w, taken, index);
    splice(old, start_in(w, index), piece_in(w, index), out)
}
