// The lines that the shell prints of commands about files.
ghost use Rattle.std.specs.Prelude.{◌≡◌, ◌++◌, ◌∷◌, OnOk, decimal};
ghost use Rattle.std.specs.List.{flat_map};
ghost use Rattle.shell_run.specs.Reports.{bytes_text, file_line, file_output};
ghost use Rattle.shell_run.specs.Texts.{text_line};

use crate::reply::{push_error, push_number, push_ok, push_text};
use dataset_tree::{NoMemory, Tree};
use file_dataset::{FileReply, FileRow};

/// Adds the reply to a command about files.
pub(crate) fn push_file_reply(
    text: &mut Vec<u8>,
    line: u32,
    tree: &Tree,
    reply: &FileReply,
) -> Result<(), NoMemory>
    ensures { OnOk result (text.new.items ≡ text.old.items ++ file_output line tree.now.rows reply.now) }
{
    match reply {
        FileReply::Done => push_ok(text, line),
        FileReply::Wrote { blocks, number } => push_wrote(text, line, *blocks, *number),
        FileReply::Bytes { bytes } => push_read(text, line, bytes.as_bytes()),
        FileReply::Names { rows } => {
            push_files(text, line, rows.as_slice())?;
            push_ok(text, line)
        }
        FileReply::Blocks { count } => push_count(text, line, *count),
        FileReply::Refused { why } => push_error(text, line, tree, why),
    }
}

/// Adds how many blocks were sealed, and the number of the salt of the last of them.
fn push_wrote(text: &mut Vec<u8>, line: u32, blocks: u32, number: u64) -> Result<(), NoMemory>
    ensures { OnOk result (text.new.items ≡ text.old.items
        ++ text_line line (decimal blocks ++ 32 ∷ decimal number)) }
{
    push_number(text, line as u64)?;
    text.extend_from_slice(b" ok ")?;
    push_number(text, blocks as u64)?;
    text.extend_from_slice(b" ")?;
    push_number(text, number)?;
    text.extend_from_slice(b"\n")
}

/// Adds bytes that were read.
fn push_read(text: &mut Vec<u8>, line: u32, bytes: &[u8]) -> Result<(), NoMemory>
    ensures { OnOk result (text.new.items ≡ text.old.items ++ text_line line (bytes_text bytes.now)) }
{
    if bytes.is_empty() {
        return push_text(text, line, b"-");
    }
    let digits = hex::encode(*text.allocator(), bytes)?;
    push_text(text, line, digits.as_bytes())
}

/// Adds a row for each file.
fn push_files(text: &mut Vec<u8>, line: u32, rows: &[FileRow]) -> Result<(), NoMemory>
    ensures { OnOk result (text.new.items ≡ text.old.items ++ flat_map (file_line line) rows.now) }
{
    for row in rows {
        push_file(text, line, row)?;
    }
    Ok(())
}

fn push_file(text: &mut Vec<u8>, line: u32, row: &FileRow) -> Result<(), NoMemory>
    ensures { OnOk result (text.new.items ≡ text.old.items ++ file_line line row.now) }
{
    push_number(text, line as u64)?;
    text.extend_from_slice(b" file ")?;
    text.extend_from_slice(row.name.as_bytes())?;
    text.extend_from_slice(b" ")?;
    push_number(text, row.length)?;
    text.extend_from_slice(b"\n")
}

fn push_count(text: &mut Vec<u8>, line: u32, count: u64) -> Result<(), NoMemory>
    ensures { OnOk result (text.new.items ≡ text.old.items ++ text_line line (decimal count)) }
{
    push_number(text, line as u64)?;
    text.extend_from_slice(b" ok ")?;
    push_number(text, count)?;
    text.extend_from_slice(b"\n")
}
