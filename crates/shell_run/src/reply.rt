// The lines that the shell prints.
ghost use Rattle.std.specs.Prelude.{◌≡◌, ◌++◌, ◌∷◌, [], OnOk, decimal};
ghost use Rattle.std.specs.List.{flat_map};
ghost use Rattle.hex.specs.Hex.{encode_lower};
ghost use Rattle.key_machine.specs.Get.{status_text};
ghost use Rattle.shell_run.specs.Answers.{shown_root};
ghost use Rattle.shell_run.specs.Texts.{count_line, counted_lines, map_line, ok_line, text_line, error_line, error_text, key_line, total_line, heir_text, kind_text, set_line, bad_line, dataset_text, material_text, fields_of, spaced};

use crate::command::Shown;
use dataset_tree::{Kind, MaterialFault, NoMemory, Refusal, Row, SetName, Tree};
use encryption_roots::Prop;
use itoa::Buffer;
use key_store::{Counts, KeyState};

/// Adds a number in decimal digits.
pub(crate) fn push_number(text: &mut Vec<u8>, number: u64) -> Result<(), NoMemory>
    ensures { OnOk result (text.new.items ≡ text.old.items ++ decimal number) }
{
    let mut buffer = Buffer::new();
    text.extend_from_slice(buffer.format(number).as_bytes())
}

/// Adds the reply to a line that was carried out.
pub(crate) fn push_ok(text: &mut Vec<u8>, line: u32) -> Result<(), NoMemory>
    ensures { OnOk result (text.new.items ≡ text.old.items ++ ok_line line) }
{
    push_number(text, line as u64)?;
    text.extend_from_slice(b" ok\n")
}

/// Adds the reply to a line that is no line of the language.
pub(crate) fn push_bad(text: &mut Vec<u8>, line: u32, at: u32) -> Result<(), NoMemory>
    ensures { OnOk result (text.new.items ≡ text.old.items ++ bad_line line at) }
{
    push_number(text, line as u64)?;
    text.extend_from_slice(b" bad ")?;
    push_number(text, at as u64)?;
    text.extend_from_slice(b"\n")
}

/// Adds the reply to a line that shows a text.
pub(crate) fn push_text(text: &mut Vec<u8>, line: u32, shown: &[u8]) -> Result<(), NoMemory>
    ensures { OnOk result (text.new.items ≡ text.old.items ++ text_line line shown.now) }
{
    push_number(text, line as u64)?;
    text.extend_from_slice(b" ok ")?;
    text.extend_from_slice(shown)?;
    text.extend_from_slice(b"\n")
}

/// Adds the row of a dataset.
pub(crate) fn push_set(
    text: &mut Vec<u8>,
    line: u32,
    keys: &KeyState,
    row: &Row,
) -> Result<(), NoMemory>
    ensures { OnOk result (text.new.items ≡ text.old.items ++ set_line line keys.now row.now) }
{
    push_number(text, line as u64)?;
    text.extend_from_slice(b" set ")?;
    text.extend_from_slice(row.name.as_bytes())?;
    push_kind(text, keys, row.id, row.kind)?;
    text.extend_from_slice(b"\n")
}

/// Adds what stands behind the name of a dataset.
fn push_kind(text: &mut Vec<u8>, keys: &KeyState, id: u32, kind: Kind) -> Result<(), NoMemory>
    ensures { OnOk result (text.new.items ≡ text.old.items ++ kind_text keys.now id kind) }
{
    match kind {
        Kind::Plain => text.extend_from_slice(b" plain"),
        Kind::Crypt => {
            let suite = keys.get_prop(id, Prop::Encryption)?;
            text.extend_from_slice(b" ")?;
            text.extend_from_slice(suite.as_bytes())?;
            text.extend_from_slice(b" ")?;
            text.extend_from_slice(heir_text(keys.roots().contains(id)))?;
            text.extend_from_slice(b" ")?;
            text.extend_from_slice(status_text(keys.status(id)))
        }
    }
}

fn heir_text(is_own: bool) -> &'static [u8]
    ensures { result.now ≡ heir_text is_own }
{
    if is_own { b"root" } else { b"inherit" }
}

fn status_text(is_available: bool) -> &'static [u8]
    ensures { result.now ≡ status_text is_available }
{
    if is_available {
        b"available"
    } else {
        b"unavailable"
    }
}

/// Adds how many use each loaded wrapping key, each opened master key, and each mapping.
pub(crate) fn push_counts(
    text: &mut Vec<u8>,
    line: u32,
    tree: &Tree,
    counts: &Counts,
) -> Result<(), NoMemory>
    ensures { OnOk result (text.new.items ≡ text.old.items ++ counted_lines line tree.now.rows counts.now) }
{
    push_keys(text, line, b"wkey", tree, counts.wkeys.as_slice())?;
    push_keys(text, line, b"mkey", tree, counts.mkeys.as_slice())?;
    push_maps(text, line, tree, counts.maps.as_slice())
}

fn push_keys(
    text: &mut Vec<u8>,
    line: u32,
    kind: &[u8],
    tree: &Tree,
    keys: &[(u32, u32)],
) -> Result<(), NoMemory>
    ensures { OnOk result (text.new.items ≡ text.old.items
        ++ flat_map (count_line line kind.now tree.now.rows) keys.now) }
{
    for entry in keys {
        push_key_count(text, line, kind, tree, *entry)?;
    }
    Ok(())
}

fn push_key_count(
    text: &mut Vec<u8>,
    line: u32,
    kind: &[u8],
    tree: &Tree,
    entry: (u32, u32),
) -> Result<(), NoMemory>
    ensures { OnOk result (text.new.items ≡ text.old.items ++ count_line line kind.now tree.now.rows entry) }
{
    push_number(text, line as u64)?;
    text.extend_from_slice(b" ")?;
    text.extend_from_slice(kind)?;
    push_dataset(text, tree, entry.0)?;
    text.extend_from_slice(b" ")?;
    push_number(text, entry.1 as u64)?;
    text.extend_from_slice(b"\n")
}

fn push_maps(
    text: &mut Vec<u8>,
    line: u32,
    tree: &Tree,
    maps: &[(u32, u32, u32)],
) -> Result<(), NoMemory>
    ensures { OnOk result (text.new.items ≡ text.old.items ++ flat_map (map_line line tree.now.rows) maps.now) }
{
    for entry in maps {
        push_map(text, line, tree, *entry)?;
    }
    Ok(())
}

fn push_map(
    text: &mut Vec<u8>,
    line: u32,
    tree: &Tree,
    entry: (u32, u32, u32),
) -> Result<(), NoMemory>
    ensures { OnOk result (text.new.items ≡ text.old.items ++ map_line line tree.now.rows entry) }
{
    push_number(text, line as u64)?;
    text.extend_from_slice(b" map")?;
    push_dataset(text, tree, entry.0)?;
    text.extend_from_slice(b" ")?;
    push_number(text, entry.1 as u64)?;
    text.extend_from_slice(b" ")?;
    push_number(text, entry.2 as u64)?;
    text.extend_from_slice(b"\n")
}

/// Adds the reply to a line that is refused. Datasets are named by the tree.
pub(crate) fn push_error(
    text: &mut Vec<u8>,
    line: u32,
    tree: &Tree,
    why: &Refusal,
) -> Result<(), NoMemory>
    ensures { OnOk result (text.new.items ≡ text.old.items ++ error_line line tree.now.rows why.now) }
{
    push_number(text, line as u64)?;
    text.extend_from_slice(b" ")?;
    push_error_text(text, tree, why)?;
    text.extend_from_slice(b"\n")
}

fn push_error_text(text: &mut Vec<u8>, tree: &Tree, why: &Refusal) -> Result<(), NoMemory>
    ensures { OnOk result (text.new.items ≡ text.old.items ++ error_text tree.now.rows why.now) }
{
    text.extend_from_slice(b"error ")?;
    push_number(text, why.number() as u64)?;
    text.extend_from_slice(b" ")?;
    text.extend_from_slice(why.name().as_bytes())?;
    push_fields(text, tree, why)
}

/// Adds what came of a root that a line tries among several.
pub(crate) fn push_key(
    text: &mut Vec<u8>,
    line: u32,
    tree: &Tree,
    name: &SetName,
    shown: &Result<Shown, Refusal>,
) -> Result<(), NoMemory>
    ensures { OnOk result (text.new.items ≡ text.old.items
        ++ key_line line name.now (shown_root tree.now.rows shown.now)) }
{
    push_number(text, line as u64)?;
    text.extend_from_slice(b" key ")?;
    text.extend_from_slice(name.as_bytes())?;
    text.extend_from_slice(b" ")?;
    push_root(text, tree, shown)?;
    text.extend_from_slice(b"\n")
}

fn push_root(
    text: &mut Vec<u8>,
    tree: &Tree,
    shown: &Result<Shown, Refusal>,
) -> Result<(), NoMemory>
    ensures { OnOk result (text.new.items ≡ text.old.items ++ shown_root tree.now.rows shown.now) }
{
    match shown {
        Ok(_) => text.extend_from_slice(b"ok"),
        Err(why) => push_error_text(text, tree, why),
    }
}

/// Adds how many roots went well, of so many that were tried.
pub(crate) fn push_total(
    text: &mut Vec<u8>,
    line: u32,
    well: u64,
    tried: u64,
) -> Result<(), NoMemory>
    ensures { OnOk result (text.new.items ≡ text.old.items ++ total_line line well tried) }
{
    push_number(text, line as u64)?;
    text.extend_from_slice(b" ok ")?;
    push_number(text, well)?;
    text.extend_from_slice(b"/")?;
    push_number(text, tried)?;
    text.extend_from_slice(b"\n")
}

/// Adds a number behind a space.
fn push_field(text: &mut Vec<u8>, number: u64) -> Result<(), NoMemory>
    ensures { OnOk result (text.new.items ≡ text.old.items ++ spaced (decimal number ∷ [])) }
{
    text.extend_from_slice(b" ")?;
    push_number(text, number)
}

/// Adds bytes in hexadecimal behind a space.
fn push_bytes(text: &mut Vec<u8>, bytes: &[u8]) -> Result<(), NoMemory>
    ensures { OnOk result (text.new.items ≡ text.old.items ++ spaced (encode_lower bytes.now ∷ [])) }
{
    let digits = hex::encode(*text.allocator(), bytes)?;
    text.extend_from_slice(b" ")?;
    text.extend_from_slice(digits.as_bytes())
}

/// Adds the name of a dataset behind a space, or its id where the tree lacks it.
fn push_dataset(text: &mut Vec<u8>, tree: &Tree, id: u32) -> Result<(), NoMemory>
    ensures { OnOk result (text.new.items ≡ text.old.items ++ spaced (dataset_text tree.now.rows id ∷ [])) }
{
    match tree.row(id) {
        Some(row) => {
            text.extend_from_slice(b" ")?;
            text.extend_from_slice(row.name.as_bytes())
        }
        None => push_field(text, id as u64),
    }
}

fn push_material(text: &mut Vec<u8>, fault: MaterialFault) -> Result<(), NoMemory>
    ensures { OnOk result (text.new.items ≡ text.old.items ++ spaced (material_text fault)) }
{
    match fault {
        MaterialFault::Short => text.extend_from_slice(b" short"),
        MaterialFault::Long => text.extend_from_slice(b" long"),
        MaterialFault::Hex { at } => {
            text.extend_from_slice(b" hex")?;
            push_field(text, at)
        }
    }
}

/// Adds what stands behind a refusal's name.
fn push_fields(text: &mut Vec<u8>, tree: &Tree, why: &Refusal) -> Result<(), NoMemory>
    ensures { OnOk result (text.new.items ≡ text.old.items ++ spaced (fields_of tree.now.rows why.now)) }
{
    match why {
        Refusal::BadName { at } | Refusal::NotStream { at } | Refusal::BadDirectory { at } => {
            push_field(text, *at)
        }
        Refusal::TooBig { limit } | Refusal::Full { limit } => push_field(text, *limit),
        Refusal::WrongKey { dataset } | Refusal::NoHead { head: dataset } => {
            push_dataset(text, tree, *dataset)
        }
        Refusal::BadMaterial { fault } => push_material(text, *fault),
        Refusal::Busy { dataset, count } => {
            push_dataset(text, tree, *dataset)?;
            push_field(text, *count)
        }
        Refusal::MacFailed {
            object,
            level,
            index,
        } => {
            push_field(text, *object)?;
            push_field(text, *level)?;
            push_field(text, *index)
        }
        Refusal::Damaged { computed, found } => {
            push_bytes(text, computed)?;
            push_bytes(text, found)
        }
        Refusal::BadTop {
            object,
            claimed,
            built,
        } => {
            push_field(text, *object)?;
            push_bytes(text, claimed)?;
            push_bytes(text, built)
        }
        Refusal::Unmapped {
            found: first,
            wanted: second,
        }
        | Refusal::KeyDiffers {
            held: first,
            family: second,
        } => {
            push_field(text, *first)?;
            push_field(text, *second)
        }
        _ => Ok(()),
    }
}
