use super::*;
use dataset_tree::{FileName, Refusal, Stop};
use family_log::{Listed, Table, TableRow};
use indirect_macs::ObjTree;
use std::alloc::{AllocError, Global};
use std::test::Fail;

// `a.txt` with object 5 and `f` with object 2, by Python's struct.
const TWO_FILES: &[u8] = b"\x05\0\0\0\x05a.txt\x02\0\0\0\x01f";

const THREE_FILES: &[u8] = b"\x05\0\0\0\x05a.txt\x03\0\0\0\x01b\x02\0\0\0\x01f";

const ONE_FILE: &[u8] = b"\x02\0\0\0\x01f";

fn add_object(rows: &mut Vec<TableRow>, object: u32) -> Result<(), AllocError> {
    let tree = ObjTree {
        levels: 1,
        top: None,
    };
    rows.push(TableRow {
        object,
        length: 0,
        tree,
    })?;
    Ok(())
}

/// A table of the objects 1, 2 and 5.
fn table(alloc: Global) -> Result<Table, AllocError> {
    let mut rows = Vec::new(alloc);
    add_object(&mut rows, 1)?;
    add_object(&mut rows, 2)?;
    add_object(&mut rows, 5)?;
    Ok(Table {
        block: 512,
        rows: Listed::new(rows),
        portable: [0; 32],
        guid: 0,
    })
}

fn two_files(alloc: Global) -> Result<Directory, Stop> {
    let table = table(alloc)?;
    Directory::parse(alloc, TWO_FILES, &table)
}

/// Adds a file if its name and object are new.
fn added(directory: &mut Directory, object: u32, name: &FileName) -> Result<bool, AllocError> {
    let _bytes = name.as_bytes();
    if object < 2 || directory.has_object(object) || directory.find(name).is_some() {
        return Ok(false);
    }
    directory.insert(object, name)?;
    Ok(true)
}

/// Where a directory's text is wrong.
fn wrong_at(alloc: Global, text: &[u8]) -> Result<Option<u64>, AllocError> {
    let table = table(alloc)?;
    match Directory::parse(alloc, text, &table) {
        Err(Stop::Refused(Refusal::BadDirectory { at })) => Ok(Some(at)),
        _ => Ok(None),
    }
}

#[test]
fn files_are_found(rt: HostRuntime) -> Result<(), Fail> {
    let directory = two_files(rt.alloc())?;
    let name = FileName::parse(rt.alloc(), b"a.txt")?;
    assert_eq!(rt; directory.find(&name), Some(5));
    assert_eq!(rt; directory.entries().len(), 2);
    Ok(())
}

#[test]
fn a_file_is_added(rt: HostRuntime) -> Result<(), Fail> {
    let mut directory = two_files(rt.alloc())?;
    let name = FileName::parse(rt.alloc(), b"b")?;
    assert!(rt; added(&mut directory, 3, &name)?);
    let text = directory.text(rt.alloc())?;
    assert_eq!(rt; text.as_slice(), THREE_FILES);
    Ok(())
}

#[test]
fn a_file_is_removed(rt: HostRuntime) -> Result<(), Fail> {
    let mut directory = two_files(rt.alloc())?;
    let name = FileName::parse(rt.alloc(), b"a.txt")?;
    directory.remove(&name);
    let text = directory.text(rt.alloc())?;
    assert_eq!(rt; text.as_slice(), ONE_FILE);
    Ok(())
}

#[test]
fn entries_that_are_not_whole_or_not_in_form(rt: HostRuntime) -> Result<(), Fail> {
    assert_eq!(rt; wrong_at(rt.alloc(), b"\x02\0\0\0")?, Some(0));
    assert_eq!(rt; wrong_at(rt.alloc(), b"\x02\0\0\0\x02f")?, Some(0));
    assert_eq!(rt; wrong_at(rt.alloc(), b"\x02\0\0\0\x03a:b")?, Some(0));
    assert_eq!(rt; wrong_at(rt.alloc(), b"\x01\0\0\0\x01f")?, Some(0));
    Ok(())
}

#[test]
fn entries_that_do_not_go_with_those_before(rt: HostRuntime) -> Result<(), Fail> {
    assert_eq!(rt;
        wrong_at(rt.alloc(), b"\x02\0\0\0\x01f\x07\0\0\0\x01g")?,
        Some(6)
    );
    assert_eq!(rt;
        wrong_at(rt.alloc(), b"\x02\0\0\0\x01f\x05\0\0\0\x01e")?,
        Some(6)
    );
    assert_eq!(rt;
        wrong_at(rt.alloc(), b"\x02\0\0\0\x01f\x02\0\0\0\x01g")?,
        Some(6)
    );
    assert_eq!(rt; wrong_at(rt.alloc(), TWO_FILES)?, None);
    Ok(())
}
