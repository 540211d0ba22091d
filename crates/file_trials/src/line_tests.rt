use dataset_tree::{FileName, SetName, Stop};
use file_dataset::{FileBytes, FileCmd, FileReply, FileRow, FileRows};
use std::alloc::Global;
use std::test::Fail;

fn bytes(alloc: Global) -> Result<FileBytes, Stop> {
    let bytes = vec![in alloc; 1, 2]?;
    Ok(FileBytes::new(bytes))
}

fn write(alloc: Global) -> Result<FileCmd, Stop> {
    let set = SetName::parse(alloc, b"tank")?;
    let file = FileName::parse(alloc, b"a")?;
    let bytes = bytes(alloc)?;
    Ok(FileCmd::Write {
        set,
        file,
        from: 3,
        bytes,
    })
}

fn copied_write(alloc: Global) -> Result<FileCmd, Stop> {
    let write = write(alloc)?;
    Ok(write.copy()?)
}

fn is_write(command: &FileCmd) -> bool {
    match command {
        FileCmd::Write { from, bytes, .. } => {
            *from == 3 && bytes.as_bytes() == [1, 2].as_slice()
        },
        _ => false,
    }
}

fn listing(alloc: Global) -> Result<FileReply, Stop> {
    let name = FileName::parse(alloc, b"a")?;
    let rows = vec![in alloc; FileRow { name, length: 5 }]?;
    Ok(FileReply::Names {
        rows: FileRows::new(rows),
    })
}

fn copied_listing(alloc: Global) -> Result<FileReply, Stop> {
    let listing = listing(alloc)?;
    Ok(listing.copy()?)
}

fn first_length(reply: &FileReply) -> Option<u64> {
    match reply {
        FileReply::Names { rows } => rows.as_slice().first().map(|row| row.length),
        _ => None,
    }
}

#[test]
fn commands_and_replies_are_copied(rt: HostRuntime) -> Result<(), Fail> {
    assert!(rt; is_write(&copied_write(rt.alloc())?));
    assert_eq!(rt; first_length(&copied_listing(rt.alloc())?), Some(5));
    Ok(())
}
