// Commands about the files of a dataset.
ghost use Rattle.std.specs.Prelude.{◌≡◌, ◌+◌, ◌<◌, ◌≤◌, Err, IfOk, IfSome, OnOk, length, true};
ghost use Rattle.std.specs.List.{AllWithin};
ghost use Rattle.encryption_roots.specs.ById.{IsRisingById, at_id};
ghost use Rattle.file_dataset.specs.Calls.{block_key_of, refused_before};
ghost use Rattle.file_dataset.specs.ChangeCalls.{refused_edit};
ghost use Rattle.file_dataset.specs.Reads.{plain_count, plain_names, plain_read};
ghost use Rattle.file_dataset.specs.Steady.{called_cut, called_make, called_read, called_remove, called_write};
ghost use Rattle.file_dataset.specs.declared.reply.FileReply.TheVariants as replies;
ghost use Rattle.encryption_roots.specs.Owners.{family as family_in};
ghost use Rattle.key_store.specs.State.{opened_key};
ghost use Rattle.host_state.specs.Hosts.{by_id, facts_of_family, facts_of_record};
ghost use Rattle.host_state.specs.FileLines.{file_step, refused_first, served, served_by, set_of, spot_at};
ghost use Rattle.host_state.specs.FileAnswers.{IsPlaceOf, Replies, Serves, ServesAt, ServesFiles, ServesUnder};

use crate::host::Host;
use dataset_tree::{FileName, NoMemory, Refusal, SetName, SnapPart, Stop};
use encryption_roots::family_of;
use family_log::{Family, Spot};
use file_dataset::{
    FileBytes, FileCmd, FileReply, FileRow, FileRows, Wrote, cut, make_file, names, read_at,
    remove_file, verify_head, write_at,
};
use key_store::KeyState;
use shelf_store::Shelf;
use std::alloc::AllocError;
use wrapped_keys::MasterKey;

impl<B: Shelf> Host<B> {
    /// Carries out a command about the files of a mounted dataset, on its family and under the family's master key.
    ///
    /// A refusal is a reply: in this order `NoSuch` where no dataset has the name, `NotEncrypted` where it is plain,
    /// `NotMounted`, and then those of the call of `file_dataset` that the command makes. After the three nothing has
    /// changed. After any other answer at most the dataset's family has: calls of its shelf, draws and blocks may have
    /// been used, of which a refusal before a block is read uses none; its log has one more entry, unless it has no
    /// room for the one of a refusal; and where the command changed the dataset's head, that has another table.
    ///
    /// # Errors
    ///
    /// Want of memory. Calls of the shelf, draws and blocks of the dataset's family may have been used then, and
    /// nothing else has changed.
    pub fn file(&mut self, command: &FileCmd) -> Result<FileReply, NoMemory>
        ensures reply { self.old.tells ≡ true → IfOk result (λ reply. reply ≡ (file_step self.old command.now).reply) }
        ensures state { self.old.tells ≡ true → OnOk result (self.new ≡ (file_step self.old command.now).state) }
        ensures others { self.new ≡ record self.old { families = self.new.families } }
        ensures left { ServesFiles result self.old self.new command.now }
    {
        match self.keys.keys().mounted_id(set_of(command)) {
            Ok(id) => file_on(self.keys.keys(), &mut self.families, id, command),
            Err(why) => Ok(FileReply::Refused { why }),
        }
    }
}

/// Carries out a command on a mounted dataset: on its family, under the family's master key.
fn file_on<B: Shelf>(
    keys: &KeyState,
    families: &mut Vec<(u32, Family<B>)>,
    id: u32,
    command: &FileCmd,
) -> Result<FileReply, NoMemory>
    requires rising { IsRisingById families.old.items }
    requires paired { by_id facts_of_family families.old.items ≡ by_id facts_of_record keys.now.wrapped }
    ensures { ServesUnder result families.old.items families.new.items (family_in keys.now.tree.rows id) id command.now
        (opened_key keys.now (family_in keys.now.tree.rows id)) }
{
    let family = family_of(keys.tree(), id);
    match keys.opened(family) {
        Some(key) => serve_at(families, family, key, id, command),
        None => Ok(FileReply::Refused {
            why: Refusal::KeyUnavailable,
        }),
    }
}

/// The dataset that a command is about.
fn set_of(command: &FileCmd) -> &SetName
    ensures { result.now ≡ set_of command.now }
{
    match command {
        FileCmd::Touch { set, .. }
        | FileCmd::Remove { set, .. }
        | FileCmd::Write { set, .. }
        | FileCmd::Read { set, .. }
        | FileCmd::Cut { set, .. }
        | FileCmd::Names { set, .. }
        | FileCmd::Verify { set, .. } => set,
    }
}

/// Carries out a command on the family of this id, if there is one.
fn serve_at<B: Shelf>(
    families: &mut Vec<(u32, Family<B>)>,
    family: u32,
    key: &MasterKey,
    head: u32,
    command: &FileCmd,
) -> Result<FileReply, NoMemory>
    requires rising { IsRisingById families.old.items }
    requires guid { IfSome (at_id family families.old.items) (λ state. state.guid ≡ key.now.guid) }
    ensures { ServesAt result families.old.items families.new.items family head key.now command.now
        (at_id family families.old.items) }
{
    match place_of(families.as_slice(), family) {
        Some(at) => serve(&mut families[at].1, key, head, command),
        None => Ok(FileReply::Refused {
            why: Refusal::KeyUnavailable,
        }),
    }
}

/// Where the value of this id stands, if one is there.
pub(super) fn place_of<X>(entries: &[(u32, X)], id: u32) -> Option<usize>
    requires { IsRisingById entries.now }
    ensures { IsPlaceOf id entries.now result }
{
    let at = place_in(entries, id);
    if at < entries.len() && entries[at].0 == id {
        return Some(at);
    }
    None
}

/// Where the value of this id stands, or would stand.
fn place_in<X>(entries: &[(u32, X)], id: u32) -> usize
    requires { IsRisingById entries.now }
    ensures within { result ≤ length entries.now }
    ensures below { AllWithin (λ entry. entry.0 < id) entries.now 0 result }
    ensures above { AllWithin (λ entry. id ≤ entry.0) entries.now result (length entries.now) }
{
    entries.partition_point(|entry| entry.0 < id)
}

/// Carries out a command on the family of its dataset, which is this head, under the family's master key.
fn serve<B: Shelf>(
    family: &mut Family<B>,
    key: &MasterKey,
    head: u32,
    command: &FileCmd,
) -> Result<FileReply, NoMemory>
    requires { family.old.guid ≡ key.now.guid }
    ensures { Serves result family.old family.new head (refused_first key.now head command.now family.old)
        (served_by key.now head command.now family.old) }
{
    match command {
        FileCmd::Touch { file, .. } => touch(family, key, head, file),
        FileCmd::Remove { file, .. } => remove(family, key, head, file),
        FileCmd::Write {
            file,
            from,
            bytes,
            ..
        } => write(family, key, head, file, *from, bytes.as_bytes()),
        FileCmd::Cut { file, to, .. } => shorten(family, key, head, file, *to),
        FileCmd::Read {
            snap,
            file,
            from,
            len,
            ..
        } => read(family, key, head, snap, file, *from, *len),
        FileCmd::Names { snap, .. } => list(family, key, head, snap),
        FileCmd::Verify { snap, .. } => verify(family, key, head, snap),
    }
}

// ---- the commands that change a head

fn touch<B: Shelf>(
    family: &mut Family<B>,
    key: &MasterKey,
    head: u32,
    file: &FileName,
) -> Result<FileReply, NoMemory>
    requires { family.old.guid ≡ key.now.guid }
    ensures { Serves result family.old family.new head (refused_edit key.now.hmac 0 head family.old)
        (served (λ _. replies.Done)
        (called_make (block_key_of key.now) key.now.hmac head file.now family.old)) }
{
    let answer = make_file(family, key, head, file);
    let _ = family.used();
    done(answer)
}

fn remove<B: Shelf>(
    family: &mut Family<B>,
    key: &MasterKey,
    head: u32,
    file: &FileName,
) -> Result<FileReply, NoMemory>
    requires { family.old.guid ≡ key.now.guid }
    ensures { Serves result family.old family.new head (refused_edit key.now.hmac 0 head family.old)
        (served (λ _. replies.Done)
        (called_remove (block_key_of key.now) key.now.hmac head file.now family.old)) }
{
    let answer = remove_file(family, key, head, file);
    let _ = family.used();
    done(answer)
}

fn write<B: Shelf>(
    family: &mut Family<B>,
    key: &MasterKey,
    head: u32,
    file: &FileName,
    from: u64,
    bytes: &[u8],
) -> Result<FileReply, NoMemory>
    requires { family.old.guid ≡ key.now.guid }
    ensures { Serves result family.old family.new head (refused_edit key.now.hmac (from + length bytes.now) head family.old)
        (served (λ wrote. replies.Wrote wrote.blocks wrote.number)
        (called_write (block_key_of key.now) key.now.hmac head file.now from bytes.now family.old)) }
{
    let answer = write_at(family, key, head, file, from, bytes);
    let _ = family.used();
    wrote(answer)
}

fn shorten<B: Shelf>(
    family: &mut Family<B>,
    key: &MasterKey,
    head: u32,
    file: &FileName,
    to: u64,
) -> Result<FileReply, NoMemory>
    requires { family.old.guid ≡ key.now.guid }
    ensures { Serves result family.old family.new head (refused_edit key.now.hmac to head family.old)
        (served (λ _. replies.Done)
        (called_cut (block_key_of key.now) key.now.hmac head file.now to family.old)) }
{
    let answer = cut(family, key, head, file, to);
    let _ = family.used();
    done(answer)
}

// ---- the commands that read

fn read<B: Shelf>(
    family: &mut Family<B>,
    key: &MasterKey,
    head: u32,
    snap: &Option<SnapPart>,
    file: &FileName,
    from: u64,
    len: u32,
) -> Result<FileReply, NoMemory>
    requires { family.old.guid ≡ key.now.guid }
    ensures { Serves result family.old family.new head
        (refused_before key.now.hmac family.old (spot_at head snap.now)) (served (λ bytes. replies.Bytes bytes)
        (called_read (λ held. plain_read (block_key_of key.now) key.now.hmac held file.now from len)
        (spot_at head snap.now) family.old)) }
{
    match spot_at(head, snap) {
        Ok(spot) => bytes_read(read_at(family, key, &spot, file, from, len)),
        Err(stop) => Err(stop),
    }
}

fn list<B: Shelf>(
    family: &mut Family<B>,
    key: &MasterKey,
    head: u32,
    snap: &Option<SnapPart>,
) -> Result<FileReply, NoMemory>
    requires { family.old.guid ≡ key.now.guid }
    ensures { Serves result family.old family.new head
        (refused_before key.now.hmac family.old (spot_at head snap.now)) (served (λ rows. replies.Names rows)
        (called_read (λ held. plain_names (block_key_of key.now) key.now.hmac held)
        (spot_at head snap.now) family.old)) }
{
    match spot_at(head, snap) {
        Ok(spot) => listed(names(family, key, &spot)),
        Err(stop) => Err(stop),
    }
}

fn verify<B: Shelf>(
    family: &mut Family<B>,
    key: &MasterKey,
    head: u32,
    snap: &Option<SnapPart>,
) -> Result<FileReply, NoMemory>
    requires { family.old.guid ≡ key.now.guid }
    ensures { Serves result family.old family.new head
        (refused_before key.now.hmac family.old (spot_at head snap.now)) (served (λ count. replies.Blocks count)
        (called_read (λ held. plain_count (block_key_of key.now) key.now.hmac held)
        (spot_at head snap.now) family.old)) }
{
    match spot_at(head, snap) {
        Ok(spot) => counted(verify_head(family, key, &spot)),
        Err(stop) => Err(stop),
    }
}

/// A head, or a snapshot of it.
fn spot_at(head: u32, snap: &Option<SnapPart>) -> Result<Spot, NoMemory>
    ensures { IfOk result (λ spot. spot ≡ spot_at head snap.now) }
{
    let snap = match snap {
        Some(part) => Some(part.copy()?),
        None => None,
    };
    Ok(Spot { head, snap })
}

// ---- replies

/// The reply to a call that is done or refused.
fn done(answer: Result<(), Stop>) -> Result<FileReply, NoMemory>
    ensures { Replies (λ _. replies.Done) answer result }
{
    match answer {
        Ok(()) => Ok(FileReply::Done),
        Err(stop) => refused(stop),
    }
}

fn wrote(answer: Result<Wrote, Stop>) -> Result<FileReply, NoMemory>
    ensures { Replies (λ wrote. replies.Wrote wrote.blocks wrote.number) answer result }
{
    match answer {
        Ok(wrote) => Ok(FileReply::Wrote {
            blocks: wrote.blocks,
            number: wrote.number,
        }),
        Err(stop) => refused(stop),
    }
}

fn bytes_read(answer: Result<Vec<u8>, Stop>) -> Result<FileReply, NoMemory>
    ensures { Replies (λ bytes. replies.Bytes bytes.items) answer result }
{
    match answer {
        Ok(bytes) => Ok(FileReply::Bytes {
            bytes: FileBytes::new(bytes),
        }),
        Err(stop) => refused(stop),
    }
}

fn listed(answer: Result<Vec<FileRow>, Stop>) -> Result<FileReply, NoMemory>
    ensures { Replies (λ rows. replies.Names rows.items) answer result }
{
    match answer {
        Ok(rows) => Ok(FileReply::Names {
            rows: FileRows::new(rows),
        }),
        Err(stop) => refused(stop),
    }
}

fn counted(answer: Result<u64, Stop>) -> Result<FileReply, NoMemory>
    ensures { Replies (λ count. replies.Blocks count) answer result }
{
    match answer {
        Ok(count) => Ok(FileReply::Blocks { count }),
        Err(stop) => refused(stop),
    }
}

fn refused(stop: Stop) -> Result<FileReply, NoMemory>
    ensures { Replies {X = Unit {0}} (λ _. replies.Done) (Err stop) result }
{
    match stop {
        Stop::Refused(why) => Ok(FileReply::Refused { why }),
        Stop::NoMemory => Err(AllocError),
    }
}
