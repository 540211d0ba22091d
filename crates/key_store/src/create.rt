// New datasets.
ghost use Rattle.std.specs.Prelude.{◌≡◌, ◌<◌, ◌≤◌, ◌+◌, true, false, length, vec_capacity, is_some, Some, None, IfOk, IfSome, OnOk, OnErr};
ghost use Rattle.dataset_tree.specs.Tree.{new_id, with_row};
ghost use Rattle.encryption_roots.specs.ById.{IsRisingById, with_id};
ghost use Rattle.encryption_roots.specs.RecordSize.{IsRecordSize};
ghost use Rattle.encryption_roots.specs.declared.command.KeyCmd.TheVariants as commands;
ghost use Rattle.key_machine.specs.Plain.{mkey};
ghost use Rattle.key_machine.specs.Create.{makes_heir, makes_encrypted, is_below_encrypted, parent_row, parent_key};
ghost use Rattle.key_machine.specs.Step.{refusal_of, told};
ghost use Rattle.key_ciphers.specs.Ciphers.{ciphers};
ghost use Rattle.key_store.specs.Calls.{stepped, state_after, AnswersMade};
ghost use Rattle.key_store.specs.NewRoot.{IsToldRoot, GivesHeir, TellsFault};

use crate::state::{FamilyRecord, KeyState};
use dataset_tree::{Format, Kind, NoMemory, Refusal, SetName, Stop, Tree};
use encryption_roots::{LineKit, Options, Props, put_at_id};
use key_ciphers::{fetched_key, seed_behind_key, seed_got, seeded_record};
use key_reads::{create_refusal, is_below_encrypted, new_iters, new_props, new_suite, parent_key};
use salt_rotation::SeedWords;
use std::alloc::AllocError;

/// The record size where the options have none, in bytes.
const DEFAULT_RECORD_SIZE: u32 = 131_072;

/// What makes a dataset an encryption root.
#[derive(Drop)]
pub(crate) struct NewRoot {
    pub(crate) props: Props,
    pub(crate) family: FamilyRecord,
    pub(crate) key: [u8; 32],
}

impl KeyState {
    /// Makes a dataset and gives its id: an encryption root where the options have a key format, else below
    /// an encrypted dataset one that uses its parent's key, else a plain one. A root's key is loaded, and a
    /// key opens the record of what is encrypted.
    ///
    /// # Errors
    /// Those of `needs`, then `KeyFileMissing` or `KeyFault` at the fetch, `BadMaterial`, and `EntropyFault`,
    /// before which no key is derived. What the kit wasn't asked for counts as a taking that failed. After an
    /// `Err` all is as before.
    pub fn create(&mut self, name: &SetName, opts: &Options, kit: &LineKit) -> Result<u32, Stop>
        requires record_size { IfSome opts.now.block IsRecordSize }
        ensures reply { AnswersMade result (stepped self.old (commands.Create name.now opts.now) kit.now).reply }
        ensures state { self.new ≡ state_after result self.old
            (stepped self.old (commands.Create name.now opts.now) kit.now).state }
        ensures opens { IfOk result (λ id. makes_encrypted self.old name.now opts.now ≡ true
            → is_some (mkey ciphers self.new id) ≡ true) }
        ensures unchanged { OnErr result (self.new ≡ self.old) }
    {
        if let Some(why) = create_refusal(&*self, name, opts, self.records.len()) {
            return Err(Stop::Refused(why));
        }
        if let Some(format) = opts.format {
            return self.create_root(name, opts, format, kit);
        }
        if is_below_encrypted(&*self, name) {
            return self.create_heir(name, opts, kit);
        }
        self.create_plain(name, opts, kit)
    }

    /// Makes a plain dataset.
    fn create_plain(&mut self, name: &SetName, opts: &Options, kit: &LineKit) -> Result<u32, Stop>
        requires accepted { refusal_of self.old (commands.Create name.now opts.now) ≡ None }
        requires no_root { opts.now.format ≡ None }
        requires no_heir { is_below_encrypted self.old name.now ≡ false }
        ensures reply { AnswersMade result (stepped self.old (commands.Create name.now opts.now) kit.now).reply }
        ensures state { self.new ≡ state_after result self.old
            (stepped self.old (commands.Create name.now opts.now) kit.now).state }
        ensures unchanged { OnErr result (self.new ≡ self.old) }
    {
        let id = add_free(&mut self.tree, name, Kind::Plain)?;
        Ok(id)
    }

    /// Makes a dataset that uses its parent's key.
    fn create_heir(&mut self, name: &SetName, opts: &Options, kit: &LineKit) -> Result<u32, Stop>
        requires accepted { refusal_of self.old (commands.Create name.now opts.now) ≡ None }
        requires heir { makes_heir self.old name.now opts.now ≡ true }
        requires record_size { IfSome opts.now.block IsRecordSize }
        ensures reply { AnswersMade result (stepped self.old (commands.Create name.now opts.now) kit.now).reply }
        ensures state { self.new ≡ state_after result self.old
            (stepped self.old (commands.Create name.now opts.now) kit.now).state }
        ensures opens { IfOk result (λ id. is_some (mkey ciphers self.new id) ≡ true) }
        ensures unchanged { OnErr result (self.new ≡ self.old) }
    {
        let family = match self.new_heir(name, opts, kit) {
            Ok(family) => family,
            Err(why) => return Err(Stop::Refused(why)),
        };
        let id = add_free(&mut self.tree, name, Kind::Crypt)?;
        put_with_room(&mut self.records, id, family);
        put_with_room(&mut self.mkey_counts, id, 0);
        Ok(id)
    }

    /// The record that the seed of a line makes under the parent's key.
    fn new_heir(
        &self,
        name: &SetName,
        opts: &Options,
        kit: &LineKit,
    ) -> Result<FamilyRecord, Refusal>
        requires heir { makes_heir self.now name.now opts.now ≡ true }
        requires record_size { IfSome opts.now.block IsRecordSize }
        ensures { GivesHeir self.now.tree.last opts.now
            (told ciphers self.now (commands.Create name.now opts.now) kit.now)
            (parent_key self.now (parent_row self.now name.now)) result }
    {
        let seed = match seed_got(kit.seed) {
            Ok(seed) => SeedWords::new(seed),
            Err(why) => return Err(why),
        };
        let key = parent_key(self, name);
        let wrapped = seeded_record(&seed, new_suite(self, name, opts), &key);
        let block = opts.block.unwrap_or(DEFAULT_RECORD_SIZE);
        Ok(FamilyRecord { wrapped, block })
    }

    /// Makes an encryption root.
    fn create_root(
        &mut self,
        name: &SetName,
        opts: &Options,
        format: Format,
        kit: &LineKit,
    ) -> Result<u32, Stop>
        requires accepted { refusal_of self.old (commands.Create name.now opts.now) ≡ None }
        requires root { opts.now.format ≡ Some format }
        requires record_size { IfSome opts.now.block IsRecordSize }
        ensures reply { AnswersMade result (stepped self.old (commands.Create name.now opts.now) kit.now).reply }
        ensures state { self.new ≡ state_after result self.old
            (stepped self.old (commands.Create name.now opts.now) kit.now).state }
        ensures opens { IfOk result (λ id. is_some (mkey ciphers self.new id) ≡ true) }
        ensures unchanged { OnErr result (self.new ≡ self.old) }
    {
        let root = self.new_root(name, opts, format, kit)?;
        let id = add_free(&mut self.tree, name, Kind::Crypt)?;
        if self.roots.insert(id, root.props).is_err() {
            unreachable!();
        }
        put_with_room(&mut self.records, id, root.family);
        put_with_room(&mut self.loaded, id, root.key);
        put_with_room(&mut self.mkey_counts, id, 0);
        Ok(id)
    }

    /// What the material and the seed of a line make of a new root.
    fn new_root(
        &self,
        name: &SetName,
        opts: &Options,
        format: Format,
        kit: &LineKit,
    ) -> Result<NewRoot, Stop>
        requires accepted { refusal_of self.now (commands.Create name.now opts.now) ≡ None }
        requires root { opts.now.format ≡ Some format }
        requires record_size { IfSome opts.now.block IsRecordSize }
        ensures root { IfOk result (λ root. IsToldRoot self.now.tree.last opts.now
            (told ciphers self.now (commands.Create name.now opts.now) kit.now) root) }
        ensures fault { TellsFault (told ciphers self.now (commands.Create name.now opts.now) kit.now) result }
    {
        let seed = match seed_behind_key(format, new_iters(opts), kit) {
            Ok(seed) => SeedWords::new(seed),
            Err(why) => return Err(Stop::Refused(why)),
        };
        let props = new_props(format, opts, &seed)?;
        let key = match fetched_key(format, props.iters, props.salt, &kit.new_key) {
            Ok(key) => key,
            Err(why) => return Err(Stop::Refused(why)),
        };
        let wrapped = seeded_record(&seed, new_suite(self, name, opts), &key);
        let block = opts.block.unwrap_or(DEFAULT_RECORD_SIZE);
        Ok(NewRoot {
            props,
            family: FamilyRecord { wrapped, block },
            key,
        })
    }
}

/// Adds a dataset that nothing refuses.
fn add_free(tree: &mut Tree, name: &SetName, kind: Kind) -> Result<u32, NoMemory>
    requires { new_id tree.old name.now ≡ Ok (tree.old.last + 1) }
    ensures id { IfOk result (λ id. id ≡ tree.old.last + 1) }
    ensures added { OnOk result (tree.new ≡ with_row tree.old name.now kind 0) }
    ensures same { OnErr result (tree.new ≡ tree.old) }
{
    match tree.add(name, kind, 0) {
        Ok(id) => Ok(id),
        Err(Stop::NoMemory) => Err(AllocError),
        Err(Stop::Refused(_)) => unreachable!(),
    }
}

/// Sets the value at this id, for which there is room.
pub(crate) fn put_with_room<X: Drop>(entries: &mut Vec<(u32, X)>, id: u32, value: X)
    requires rising { IsRisingById entries.old.items }
    requires room { length entries.old.items < vec_capacity entries.old }
    ensures put { entries.new.items ≡ with_id id value entries.old.items }
    ensures rising { IsRisingById entries.new.items }
    ensures room { vec_capacity entries.old ≤ vec_capacity entries.new }
{
    if put_at_id(entries, id, value).is_err() {
        unreachable!();
    }
}
