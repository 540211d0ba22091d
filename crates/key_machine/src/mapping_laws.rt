// Laws of mappings: mounts, unmounts and reaps.
ghost use Rattle.std.specs.Prelude.{◌≡◌, ◌⊎◌, ◌↔◌, ℕ, ◌+◌, ◌<◌, Bool, not, ◌==◌, true, false, List, Option, Some, None, is_some, is_none, slice_set};
ghost use Rattle.std.specs.List.{AllPairs, filter};
ghost use Rattle.dataset_tree.specs.declared.kinds.Kind.TheVariants.{Crypt};
ghost use Rattle.dataset_tree.specs.declared.refusal.Refusal.TheVariants.{Full};
ghost use Rattle.dataset_tree.specs.declared.tree.Row.{Row};
ghost use Rattle.dataset_tree.specs.Tree.{row_named};
ghost use Rattle.encryption_roots.specs.declared.command.KeyCmd.TheVariants as commands;
ghost use Rattle.encryption_roots.specs.ById.{IsRisingById, at_id, with_id, without_id};
ghost use Rattle.encryption_roots.specs.Owners.{family};
ghost use Rattle.key_machine.specs.Plain.{Plain, Ciphers, has_key};
ghost use Rattle.key_machine.specs.Users.{generation_of, is_mounted, users_of, with_mount};
ghost use Rattle.key_machine.specs.Sound.{Sound};
ghost use Rattle.key_machine.specs.Reply.{Done, Refused, Reaped};
ghost use Rattle.key_machine.specs.Step.{refusal_of, target, key_step, IsAccepted};
ghost use Rattle.key_machine.specs.Told.{Told};
ghost use Rattle.key_machine.specs.Unload.{InUse};
ghost use Rattle.key_machine.specs.Reap.{reap_step, reap_found};
ghost use Rattle.key_machine.specs.Counts.{is_opened, counts};
ghost use Rattle.key_machine.specs.Free.{IsLowestFree, AllBlocked};
ghost use Rattle.key_machine.specs.Kept.{KeepsKey};

/// An accepted mount of a dataset that is mapped mounts it again where it is mapped, under the generation that
/// its slot has.
pub fn a_mapped_dataset_is_mounted_on_its_slot()
    ensures { (p : Plain) (name : List ℕ) (told : Told) (id slot : ℕ) → target p (commands.Mount name) ≡ Some id
        → at_id id p.mapped ≡ Some slot → IsAccepted p (commands.Mount name) told →
        key_step p (commands.Mount name) told
        ≡ record { state = record p { mounted = with_mount id p.mounted }; reply = Done } }
{}

/// An accepted mount of a dataset that isn't mapped maps and mounts it on the lowest free slot, whose generation
/// rises by one; the generations of the other slots stay, and so does all else. Where each slot is taken or used
/// up, it is refused, and only there.
pub fn a_fresh_mount_takes_the_lowest_free_slot()
    ensures fresh { (p : Plain) (name : List ℕ) (told : Told) (id : ℕ) → target p (commands.Mount name) ≡ Some id
        → at_id id p.mapped ≡ None → IsAccepted p (commands.Mount name) told →
        (slot : ℕ) × IsLowestFree p slot × (key_step p (commands.Mount name) told ≡ record {
          state = record p {
            gens = slice_set p.gens slot (generation_of p slot + 1);
            mapped = with_id id slot p.mapped;
            mounted = with_mount id p.mounted;
          };
          reply = Done;
        }) }
    ensures full { (p : Plain) (name : List ℕ) (told : Told)
        → (key_step p (commands.Mount name) told).reply ≡ Refused (Full 256) →
        AllBlocked p × ((row : Row) → row_named name p.tree.rows ≡ Some row → at_id row.id p.mapped ≡ None) }
    ensures blocked { (p : Plain) (name : List ℕ) (told : Told) (row : Row) → row_named name p.tree.rows ≡ Some row
        → row.kind ≡ Crypt → is_mounted p row.id ≡ false → has_key p row.id ≡ true → at_id row.id p.mapped ≡ None
        → AllBlocked p → (key_step p (commands.Mount name) told).reply ≡ Refused (Full 256) }
{}

/// An accepted unmount drops the mount alone: all mappings stay, with their generations.
pub fn an_unmount_keeps_the_mappings()
    ensures { (p : Plain) (name : List ℕ) (told : Told) (id : ℕ) → target p (commands.Unmount name) ≡ Some id
        → IsAccepted p (commands.Unmount name) told →
        key_step p (commands.Unmount name) told
        ≡ record { state = record p { mounted = filter (λ other. not (other == id)) p.mounted }; reply = Done } }
{}

/// What was mounted, unmounted and mounted again is as after the first time, on the same slot and generation.
pub fn a_second_mount_is_as_the_first()
    ensures { (p : Plain) (name : List ℕ) (told : Told) → IsAccepted p (commands.Mount name) told →
        let first = (key_step p (commands.Mount name) told).state in
        let second = key_step first (commands.Unmount name) told in
        let third = key_step second.state (commands.Mount name) told in
        (second.reply ≡ Done) × (third.reply ≡ Done) × (third.state ≡ first) }
{}

/// A mapping keeps its slot, its generation, its owner, its family and its master key while others mount or
/// unmount, and while its own dataset does.
pub fn a_mapping_keeps_its_key_over_mounts()
    ensures mount { (c : Ciphers) (p : Plain) (name : List ℕ) (told : Told) (id slot : ℕ)
        → at_id id p.mapped ≡ Some slot → KeepsKey c p (key_step p (commands.Mount name) told).state id slot }
    ensures unmount { (c : Ciphers) (p : Plain) (name : List ℕ) (told : Told) (id slot : ℕ)
        → at_id id p.mapped ≡ Some slot → KeepsKey c p (key_step p (commands.Unmount name) told).state id slot }
{}

/// A reap keeps a state sound.
pub fn a_reap_keeps_soundness()
    ensures { (c : Ciphers) (p : Plain) (dataset : ℕ) → Sound c p → Sound c (reap_step p dataset).state }
{}

/// A reap drops the dataset's mapping exactly where it is there and has no live user, tells whether it did, and
/// changes nothing else. Of a close that was made it tells what that found.
pub fn a_reap_drops_an_idle_mapping_alone()
    ensures dropped { (p : Plain) (dataset : ℕ) → ((reap_step p dataset).reply ≡ Reaped dataset true)
        ↔ ((slot : ℕ) × (at_id dataset p.mapped ≡ Some slot) × (users_of p (dataset, slot) ≡ 0)) }
    ensures reply { (p : Plain) (dataset : ℕ) (found : Option InUse) →
        ((reap_found found p dataset ≡ record {
          state = record p { mapped = without_id dataset p.mapped };
          reply = Reaped dataset true;
        }) × (is_some (at_id dataset p.mapped) ≡ true) × (is_none found ≡ true))
        ⊎ ((reap_found found p dataset ≡ record { state = p; reply = Reaped dataset false })
        × ((is_none (at_id dataset p.mapped) ≡ true) ⊎ (is_some found ≡ true))) }
{}

/// A family's master key is opened exactly where some dataset of the family is mapped.
pub fn a_family_is_opened_where_a_dataset_is_mapped()
    ensures { (p : Plain) (first : ℕ) → (is_opened p first ≡ true)
        ↔ ((dataset : ℕ) × (is_some (at_id dataset p.mapped) ≡ true) × (family p.tree.rows dataset ≡ first)) }
{}

/// In a sound state each list of counts is in order of id, and no id comes twice.
pub fn counts_are_in_order()
    ensures wkeys { (c : Ciphers) (p : Plain) → Sound c p → IsRisingById (counts p).wkeys }
    ensures mkeys { (c : Ciphers) (p : Plain) → Sound c p → IsRisingById (counts p).mkeys }
    ensures maps { (c : Ciphers) (p : Plain) → Sound c p → AllPairs (λ a b. a.0 < b.0) (counts p).maps }
{}
