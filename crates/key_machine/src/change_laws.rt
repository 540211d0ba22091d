// Laws of `change-key` and of `change-key -i`.
ghost use Rattle.std.specs.Prelude.{◌≡◌, ℕ, Bool, true, List, Some, None};
ghost use Rattle.dataset_tree.specs.declared.refusal.Refusal.TheVariants.{WrongKey};
ghost use Rattle.encryption_roots.specs.declared.kit.LineKit.{LineKit};
ghost use Rattle.encryption_roots.specs.declared.command.KeyCmd.TheVariants as commands;
ghost use Rattle.encryption_roots.specs.declared.props.Options.{Options};
ghost use Rattle.encryption_roots.specs.ById.{at_id};
ghost use Rattle.encryption_roots.specs.Owners.{family};
ghost use Rattle.key_machine.specs.Change.{changed_props};
ghost use Rattle.key_machine.specs.Fair.{IsFair};
ghost use Rattle.key_machine.specs.Plain.{Plain, Ciphers, owner_of, has_key, mkey};
ghost use Rattle.key_machine.specs.Rekeyed.{IsRekeyed, IsFirstWrong};
ghost use Rattle.key_machine.specs.Reply.{Done, Refused};
ghost use Rattle.key_machine.specs.Sound.{Sound};
ghost use Rattle.key_machine.specs.Step.{refusal_of, told, target, key_step, IsAccepted};
ghost use Rattle.key_machine.specs.Told.{Told};

/// After an accepted change or inherit each family's master key is what it was, wherever its
/// owner's key was loaded before.
pub fn new_wrapping_keys_keep_the_master_keys()
    ensures change { (c : Ciphers) (p : Plain) (name : List ℕ) (opts : Options)
        (load_first : Bool) (told : Told) (dataset : ℕ) →
        let command = commands.Change name opts load_first in
        let id = family p.tree.rows dataset in
        Sound c p → IsFair c p command told → IsAccepted p command told → has_key p dataset ≡ true
        → mkey c (key_step p command told).state id ≡ mkey c p id }
    ensures inherit { (c : Ciphers) (p : Plain) (name : List ℕ) (load_first : Bool) (told : Told)
        (dataset : ℕ) →
        let command = commands.Inherit name load_first in
        let id = family p.tree.rows dataset in
        Sound c p → IsFair c p command told → IsAccepted p command told → has_key p dataset ≡ true
        → mkey c (key_step p command told).state id ≡ mkey c p id }
{}

/// An accepted change makes its dataset a root with the new properties, whose key is loaded; an
/// accepted inherit makes its root none, whose key isn't. Nothing else changes but the records of
/// the families that the dataset owns after a change, and owned before an inherit, and of those no
/// record size.
pub fn new_wrapping_keys_change_their_families_alone()
    ensures change { (p : Plain) (name : List ℕ) (opts : Options) (load_first : Bool) (told : Told)
        (id : ℕ) →
        let command = commands.Change name opts load_first in
        let after = (key_step p command told).state in
        let props = changed_props (at_id id p.roots) opts told.salt in
        target p command ≡ Some id → IsAccepted p command told
        → IsRekeyed p after id (Some props) (Some told.key) (owner_of after) told.wrapped }
    ensures inherit { (p : Plain) (name : List ℕ) (load_first : Bool) (told : Told) (id : ℕ) →
        let command = commands.Inherit name load_first in
        let after = (key_step p command told).state in
        target p command ≡ Some id → IsAccepted p command told
        → IsRekeyed p after id None None (owner_of p) told.wrapped }
    ensures changed { (p : Plain) (name : List ℕ) (opts : Options) (load_first : Bool)
        (told : Told) (id : ℕ) →
        let command = commands.Change name opts load_first in
        target p command ≡ Some id → IsAccepted p command told
        → (key_step p command told).reply ≡ Done }
    ensures inherited { (p : Plain) (name : List ℕ) (load_first : Bool) (told : Told) (id : ℕ) →
        let command = commands.Inherit name load_first in
        target p command ≡ Some id → IsAccepted p command told
        → (key_step p command told).reply ≡ Done }
{}

/// A kit's material tells a wrong record only where the old key was fetched: it is the first one
/// of the present owner's families, by id, that doesn't open under that key, and the step is
/// refused for it, before a fault of the new key or of the seed.
pub fn a_wrong_key_names_the_first_family()
    ensures change { (c : Ciphers) (p : Plain) (name : List ℕ) (opts : Options)
        (load_first : Bool) (kit : LineKit) (first : ℕ) →
        let command = commands.Change name opts load_first in
        (told c p command kit).wrong ≡ Some first
        → IsFirstWrong c p (target p command) load_first kit first }
    ensures inherit { (c : Ciphers) (p : Plain) (name : List ℕ) (load_first : Bool)
        (kit : LineKit) (first : ℕ) →
        let command = commands.Inherit name load_first in
        (told c p command kit).wrong ≡ Some first
        → IsFirstWrong c p (target p command) load_first kit first }
    ensures change_refused { (c : Ciphers) (p : Plain) (name : List ℕ) (opts : Options)
        (load_first : Bool) (kit : LineKit) (first : ℕ) →
        let command = commands.Change name opts load_first in
        let facts = told c p command kit in
        refusal_of p command ≡ None → facts.wrong ≡ Some first
        → (key_step p command facts).reply ≡ Refused (WrongKey first) }
    ensures inherit_refused { (c : Ciphers) (p : Plain) (name : List ℕ) (load_first : Bool)
        (kit : LineKit) (first : ℕ) →
        let command = commands.Inherit name load_first in
        let facts = told c p command kit in
        refusal_of p command ≡ None → facts.wrong ≡ Some first
        → (key_step p command facts).reply ≡ Refused (WrongKey first) }
{}
