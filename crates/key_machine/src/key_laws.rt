// Laws of loads and unloads.
ghost use Rattle.std.specs.Prelude.{◌≡◌, ◌↔◌, ℕ, Bool, ◌&&◌, nat_lt, if◌then◌else◌, List, [], Option, Some, None, true, false, is_some};
ghost use Rattle.std.specs.List.{All};
ghost use Rattle.dataset_tree.specs.declared.refusal.Refusal.TheVariants.{Busy};
ghost use Rattle.encryption_roots.specs.declared.props.Location.{Location};
ghost use Rattle.encryption_roots.specs.declared.kit.LineKit.{LineKit};
ghost use Rattle.encryption_roots.specs.declared.command.KeyCmd.TheVariants as commands;
ghost use Rattle.encryption_roots.specs.ById.{IsRisingById, at_id, with_id, without_id};
ghost use Rattle.key_machine.specs.Plain.{Plain, Ciphers, owned, owner_of, is_same};
ghost use Rattle.key_machine.specs.Reply.{Done, Refused};
ghost use Rattle.key_machine.specs.Step.{refusal_of, told, target, key_step, key_step_found, IsAccepted};
ghost use Rattle.key_machine.specs.Told.{Told};
ghost use Rattle.key_machine.specs.Unload.{InUse};
ghost use Rattle.key_machine.specs.Busy.{IsFirstInUse, AllIdle};

/// An accepted load adds the key to the loaded ones at its root, or with `check_only` nothing, and changes
/// nothing else.
pub fn a_load_adds_its_key_alone()
    ensures load { (p : Plain) (name : List ℕ) (place : Option Location) (told : Told) (root : ℕ)
        → target p (commands.Load name false place) ≡ Some root → IsAccepted p (commands.Load name false place) told →
        key_step p (commands.Load name false place) told
        ≡ record { state = record p { loaded = with_id root told.key p.loaded }; reply = Done } }
    ensures check { (p : Plain) (name : List ℕ) (place : Option Location) (told : Told) (root : ℕ)
        → target p (commands.Load name true place) ≡ Some root → IsAccepted p (commands.Load name true place) told →
        key_step p (commands.Load name true place) told ≡ record { state = p; reply = Done } }
{}

/// Where the state refuses nothing and the material gives a key, a load is accepted exactly where each record
/// that the root owns opens under that key.
pub fn a_load_is_accepted_where_the_records_open()
    ensures { (c : Ciphers) (p : Plain) (name : List ℕ) (check_only : Bool) (place : Option Location)
        (kit : LineKit) (root : ℕ) →
        let command = commands.Load name check_only place in
        let facts = told c p command kit in
        refusal_of p command ≡ None → facts.fault ≡ None → target p command ≡ Some root →
        (((key_step p command facts).reply ≡ Done)
        ↔ All (λ entry. is_some (c.opens entry.1.wrapped facts.key) ≡ true) (owned p root)) }
{}

/// An accepted unload of a root with no mapped dataset drops its loaded key, and changes nothing else.
pub fn an_unload_drops_the_key_alone()
    ensures { (p : Plain) (name : List ℕ) (told : Told) (root : ℕ) → p.mapped ≡ []
        → target p (commands.Unload name) ≡ Some root → IsAccepted p (commands.Unload name) told →
        key_step p (commands.Unload name) told
        ≡ record { state = record p { loaded = without_id root p.loaded }; reply = Done } }
{}

/// An unload that its state accepts is done exactly where no mapping of the root's datasets has a live user.
/// Else it is busy at the first that has one, by id, with its count, and exactly the mappings of the root's
/// datasets before it are gone.
pub fn an_unload_is_busy_at_the_first_mapping_in_use()
    ensures done { (p : Plain) (name : List ℕ) (told : Told) (root : ℕ)
        → target p (commands.Unload name) ≡ Some root → IsAccepted p (commands.Unload name) told →
        (((key_step p (commands.Unload name) told).reply ≡ Done) ↔ AllIdle p root) }
    ensures first { (p : Plain) (name : List ℕ) (told : Told) (root dataset count : ℕ) → IsRisingById p.mapped
        → target p (commands.Unload name) ≡ Some root →
        (key_step p (commands.Unload name) told).reply ≡ Refused (Busy dataset count)
        → IsFirstInUse p root dataset count }
    ensures closed { (p : Plain) (name : List ℕ) (told : Told) (root dataset count id : ℕ)
        → IsRisingById p.mapped → target p (commands.Unload name) ≡ Some root →
        (key_step p (commands.Unload name) told).reply ≡ Refused (Busy dataset count) →
        at_id id (key_step p (commands.Unload name) told).state.mapped
        ≡ (if is_same root (owner_of p id) && nat_lt id dataset then None else at_id id p.mapped) }
    ensures rest { (p : Plain) (name : List ℕ) (told : Told) (dataset count : ℕ)
        → (key_step p (commands.Unload name) told).reply ≡ Refused (Busy dataset count) →
        (key_step p (commands.Unload name) told).state
        ≡ record p { mapped = (key_step p (commands.Unload name) told).state.mapped } }
    ensures found { (p : Plain) (name : List ℕ) (told : Told) (root : ℕ) (busy : InUse)
        → target p (commands.Unload name) ≡ Some root → IsAccepted p (commands.Unload name) told →
        (key_step_found (Some busy) p (commands.Unload name) told).reply ≡ Refused (Busy busy.dataset busy.count) }
{}
