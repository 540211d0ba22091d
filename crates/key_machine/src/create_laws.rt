// Laws of `create`.
ghost use Rattle.std.specs.Prelude.{◌≡◌, ℕ, ◌+◌, List, Some, true};
ghost use Rattle.std.specs.Option.{option_map};
ghost use Rattle.encryption_roots.specs.declared.props.Location.{Location};
ghost use Rattle.encryption_roots.specs.declared.props.Options.{Options};
ghost use Rattle.encryption_roots.specs.declared.command.KeyCmd.TheVariants as commands;
ghost use Rattle.encryption_roots.specs.ById.{at_id};
ghost use Rattle.key_machine.specs.Plain.{Plain};
ghost use Rattle.key_machine.specs.Reply.{Made};
ghost use Rattle.key_machine.specs.Create.{makes_root, new_props};
ghost use Rattle.key_machine.specs.Step.{key_step, IsAccepted};
ghost use Rattle.key_machine.specs.Told.{Told};

/// After an accepted create of a root its key is loaded, and its properties are those of the options.
pub fn a_new_root_has_its_key()
    ensures key { (p : Plain) (name : List ℕ) (opts : Options) (told : Told) → makes_root opts ≡ true
        → IsAccepted p (commands.Create name opts) told →
        at_id (p.tree.last + 1) (key_step p (commands.Create name opts) told).state.loaded ≡ Some told.key }
    ensures root { (p : Plain) (name : List ℕ) (opts : Options) (told : Told) → makes_root opts ≡ true
        → IsAccepted p (commands.Create name opts) told →
        at_id (p.tree.last + 1) (key_step p (commands.Create name opts) told).state.roots ≡ Some (new_props opts told) }
    ensures place { (p : Plain) (name : List ℕ) (opts : Options) (told : Told) (place : Location)
        → makes_root opts ≡ true → opts.place ≡ Some place → IsAccepted p (commands.Create name opts) told →
        option_map (λ props. props.place)
        (at_id (p.tree.last + 1) (key_step p (commands.Create name opts) told).state.roots) ≡ Some place }
    ensures made { (p : Plain) (name : List ℕ) (opts : Options) (told : Told)
        → IsAccepted p (commands.Create name opts) told →
        (key_step p (commands.Create name opts) told).reply ≡ Made (p.tree.last + 1) }
{}
