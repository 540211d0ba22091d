// Laws of slots: a keeper and a keystore that agree.
ghost use Rattle.std.specs.Prelude.{ℕ, Bool, Option, List};
ghost use Rattle.encryption_roots.specs.declared.command.KeyCmd.TheVariants as commands;
ghost use Rattle.encryption_roots.specs.declared.props.Location.{Location};
ghost use Rattle.encryption_roots.specs.declared.props.Options.{Options};
ghost use Rattle.encryption_roots.specs.declared.props.Prop.{Prop};
ghost use Rattle.mapping_words.specs.Told.{Told, fresh};
ghost use Rattle.key_machine.specs.Plain.{Plain, no_keys};
ghost use Rattle.key_machine.specs.Step.{key_step};
ghost use Rattle.key_machine.specs.Told.{Told as KeyTold};
ghost use Rattle.key_store.specs.Agrees.{Agrees};

/// A keeper of 256 slots that were never opened agrees with a host that holds nothing: a law, which does nothing.
pub fn fresh_keepers_agree()
    ensures { Agrees (fresh 256) no_keys }
{}

/// A command that changes no mapping leaves a keeper that agreed in agreement, whatever it is told: a law, which does
/// nothing.
pub fn key_commands_leave_the_slots()
    ensures create { (t : Told) (p : Plain) (name : List ℕ) (opts : Options) (told : KeyTold) → Agrees t p
        → Agrees t (key_step p (commands.Create name opts) told).state }
    ensures load { (t : Told) (p : Plain) (name : List ℕ) (check_only : Bool) (place : Option Location) (told : KeyTold)
        → Agrees t p → Agrees t (key_step p (commands.Load name check_only place) told).state }
    ensures get { (t : Told) (p : Plain) (name : List ℕ) (prop : Prop) (told : KeyTold) → Agrees t p
        → Agrees t (key_step p (commands.Get name prop) told).state }
    ensures change { (t : Told) (p : Plain) (name : List ℕ) (opts : Options) (load_first : Bool) (told : KeyTold)
        → Agrees t p → Agrees t (key_step p (commands.Change name opts load_first) told).state }
    ensures inherit { (t : Told) (p : Plain) (name : List ℕ) (load_first : Bool) (told : KeyTold) → Agrees t p
        → Agrees t (key_step p (commands.Inherit name load_first) told).state }
{}
