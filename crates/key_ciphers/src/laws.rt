// The law of the ciphers.
ghost use Rattle.key_machine.specs.Fair.{AreSound};
ghost use Rattle.key_ciphers.specs.Ciphers.{ciphers};

/// The ciphers keep what the machine asks of them: a record that is made opens to its master key, and keys
/// have 32 bytes.
pub fn the_ciphers_are_sound()
    ensures { AreSound ciphers }
{}
