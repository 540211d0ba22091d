// What blocks are sealed with.
ghost use Rattle.std.specs.Prelude.{◌≡◌, ◌++◌, length, drop};
ghost use Rattle.dataset_tree.specs.Suite.{suite_key_len};
ghost use Rattle.block_crypt.specs.Blocks.{IsWhole, KeyValue, block_key};

use dataset_tree::Suite;
use hmac_hkdf::hkdf512;
use wrapped_keys::MasterKey;

/// A suite and a master key, which has as many bytes as the suite's keys.
pub trait BlockKey {
    ghost told: { Self → KeyValue };

    /// The suite in whose mode blocks are sealed.
    fn suite(&self) -> Suite
        ensures { result ≡ (told self.now).suite };

    /// Writes the master key to the front of `out`. The bytes behind it stay.
    fn master(&self, out: &mut [u8; 32])
        ensures written { out.new ≡ (told self.now).master ++ drop (length (told self.now).master) out.old }
        ensures whole { IsWhole (told self.now) };
}

impl BlockKey for MasterKey {
    ghost told = { λ key. record { suite = key.suite; master = key.master } };

    fn suite(&self) -> Suite {
        MasterKey::suite(self)
    }

    fn master(&self, out: &mut [u8; 32]) {
        let master = MasterKey::master(self);
        out[..master.len()].copy_from_slice(master);
    }
}

/// Writes the key of the blocks with this salt, which has as many bytes as the suite's keys.
pub(crate) fn write_block_key<K: BlockKey>(key: &K, salt: &[u8; 8], out: &mut [u8])
    requires { length out.old ≡ suite_key_len (K.told key.now).suite }
    ensures { out.new ≡ block_key (K.told key.now) salt.now }
{
    let mut master = [0; 32];
    key.master(&mut master);
    hkdf512(&master[..out.len()], salt, out);
}
