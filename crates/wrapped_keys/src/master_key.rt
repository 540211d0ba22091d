// Master keys.
ghost use Rattle.std.specs.Prelude.{◌≡◌, length};
ghost use Rattle.dataset_tree.specs.Suite.{suite_key_len};

use dataset_tree::Suite;
use std::marker::Model;

/// The most bytes of a master key.
const MAX_KEY_LEN: usize = 32;

/// The keys of a family of datasets: the master key, which has as many bytes as the suite's keys,
/// and the HMAC key.
#[derive(Clone, Copy, PartialEq, Eq)]
pub struct MasterKey {
    guid: u64,
    suite: Suite,
    master: [u8; 32],
    hmac: [u8; 64],
}

impl Model for MasterKey {
    ghost use Rattle.wrapped_keys.specs.Values.{MasterValue};

    ghost Value = { MasterValue };

    ghost use Rattle.wrapped_keys.specs.PaddedKey.{IsPaddedKey, key_value, padded_key, padded_key-value};

    ghost view = { key_value };

    ghost invariant = { IsPaddedKey };

    ghost inverse = { padded_key };

    ghost inverse_ok = { padded_key-value };
}

impl MasterKey {
    /// The keys of this guid and suite. `master` has as many bytes as the suite's keys.
    pub fn new(guid: u64, suite: Suite, master: &[u8], hmac: [u8; 64]) -> MasterKey
        requires { length master.now ≡ suite_key_len suite }
        ensures { result ≡ record { guid = guid; suite = suite; master = master.now; hmac = hmac } }
    {
        let mut padded = [0; MAX_KEY_LEN];
        padded[..master.len()].copy_from_slice(master);
        MasterKey {
            guid,
            suite,
            master: padded,
            hmac,
        }
    }

    /// The number that names the keys.
    pub fn guid(&self) -> u64
        ensures { result ≡ self.now.guid }
    {
        self.guid
    }

    /// The suite under which the master key is used.
    pub fn suite(&self) -> Suite
        ensures { result ≡ self.now.suite }
    {
        self.suite
    }

    /// The bytes of the master key, as many as the suite's keys have.
    pub fn master(&self) -> &[u8]
        ensures bytes { result.now ≡ self.now.master }
        ensures whole { length result.now ≡ suite_key_len self.now.suite }
    {
        &self.master[..self.suite.key_len()]
    }

    /// The bytes of the HMAC key.
    pub fn hmac(&self) -> &[u8; 64]
        ensures { result.now ≡ self.now.hmac }
    {
        &self.hmac
    }
}
