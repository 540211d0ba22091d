// What kinds of datasets, keys and ciphers there are.
ghost use Rattle.std.specs.Prelude.{◌≡◌};
ghost use Rattle.dataset_tree.specs.Suite.{suite_number, suite_numbered, suite_name, suite_key_len};

/// Whether a dataset is stored in the clear or encrypted.
#[derive(Clone, Copy, Debug, PartialEq, Eq)]
pub enum Kind {
    Plain,
    Crypt,
}

/// The form in which the user gives the wrapping key of an encryption root.
#[derive(Clone, Copy, Debug, PartialEq, Eq)]
pub enum Format {
    /// 32 bytes as they are.
    Raw,
    /// 64 hexadecimal digits.
    Hex,
    /// 8 to 512 bytes, from which the key is derived.
    Passphrase,
}

/// The cipher and the mode of operation of an encrypted dataset.
#[derive(Clone, Copy, Debug, PartialEq, Eq)]
pub enum Suite {
    Aes128Gcm,
    Aes192Gcm,
    Aes256Gcm,
}

impl Suite {
    /// The number by which stored forms name the suite.
    pub fn number(self) -> u8
        ensures { result ≡ suite_number self }
    {
        match self {
            Suite::Aes128Gcm => 6,
            Suite::Aes192Gcm => 7,
            Suite::Aes256Gcm => 8,
        }
    }

    /// The suite of a number, if one has it.
    pub fn from_number(number: u8) -> Option<Suite>
        ensures { result ≡ suite_numbered number }
    {
        match number {
            6 => Some(Suite::Aes128Gcm),
            7 => Some(Suite::Aes192Gcm),
            8 => Some(Suite::Aes256Gcm),
            _ => None,
        }
    }

    /// The name of the suite in commands and replies.
    pub fn name(self) -> &'static str
        ensures { result.now ≡ suite_name self }
    {
        match self {
            Suite::Aes128Gcm => "aes-128-gcm",
            Suite::Aes192Gcm => "aes-192-gcm",
            Suite::Aes256Gcm => "aes-256-gcm",
        }
    }

    /// How many bytes the suite's keys have.
    pub fn key_len(self) -> usize
        ensures { result ≡ suite_key_len self }
    {
        match self {
            Suite::Aes128Gcm => 16,
            Suite::Aes192Gcm => 24,
            Suite::Aes256Gcm => 32,
        }
    }
}
