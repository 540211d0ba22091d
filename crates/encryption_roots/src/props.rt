// The properties of encryption roots, and the options that set them.
ghost use Rattle.std.specs.Prelude.{◌≡◌, IfOk};
ghost use Rattle.encryption_roots.specs.Options.{no_options};

use crate::texts::PathText;
use dataset_tree::{Format, NoMemory, Suite};

/// Where the key of an encryption root is fetched.
#[derive(Debug, Drop)]
pub enum Location {
    /// From the next line of the script.
    Prompt,
    /// From a file.
    File(PathText),
}

impl Location {
    /// An equal location.
    pub fn copy(&self) -> Result<Location, NoMemory>
        ensures { IfOk result (λ location. location ≡ self.now) }
    {
        Ok(match self {
            Location::Prompt => Location::Prompt,
            Location::File(path) => Location::File(path.copy()?),
        })
    }
}

/// What an encryption root says of its wrapping key.
#[derive(Debug, Drop)]
pub struct Props {
    /// The form in which the key is given.
    pub format: Format,
    /// Where it is fetched.
    pub place: Location,
    /// The iterations of PBKDF2, 0 where the format is no passphrase.
    pub iters: u32,
    /// The salt of PBKDF2, 0 where the format is no passphrase.
    pub salt: u64,
}

impl Props {
    /// Equal properties.
    pub fn copy(&self) -> Result<Props, NoMemory>
        ensures { IfOk result (λ props. props ≡ self.now) }
    {
        let place = self.place.copy()?;
        Ok(Props {
            format: self.format,
            place,
            iters: self.iters,
            salt: self.salt,
        })
    }
}

/// The options of a command, each `None` where it is missing.
#[derive(Debug, Drop)]
pub struct Options {
    /// `encryption`
    pub suite: Option<Suite>,
    /// `keyformat`
    pub format: Option<Format>,
    /// `keylocation`
    pub place: Option<Location>,
    /// `pbkdf2iters`
    pub iters: Option<u64>,
    /// `recordsize` in bytes
    pub block: Option<u32>,
}

impl Options {
    /// Options of which each is missing.
    pub fn none() -> Options
        ensures { result ≡ no_options }
    {
        Options {
            suite: None,
            format: None,
            place: None,
            iters: None,
            block: None,
        }
    }

    /// Equal options.
    pub fn copy(&self) -> Result<Options, NoMemory>
        ensures { IfOk result (λ options. options ≡ self.now) }
    {
        let place = copy_place(&self.place)?;
        Ok(Options {
            suite: self.suite,
            format: self.format,
            place,
            iters: self.iters,
            block: self.block,
        })
    }
}

/// An equal location, where there is one.
pub(crate) fn copy_place(place: &Option<Location>) -> Result<Option<Location>, NoMemory>
    ensures { IfOk result (λ copied. copied ≡ place.now) }
{
    match place {
        None => Ok(None),
        Some(place) => Ok(Some(place.copy()?)),
    }
}

/// A property that `get` tells.
#[derive(Clone, Copy, Debug, PartialEq, Eq)]
pub enum Prop {
    KeyStatus,
    Encryption,
    EncryptionRoot,
    KeyFormat,
    KeyLocation,
    Pbkdf2Iters,
    RecordSize,
}
