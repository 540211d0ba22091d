// What a line has fetched for its command. None of it has `Debug`, so that no key is printed.
ghost use Rattle.std.specs.Prelude.{◌≡◌, IfOk};

use crate::texts::Material;
use dataset_tree::NoMemory;

/// Key material that a command asked for.
#[derive(Drop)]
pub enum Fetched {
    /// The command asked for none.
    NotAsked,
    Got(Material),
    /// There is no such key file.
    Missing,
    /// It couldn't be read.
    Fault,
}

impl Fetched {
    /// An equal value.
    pub fn copy(&self) -> Result<Fetched, NoMemory>
        ensures { IfOk result (λ fetched. fetched ≡ self.now) }
    {
        Ok(match self {
            Fetched::NotAsked => Fetched::NotAsked,
            Fetched::Got(material) => Fetched::Got(material.copy()?),
            Fetched::Missing => Fetched::Missing,
            Fetched::Fault => Fetched::Fault,
        })
    }
}

/// The random bytes that a command asked for.
#[derive(Clone, Copy, PartialEq, Eq)]
pub enum SeedGot {
    /// The command asked for none.
    NotAsked,
    Got([u8; 32]),
    /// They couldn't be read.
    Fault,
}

/// What a line has fetched for its command.
#[derive(Drop)]
pub struct LineKit {
    /// The material of the present key.
    pub old_key: Fetched,
    /// The material of the key that the command gives or loads.
    pub new_key: Fetched,
    pub seed: SeedGot,
}

impl LineKit {
    /// An equal kit.
    pub fn copy(&self) -> Result<LineKit, NoMemory>
        ensures { IfOk result (λ kit. kit ≡ self.now) }
    {
        let old_key = self.old_key.copy()?;
        let new_key = self.new_key.copy()?;
        Ok(LineKit {
            old_key,
            new_key,
            seed: self.seed,
        })
    }
}
