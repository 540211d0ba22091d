// The encryption roots.
ghost use Rattle.std.specs.Prelude.{◌≡◌, ◌<◌, ◌≤◌, length, [], None, is_some, IfOk, OnOk, OnErr};
ghost use Rattle.std.specs.Option.{option_copied};
ghost use Rattle.encryption_roots.specs.ById.{IsRisingById};
ghost use Rattle.encryption_roots.specs.Roots.{props_of, with_root, without_root};

use crate::by_id::{at_id, put_at_id, remove_at_id};
use crate::props::Props;
use dataset_tree::NoMemory;
use std::alloc::Global;
use std::marker::Model;

/// There is always room for so many roots, which is as many as a tree has datasets.
const ROOM: usize = 256;

/// The encryption roots with their properties: contracts see the list of (id, properties) in rising order of id.
#[derive(Debug, Drop)]
pub struct Roots {
    entries: Vec<(u32, Props)>,
}

impl Model for Roots {
    ghost use Rattle.std.specs.Prelude.{List, ℕ, ◌≤◌};
    ghost use Rattle.std.specs.Vec.{vec_capacity};
    ghost use Rattle.encryption_roots.specs.declared.props.Props.{Props as RootProps};
    ghost use Rattle.encryption_roots.specs.ById.{IsRisingById};

    ghost Value = { List (ℕ × RootProps) };

    ghost view = { λ roots. roots.entries.items };

    ghost invariant = { λ roots. IsRisingById roots.entries.items × (256 ≤ vec_capacity roots.entries) };
}

impl Roots {
    /// No roots, and room for 256.
    pub fn new(alloc: Global) -> Result<Roots, NoMemory>
        ensures { IfOk result (λ roots. roots ≡ []) }
    {
        let entries = Vec::with_capacity(alloc, ROOM)?;
        Ok(Roots { entries })
    }

    /// The properties of this root, if it is one.
    pub fn get(&self, id: u32) -> Option<&Props>
        ensures { option_copied result ≡ props_of id self.now }
    {
        at_id(self.entries.as_slice(), id)
    }

    /// Whether the dataset is a root.
    pub fn contains(&self, id: u32) -> bool
        ensures { result ≡ is_some (props_of id self.now) }
    {
        self.get(id).is_some()
    }

    /// Makes the dataset a root with these properties, or gives a root these in place of its own.
    ///
    /// # Errors
    /// `NoMemory` only for a new root, where there are 256 or more. Then the roots are as before.
    pub fn insert(&mut self, id: u32, props: Props) -> Result<(), NoMemory>
        ensures ok { OnOk result (self.new ≡ with_root id props self.old) }
        ensures new { OnErr result (props_of id self.old ≡ None) }
        ensures full { OnErr result (256 ≤ length self.old) }
        ensures err { OnErr result (self.new ≡ self.old) }
    {
        put_at_id(&mut self.entries, id, props)
    }

    /// Takes the dataset out of the roots, if it is one.
    pub fn remove(&mut self, id: u32)
        ensures { self.new ≡ without_root id self.old }
    {
        remove_at_id(&mut self.entries, id);
    }

    /// The roots with their properties, in rising order of id.
    pub fn entries(&self) -> &[(u32, Props)]
        ensures entries { result.now ≡ self.now }
        ensures rising { IsRisingById result.now }
    {
        self.entries.as_slice()
    }

    /// Equal roots.
    pub fn copy(&self) -> Result<Roots, NoMemory>
        ensures { IfOk result (λ roots. roots ≡ self.now) }
    {
        let mut entries = Vec::with_capacity(*self.entries.allocator(), ROOM)?;
        for (id, props) in &self.entries {
            entries.push((*id, props.copy()?))?;
        }
        Ok(Roots { entries })
    }
}
