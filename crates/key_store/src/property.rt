// What `get` shows of a dataset.
ghost use Rattle.std.specs.Prelude.{◌≡◌, IfOk};
ghost use Rattle.std.specs.Option.{option_map};
ghost use Rattle.encryption_roots.specs.ById.{at_id};
ghost use Rattle.encryption_roots.specs.Owners.{family};
ghost use Rattle.key_machine.specs.Get.{property_text};

use crate::state::KeyState;
use dataset_tree::NoMemory;
use encryption_roots::{Prop, PropText, family_of};
use key_reads::property_text;

impl KeyState {
    /// The value of a dataset's property, as `get` shows it. A plain dataset has `off` as its encryption and
    /// `-` as all else; key format, location and iterations are those of the encryption root.
    pub fn get_prop(&self, id: u32, prop: Prop) -> Result<PropText, NoMemory>
        ensures { IfOk result (λ text. text ≡ property_text self.now id prop) }
    {
        property_text(self.alloc, self, id, prop, self.record_size(id))
    }

    fn record_size(&self, id: u32) -> Option<u32>
        ensures { result ≡ option_map (λ stored. stored.block) (at_id (family self.now.tree.rows id) self.now.wrapped) }
    {
        let stored = self.record(family_of(&self.tree, id))?;
        Some(stored.block)
    }
}
