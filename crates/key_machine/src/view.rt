// What new wrapping keys are planned from, and a plan of them.
ghost use Rattle.std.specs.Prelude.{◌≡◌};
ghost use Rattle.std.specs.Option.{option_map};
ghost use Rattle.encryption_roots.specs.ById.{at_id};
ghost use Rattle.key_machine.specs.Plain.{Plain};

use dataset_tree::{RecordBytes, Tree};
use encryption_roots::{Props, Roots};

/// The part of a keystore that new wrapping keys are planned from: it shows a plain state.
pub trait KeyView {
    /// The plain state.
    ghost shows: { Self → Plain };

    /// The datasets.
    fn tree(&self) -> &Tree
        ensures { result.now ≡ (shows self.now).tree };

    /// The encryption roots.
    fn roots(&self) -> &Roots
        ensures { result.now ≡ (shows self.now).roots };

    /// The key record of a family as it is stored, `None` where there is none.
    fn wrapped(&self, family: u32) -> Option<RecordBytes>
        ensures { result
            ≡ option_map (λ stored. stored.wrapped) (at_id family (shows self.now).wrapped) };

    /// The wrapping key of a root, `None` where it isn't loaded.
    fn loaded(&self, root: u32) -> Option<[u8; 32]>
        ensures { result ≡ at_id root (shows self.now).loaded };
}

/// What `change-key` or `change-key -i` sets.
#[derive(Drop)]
pub struct ChangePlan {
    /// The id of the dataset that becomes a root, stays one, or is one no longer.
    pub root: u32,
    /// Its properties as a root, `None` where it is one no longer.
    pub props: Option<Props>,
    /// Its wrapping key of 32 bytes, `None` where it is no root any longer.
    pub key: Option<[u8; 32]>,
    /// The key records that are written anew: ids of families, rising, with the stored bytes.
    pub wrapped: Vec<(u32, RecordBytes)>,
}
