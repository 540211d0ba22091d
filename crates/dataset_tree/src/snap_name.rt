// The names of snapshots.
ghost use Rattle.std.specs.Prelude.{◌≡◌, ◌==◌, ◌∷◌, ◌++◌, ◌≤◌, length, drop, not, IfOk};
ghost use Rattle.std.specs.List.{prefix_len};
ghost use Rattle.dataset_tree.specs.Refusal.{Gives};
ghost use Rattle.dataset_tree.specs.SnapName.{snap_named, at_sign};

use crate::name::{SetName, bad_name};
use crate::refusal::{NoMemory, Stop};
use crate::short_name::{SnapPart, part_fault};
use std::alloc::Global;

/// The name of a snapshot, as `tank/home@monday`: that of its dataset, and the part behind the `@`.
#[derive(Debug, Drop)]
pub struct SnapName {
    pub set: SetName,
    pub snap: SnapPart,
}

impl SnapName {
    /// The name that this text spells.
    ///
    /// # Errors
    /// `BadName` with the offset in the text of the first byte that can't stand there, where it isn't in form: it has
    /// exactly one `@`.
    pub fn parse(alloc: Global, bytes: &[u8]) -> Result<SnapName, Stop>
        ensures named { Gives result (snap_named bytes.now) }
        ensures spelled { IfOk result (λ name. name.set ++ at_sign ∷ name.snap ≡ bytes.now) }
    {
        let sign = sign_in(bytes);
        let set = SetName::parse(alloc, &bytes[..sign])?;
        if sign >= bytes.len() {
            return Err(bad_name(sign));
        }
        let part = rest_from(bytes, sign + 1);
        if let Some(at) = part_fault(part) {
            return Err(bad_name(sign + 1 + at));
        }
        let snap = SnapPart::parse(alloc, part)?;
        Ok(SnapName { set, snap })
    }

    /// An equal name.
    pub fn copy(&self) -> Result<SnapName, NoMemory>
        ensures { IfOk result (λ name. name ≡ self.now) }
    {
        let set = self.set.copy()?;
        let snap = self.snap.copy()?;
        Ok(SnapName { set, snap })
    }
}

/// The offset of the first `@`, or the text's length.
fn sign_in(text: &[u8]) -> usize
    ensures { result ≡ prefix_len (λ b. not (b == at_sign)) text.now }
{
    text.iter().take_while(|byte| **byte != b'@').count()
}

/// What stands from this offset on.
fn rest_from(text: &[u8], at: usize) -> &[u8]
    requires { at ≤ length text.now }
    ensures { result.now ≡ drop at text.now }
{
    text.split_at(at).1
}
