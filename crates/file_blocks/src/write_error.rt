// Why an object's bytes couldn't be changed.
use indirect_macs::MacError;

/// Why a write or a cut couldn't be carried out.
#[derive(Clone, Copy, Debug, PartialEq, Eq)]
pub enum WriteError {
    /// A block or a node failed its test, a call of the shelf failed, the shelf is full, or memory ran
    /// out.
    Stopped(MacError),
    /// The salts have fewer draws left than blocks would be sealed.
    DrawsFull,
}
