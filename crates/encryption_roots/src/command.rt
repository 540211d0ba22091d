// The commands of the keystore.
ghost use Rattle.std.specs.Prelude.{◌≡◌, IfOk};

use crate::props::{Location, Options, Prop, Props, copy_place};
use dataset_tree::{NoMemory, RecordBytes, SetName};

/// A command to the keystore. `name` is the dataset that it is about, which `Create`, `Clone` and `Receive` make.
#[derive(Debug, Drop)]
pub enum KeyCmd {
    Create {
        name: SetName,
        opts: Options,
    },
    /// Loads the key of a root, or with `check_only` only tests it. `place` takes the place of the root's location.
    Load {
        name: SetName,
        check_only: bool,
        place: Option<Location>,
    },
    Unload {
        name: SetName,
    },
    /// Gives the dataset a key of its own. `load_first` fetches the present key where it isn't loaded.
    Change {
        name: SetName,
        opts: Options,
        load_first: bool,
    },
    /// Lets a root use its parent's key. `load_first` fetches the present key where it isn't loaded.
    Inherit {
        name: SetName,
        load_first: bool,
    },
    Mount {
        name: SetName,
    },
    Unmount {
        name: SetName,
    },
    Get {
        name: SetName,
        prop: Prop,
    },
    /// Makes a clone of a snapshot of `from`.
    Clone {
        from: SetName,
        name: SetName,
    },
    /// Makes a dataset of a stream's properties, key record and record size.
    Receive {
        name: SetName,
        props: Props,
        wrapped: RecordBytes,
        block: u32,
    },
    /// `snaps` says whether the dataset has snapshots.
    Destroy {
        name: SetName,
        snaps: bool,
    },
}

impl KeyCmd {
    /// An equal command.
    pub fn copy(&self) -> Result<KeyCmd, NoMemory>
        ensures { IfOk result (λ command. command ≡ self.now) }
    {
        Ok(match self {
            KeyCmd::Create { name, opts } => KeyCmd::Create {
                name: name.copy()?,
                opts: opts.copy()?,
            },
            KeyCmd::Load {
                name,
                check_only,
                place,
            } => KeyCmd::Load {
                name: name.copy()?,
                check_only: *check_only,
                place: copy_place(place)?,
            },
            KeyCmd::Unload { name } => KeyCmd::Unload { name: name.copy()? },
            KeyCmd::Change {
                name,
                opts,
                load_first,
            } => KeyCmd::Change {
                name: name.copy()?,
                opts: opts.copy()?,
                load_first: *load_first,
            },
            KeyCmd::Inherit { name, load_first } => KeyCmd::Inherit {
                name: name.copy()?,
                load_first: *load_first,
            },
            KeyCmd::Mount { name } => KeyCmd::Mount { name: name.copy()? },
            KeyCmd::Unmount { name } => KeyCmd::Unmount { name: name.copy()? },
            KeyCmd::Get { name, prop } => KeyCmd::Get {
                name: name.copy()?,
                prop: *prop,
            },
            KeyCmd::Clone { from, name } => KeyCmd::Clone {
                from: from.copy()?,
                name: name.copy()?,
            },
            KeyCmd::Receive {
                name,
                props,
                wrapped,
                block,
            } => KeyCmd::Receive {
                name: name.copy()?,
                props: props.copy()?,
                wrapped: *wrapped,
                block: *block,
            },
            KeyCmd::Destroy { name, snaps } => KeyCmd::Destroy {
                name: name.copy()?,
                snaps: *snaps,
            },
        })
    }
}
