// What options say of a key format.
ghost use Rattle.std.specs.Prelude.{◌≡◌};
ghost use Rattle.std.specs.Option.{option_copied};
ghost use Rattle.key_machine.specs.Change.{changed_format};
ghost use Rattle.key_machine.specs.Create.{is_passphrase};

use dataset_tree::Format;
use encryption_roots::{Options, Props};

/// The key format after a change: that of the options, else the dataset's own as a root.
pub fn changed_format(own: Option<&Props>, opts: &Options) -> Format
    ensures { result ≡ changed_format (option_copied own.entry) opts.now }
{
    match opts.format {
        Some(format) => format,
        None => match own {
            Some(props) => props.format,
            None => Format::Raw,
        },
    }
}

pub fn is_passphrase(format: Option<Format>) -> bool
    ensures { result ≡ is_passphrase format }
{
    format == Some(Format::Passphrase)
}
