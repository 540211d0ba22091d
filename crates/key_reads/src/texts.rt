// Texts of single values.
ghost use Rattle.std.specs.Prelude.{◌≡◌, ◌++◌, decimal, OnOk};
ghost use Rattle.std.specs.Option.{option_copied, option_map_or};
ghost use Rattle.dataset_tree.specs.Suite.{suite_name};
ghost use Rattle.key_machine.specs.Get.{plain_text, format_text, place_text, status_text, none_text};

use dataset_tree::{Format, NoMemory, Suite};
use encryption_roots::{Location, Prop, Props};
use itoa::Buffer;

/// What is shown where a dataset has no value.
pub(crate) const NO_VALUE: &[u8] = b"-";

pub(crate) fn plain_text(prop: Prop) -> &'static [u8]
    ensures { result.now ≡ plain_text prop }
{
    match prop {
        Prop::Encryption => b"off",
        Prop::KeyStatus
        | Prop::EncryptionRoot
        | Prop::KeyFormat
        | Prop::KeyLocation
        | Prop::Pbkdf2Iters
        | Prop::RecordSize => NO_VALUE,
    }
}

pub(crate) fn status_text(is_available: bool) -> &'static [u8]
    ensures { result.now ≡ status_text is_available }
{
    if is_available {
        b"available"
    } else {
        b"unavailable"
    }
}

pub(crate) fn suite_text(suite: Option<Suite>) -> &'static [u8]
    ensures { result.now ≡ option_map_or suite_name suite none_text }
{
    match suite {
        None => NO_VALUE,
        Some(suite) => suite.name().as_bytes(),
    }
}

pub(crate) fn format_text(props: Option<&Props>) -> &'static [u8]
    ensures { result.now ≡ option_map_or (λ own. format_text own.format) (option_copied props.entry) none_text }
{
    match props {
        None => NO_VALUE,
        Some(props) => match props.format {
            Format::Raw => b"raw",
            Format::Hex => b"hex",
            Format::Passphrase => b"passphrase",
        },
    }
}

/// Adds the location of a root's key.
pub(crate) fn push_place(text: &mut Vec<u8>, props: Option<&Props>) -> Result<(), NoMemory>
    ensures { OnOk result (text.new.items ≡ text.old.items
        ++ option_map_or (λ own. place_text own.place) (option_copied props.entry) none_text) }
{
    match props {
        None => text.extend_from_slice(NO_VALUE),
        Some(props) => match &props.place {
            Location::Prompt => text.extend_from_slice(b"prompt"),
            Location::File(path) => {
                text.extend_from_slice(b"file://")?;
                text.extend_from_slice(path.as_bytes())
            }
        },
    }
}

/// Adds a number in decimal digits.
pub(crate) fn push_number(text: &mut Vec<u8>, number: Option<u32>) -> Result<(), NoMemory>
    ensures { OnOk result (text.new.items ≡ text.old.items ++ option_map_or decimal number none_text) }
{
    match number {
        None => text.extend_from_slice(NO_VALUE),
        Some(number) => {
            let mut buffer = Buffer::new();
            text.extend_from_slice(buffer.format(number).as_bytes())
        }
    }
}
