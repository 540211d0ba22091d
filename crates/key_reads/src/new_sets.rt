// What a new dataset gets: from its parent, from the options and from the words of a seed.
ghost use Rattle.std.specs.Prelude.{◌≡◌, ◌≤◌, true, false, unwrap_or, Some, Ok, IfOk};
ghost use Rattle.std.specs.Option.{option_copied, option_and_then};
ghost use Rattle.encryption_roots.specs.ById.{at_id};
ghost use Rattle.encryption_roots.specs.Props.{KeepsIterations};
ghost use Rattle.encryption_roots.specs.declared.props.Location.{Location};
ghost use Rattle.key_machine.specs.Create.{parent_row, parent_key, is_passphrase, are_bad_iterations, new_suite, parent_suite, new_iters, new_salt};
ghost use Rattle.key_machine.specs.Plain.{owner_of};
ghost use Rattle.key_ciphers.specs.Ciphers.{ciphers};

use crate::lookup::{parent_row, suite_of};
use crate::places::place_or_prompt;
use dataset_tree::{Format, NoMemory, SetName, Suite};
use encryption_roots::{Options, Props, owner_of};
use key_ciphers::{is_passphrase, seeded_salt};
use key_formats::DEFAULT_ITERATIONS;
use key_machine::KeyView;
use salt_rotation::SeedWords;

/// The key of the parent's owner, and zeros where it isn't loaded.
pub fn parent_key<V: KeyView>(state: &V, name: &SetName) -> [u8; 32]
    ensures { result ≡ parent_key (V.shows state.now) (parent_row (V.shows state.now) name.now) }
{
    match loaded_above(state, name) {
        None => [0; 32],
        Some(key) => key,
    }
}

fn loaded_above<V: KeyView>(state: &V, name: &SetName) -> Option<[u8; 32]>
    ensures { result
        ≡ option_and_then (λ root. at_id root (V.shows state.now).loaded)
        (option_and_then (λ parent. owner_of (V.shows state.now) parent.id)
        (parent_row (V.shows state.now) name.now)) }
{
    let parent = parent_row(state, name)?;
    let root = owner_of(state.tree(), state.roots(), parent.id)?;
    state.loaded(root)
}

/// The suite of a new encrypted dataset: that of the options, else the parent's, else aes-256-gcm.
pub fn new_suite<V: KeyView>(state: &V, name: &SetName, opts: &Options) -> Suite
    ensures { result ≡ new_suite (V.shows state.now) name.now opts.now }
{
    match opts.suite {
        Some(suite) => suite,
        None => parent_suite(state, name).unwrap_or(Suite::Aes256Gcm),
    }
}

fn parent_suite<V: KeyView>(state: &V, name: &SetName) -> Option<Suite>
    ensures { result ≡ parent_suite (V.shows state.now) (parent_row (V.shows state.now) name.now) }
{
    let parent = parent_row(state, name)?;
    suite_of(state, parent.id)
}

/// The properties of a new root.
///
/// # Errors
/// `NoMemory` where an allocation is refused.
pub fn new_props(format: Format, opts: &Options, seed: &SeedWords) -> Result<Props, NoMemory>
    requires root { opts.now.format ≡ Some format }
    requires iterations { are_bad_iterations opts.now.iters ≡ false }
    ensures props { IfOk result (λ props. props
        ≡ record {
          format = format;
          place = unwrap_or opts.now.place Location.Prompt;
          iters = new_iters opts.now;
          salt = new_salt ciphers opts.now (Ok seed.now);
        }) }
    ensures kept { IfOk result KeepsIterations }
{
    let place = place_or_prompt(opts.place.as_ref())?;
    let (iters, salt) = match format {
        Format::Raw | Format::Hex => (0, 0),
        Format::Passphrase => (new_iters(opts), seeded_salt(seed)),
    };
    Ok(Props {
        format,
        place,
        iters,
        salt,
    })
}

/// The iterations of a new root's key, 0 where the format is no passphrase.
pub fn new_iters(opts: &Options) -> u32
    requires { are_bad_iterations opts.now.iters ≡ false }
    ensures iters { result ≡ new_iters opts.now }
    ensures within { is_passphrase opts.now.format ≡ true → (100000 ≤ result) × (result ≤ 10000000) }
{
    if is_passphrase(opts.format) {
        opts.iters.unwrap_or(u64::from(DEFAULT_ITERATIONS)) as u32
    } else {
        0
    }
}
