// The key that a change gives to a dataset, and its properties.
ghost use Rattle.std.specs.Prelude.{◌≡◌, ℕ, ◌≤◌, Ok, Some, IfOk, false};
ghost use Rattle.std.specs.Option.{option_copied};
ghost use Rattle.key_machine.specs.Change.{changed_format, changed_place, changed_iters, changed_salt, changed_props, kept_iters};
ghost use Rattle.key_machine.specs.Create.{is_passphrase, are_bad_iterations};
ghost use Rattle.key_machine.specs.Told.{key_of, seed_of};
ghost use Rattle.key_ciphers.specs.Ciphers.{ciphers};
ghost use Rattle.change_key.specs.Keys.{IsNewKey, StopsAt, new_key_of, first_fault, salt_for};

use dataset_tree::{Format, NoMemory, Stop};
use encryption_roots::{LineKit, Location, Options, Props};
use key_ciphers::{changed_format, fetched_key, is_passphrase, seed_behind_key, seeded_salt};
use key_formats::DEFAULT_ITERATIONS;
use salt_rotation::SeedWords;

/// The key of a dataset from a change on, with its properties and the seed of the line.
#[derive(Drop)]
pub(crate) struct NewKey {
    pub(crate) props: Props,
    pub(crate) key: [u8; 32],
    pub(crate) seed: [u8; 32],
}

/// What the material and the seed of a line make of a dataset with these properties of its own. A
/// fault of the material comes before one of the seed, and no key is derived before both are had.
pub(crate) fn new_key(own: Option<&Props>, opts: &Options, kit: &LineKit) -> Result<NewKey, Stop>
    requires iterations { are_bad_iterations opts.now.iters ≡ false }
    ensures key { IfOk result
        (λ new. IsNewKey ciphers (option_copied own.entry) opts.now kit.now new) }
    ensures fault { StopsAt result
        (first_fault (new_key_of ciphers (option_copied own.entry) opts.now kit.now)
        (seed_of kit.now.seed)) }
{
    let format = changed_format(own, opts);
    let iters = changed_iters(own, opts);
    let seed = match seed_behind_key(format, iters, kit) {
        Ok(seed) => seed,
        Err(why) => return Err(Stop::Refused(why)),
    };
    let salt = changed_salt(format, &SeedWords::new(seed));
    let key = match fetched_key(format, iters, salt, &kit.new_key) {
        Ok(key) => key,
        Err(why) => return Err(Stop::Refused(why)),
    };
    let place = changed_place(own, opts)?;
    let props = Props {
        format,
        place,
        iters,
        salt,
    };
    Ok(NewKey { props, key, seed })
}

fn changed_place(own: Option<&Props>, opts: &Options) -> Result<Location, NoMemory>
    ensures { IfOk result (λ place. place ≡ changed_place (option_copied own.entry) opts.now) }
{
    match &opts.place {
        Some(place) => place.copy(),
        None => match own {
            Some(props) => props.place.copy(),
            None => Ok(Location::Prompt),
        },
    }
}

/// The iterations of a passphrase: those of the options, else those of a present passphrase. 0 for
/// another format.
fn changed_iters(own: Option<&Props>, opts: &Options) -> u32
    requires { are_bad_iterations opts.now.iters ≡ false }
    ensures { result ≡ changed_iters (option_copied own.entry) opts.now }
{
    if !is_passphrase(Some(changed_format(own, opts))) {
        return 0;
    }
    match opts.iters {
        Some(iters) => iters as u32,
        None => kept_iters(own),
    }
}

fn kept_iters(own: Option<&Props>) -> u32
    ensures { result ≡ kept_iters (option_copied own.entry) }
{
    match own {
        Some(props) if is_passphrase(Some(props.format)) => props.iters,
        _ => DEFAULT_ITERATIONS,
    }
}

/// A new salt for a passphrase, and 0 for another format.
fn changed_salt(format: Format, seed: &SeedWords) -> u64
    ensures { result ≡ salt_for ciphers format seed.now }
{
    if is_passphrase(Some(format)) {
        seeded_salt(seed)
    } else {
        0
    }
}
