// The options of commands, and the words that spell them.
ghost use Rattle.std.specs.Prelude.{◌≡◌, ◌≤◌, IfOk, MatchOption, length};
ghost use Rattle.std.specs.declared.option.Option.TheVariants.{Some as Found, None as Missing};
ghost use Rattle.std.specs.Option.{option_copied};
ghost use Rattle.shell_lines.specs.Settings.{dash, key, kind_of, with_setting, with_place, behind, decimal_of, number_of, location_of, suite_value, format_value, place_value, iterations_value, record_size_value, key_value, load_from, lone_setting, setting_of, options_with, load_place};

use dataset_tree::{Format, Suite};
use encryption_roots::{Location, Options, PathText};
use std::alloc::{AllocError, Global};

/// The kinds of options.
#[derive(Clone, Copy, Debug, PartialEq, Eq)]
pub(crate) enum OptionKind {
    /// `-o encryption=SUITE`
    Encryption,
    /// `-o keyformat=FORMAT`
    KeyFormat,
    /// `-o keylocation=LOC`
    KeyLocation,
    /// `-o pbkdf2iters=NUM`
    Iterations,
    /// `-o recordsize=BYTES`
    RecordSize,
    /// `-n`
    CheckOnly,
    /// `-L LOC`
    LoadFrom,
    /// `-r`
    Recursive,
    /// `-a`
    AllRoots,
    /// `-l`
    LoadFirst,
    /// `-i`
    Inherit,
}

impl OptionKind {
    /// The word that begins an option of this kind.
    pub(crate) fn dash(self) -> &'static [u8]
        ensures { result.now ≡ dash self }
    {
        match self {
            OptionKind::Encryption
            | OptionKind::KeyFormat
            | OptionKind::KeyLocation
            | OptionKind::Iterations
            | OptionKind::RecordSize => b"-o",
            OptionKind::CheckOnly => b"-n",
            OptionKind::LoadFrom => b"-L",
            OptionKind::Recursive => b"-r",
            OptionKind::AllRoots => b"-a",
            OptionKind::LoadFirst => b"-l",
            OptionKind::Inherit => b"-i",
        }
    }

    /// What tells this kind from the others.
    pub(crate) fn key(self) -> &'static [u8]
        ensures { result.now ≡ key self }
    {
        match self {
            OptionKind::Encryption => b"encryption",
            OptionKind::KeyFormat => b"keyformat",
            OptionKind::KeyLocation => b"keylocation",
            OptionKind::Iterations => b"pbkdf2iters",
            OptionKind::RecordSize => b"recordsize",
            OptionKind::CheckOnly => b"-n",
            OptionKind::LoadFrom => b"-L",
            OptionKind::Recursive => b"-r",
            OptionKind::AllRoots => b"-a",
            OptionKind::LoadFirst => b"-l",
            OptionKind::Inherit => b"-i",
        }
    }
}

/// What an option sets.
#[derive(Debug, Drop)]
pub(crate) enum Setting {
    Encryption(Suite),
    KeyFormat(Format),
    KeyLocation(Location),
    /// Of PBKDF2.
    Iterations(u64),
    /// In bytes.
    RecordSize(u32),
    /// The key is tested and not kept.
    CheckOnly,
    /// Where the key is fetched in place of the root's own location.
    LoadFrom(Location),
    /// The dataset and those below it.
    Recursive,
    /// All datasets.
    AllRoots,
    /// The present key is fetched where it isn't loaded.
    LoadFirst,
    /// The key of the parent is used.
    Inherit,
}

impl Setting {
    /// The kind of option that sets this.
    pub(crate) fn kind(&self) -> OptionKind
        ensures { result ≡ kind_of self.now }
    {
        match self {
            Setting::Encryption(_) => OptionKind::Encryption,
            Setting::KeyFormat(_) => OptionKind::KeyFormat,
            Setting::KeyLocation(_) => OptionKind::KeyLocation,
            Setting::Iterations(_) => OptionKind::Iterations,
            Setting::RecordSize(_) => OptionKind::RecordSize,
            Setting::CheckOnly => OptionKind::CheckOnly,
            Setting::LoadFrom(_) => OptionKind::LoadFrom,
            Setting::Recursive => OptionKind::Recursive,
            Setting::AllRoots => OptionKind::AllRoots,
            Setting::LoadFirst => OptionKind::LoadFirst,
            Setting::Inherit => OptionKind::Inherit,
        }
    }

    /// The options with this setting in place of what they said of it.
    pub(crate) fn put_into(self, options: Options) -> Options
        ensures { result ≡ with_setting options self }
    {
        match self {
            Setting::Encryption(suite) => Options {
                suite: Some(suite),
                ..options
            },
            Setting::KeyFormat(format) => Options {
                format: Some(format),
                ..options
            },
            Setting::KeyLocation(place) => Options {
                place: Some(place),
                ..options
            },
            Setting::Iterations(count) => Options {
                iters: Some(count),
                ..options
            },
            Setting::RecordSize(size) => Options {
                block: Some(size),
                ..options
            },
            Setting::CheckOnly
            | Setting::LoadFrom(_)
            | Setting::Recursive
            | Setting::AllRoots
            | Setting::LoadFirst
            | Setting::Inherit => options,
        }
    }

    /// The location that `-L` sets, in place of this one.
    fn put_place(self, place: Option<Location>) -> Option<Location>
        ensures { result ≡ with_place place self }
    {
        match self {
            Setting::LoadFrom(other) => Some(other),
            _ => place,
        }
    }
}

/// The setting that an option's words spell: the word that begins it, and the one behind, where it has one.
pub(crate) fn parse_setting(
    alloc: Global,
    first: &[u8],
    value: Option<&[u8]>,
) -> Result<Option<Setting>, AllocError>
    ensures { IfOk result (λ setting. setting ≡ setting_of first.now (option_copied value.entry)) }
{
    let Some(value) = value else {
        return Ok(parse_lone(first));
    };
    if first == b"-o".as_slice() {
        return parse_key_value(alloc, value);
    }
    if first == b"-L".as_slice() {
        return load_from(alloc, value);
    }
    Ok(None)
}

/// The setting that a word spells without another one behind it.
fn parse_lone(word: &[u8]) -> Option<Setting>
    ensures { result ≡ lone_setting word.now }
{
    if word == b"-n".as_slice() {
        return Some(Setting::CheckOnly);
    }
    if word == b"-r".as_slice() {
        return Some(Setting::Recursive);
    }
    if word == b"-a".as_slice() {
        return Some(Setting::AllRoots);
    }
    if word == b"-l".as_slice() {
        return Some(Setting::LoadFirst);
    }
    if word == b"-i".as_slice() {
        return Some(Setting::Inherit);
    }
    None
}

/// The setting that a word KEY=VALUE spells.
fn parse_key_value(alloc: Global, word: &[u8]) -> Result<Option<Setting>, AllocError>
    ensures { IfOk result (λ setting. setting ≡ key_value word.now) }
{
    if let Some(value) = behind(b"encryption=", word) {
        return Ok(suite_value(value));
    }
    if let Some(value) = behind(b"keyformat=", word) {
        return Ok(format_value(value));
    }
    if let Some(value) = behind(b"keylocation=", word) {
        return place_value(alloc, value);
    }
    if let Some(value) = behind(b"pbkdf2iters=", word) {
        return Ok(iterations_value(value));
    }
    if let Some(value) = behind(b"recordsize=", word) {
        return Ok(record_size_value(value));
    }
    Ok(None)
}

/// What stands behind a front in a text.
fn behind<'a>(front: &[u8], text: &'a [u8]) -> Option<&'a [u8]>
    ensures { MatchOption result (behind front.now text.now ≡ Missing) (λ value. behind front.now text.now
        ≡ Found value.now) }
{
    text.strip_prefix(front)
}

fn suite_value(value: &[u8]) -> Option<Setting>
    ensures { result ≡ suite_value value.now }
{
    if value == b"on".as_slice() || value == b"aes-256-gcm".as_slice() {
        return Some(Setting::Encryption(Suite::Aes256Gcm));
    }
    if value == b"aes-192-gcm".as_slice() {
        return Some(Setting::Encryption(Suite::Aes192Gcm));
    }
    if value == b"aes-128-gcm".as_slice() {
        return Some(Setting::Encryption(Suite::Aes128Gcm));
    }
    None
}

fn format_value(value: &[u8]) -> Option<Setting>
    ensures { result ≡ format_value value.now }
{
    if value == b"raw".as_slice() {
        return Some(Setting::KeyFormat(Format::Raw));
    }
    if value == b"hex".as_slice() {
        return Some(Setting::KeyFormat(Format::Hex));
    }
    if value == b"passphrase".as_slice() {
        return Some(Setting::KeyFormat(Format::Passphrase));
    }
    None
}

fn place_value(alloc: Global, value: &[u8]) -> Result<Option<Setting>, AllocError>
    ensures { IfOk result (λ setting. setting ≡ place_value value.now) }
{
    Ok(location_of(alloc, value)?.map(Setting::KeyLocation))
}

fn load_from(alloc: Global, word: &[u8]) -> Result<Option<Setting>, AllocError>
    ensures { IfOk result (λ setting. setting ≡ load_from word.now) }
{
    Ok(location_of(alloc, word)?.map(Setting::LoadFrom))
}

/// The location that a word spells: `prompt`, or `file://` and a path.
fn location_of(alloc: Global, word: &[u8]) -> Result<Option<Location>, AllocError>
    ensures { IfOk result (λ location. location ≡ location_of word.now) }
{
    if word == b"prompt".as_slice() {
        return Ok(Some(Location::Prompt));
    }
    let Some(path) = behind(b"file://", word) else {
        return Ok(None);
    };
    Ok(PathText::parse(alloc, path)?.map(Location::File))
}

fn iterations_value(value: &[u8]) -> Option<Setting>
    ensures { result ≡ iterations_value value.now }
{
    number_of(value).map(Setting::Iterations)
}

/// The number that 1 to 10 decimal digits write.
pub(crate) fn number_of(text: &[u8]) -> Option<u64>
    ensures { result ≡ number_of text.now }
{
    if text.is_empty() || text.len() > 10 {
        return None;
    }
    decimal_of(text)
}

/// The number that digits write.
fn decimal_of(text: &[u8]) -> Option<u64>
    requires { length text.now ≤ 10 }
    ensures { result ≡ decimal_of text.now }
{
    let mut number = 0;
    for byte in text {
        let digit = char::from(*byte).to_digit(10)?;
        number = number * 10 + u64::from(digit);
    }
    Some(number)
}

fn record_size_value(value: &[u8]) -> Option<Setting>
    ensures { result ≡ record_size_value value.now }
{
    if value == b"512".as_slice() {
        return Some(Setting::RecordSize(512));
    }
    if value == b"1024".as_slice() {
        return Some(Setting::RecordSize(1024));
    }
    if value == b"2048".as_slice() {
        return Some(Setting::RecordSize(2048));
    }
    if value == b"4096".as_slice() {
        return Some(Setting::RecordSize(4096));
    }
    if value == b"8192".as_slice() {
        return Some(Setting::RecordSize(8192));
    }
    if value == b"16384".as_slice() {
        return Some(Setting::RecordSize(16384));
    }
    if value == b"32768".as_slice() {
        return Some(Setting::RecordSize(32768));
    }
    if value == b"65536".as_slice() {
        return Some(Setting::RecordSize(65536));
    }
    if value == b"131072".as_slice() {
        return Some(Setting::RecordSize(131_072));
    }
    None
}

/// The options that these settings make.
pub(crate) fn options_with(settings: Vec<Setting>) -> Options
    ensures { result ≡ options_with settings.items }
{
    let mut options = Options::none();
    for setting in settings {
        options = setting.put_into(options);
    }
    options
}

/// The location that `-L` sets, where one of these settings does.
pub(crate) fn load_place(settings: Vec<Setting>) -> Option<Location>
    ensures { result ≡ load_place settings.items }
{
    let mut place = None;
    for setting in settings {
        place = setting.put_place(place);
    }
    place
}
