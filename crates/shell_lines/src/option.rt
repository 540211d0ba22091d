// The options that stand in front of a name.
ghost use Rattle.std.specs.Prelude.{◌≡◌, ◌&&◌, ◌∷◌, ◌++◌, [], IfOk, not};
ghost use Rattle.std.specs.declared.option.Option.TheVariants.{None as Missing};
ghost use Rattle.std.specs.Option.{option_copied};
ghost use Rattle.shell_lines.specs.Left.{words_left, end_of, items_of, Reads};
ghost use Rattle.shell_lines.specs.Settings.{kind_of};
ghost use Rattle.shell_lines.specs.Reading.{is_same, is_set, has_kind, begins_option, new_setting, option_from, options_from};

use crate::line::LineStop;
use crate::setting::{OptionKind, Setting, parse_setting};
use crate::words::Words;
use std::alloc::{AllocError, Global};

/// The settings of the options of these kinds that stand next, in any order, each kind at most once.
pub(crate) fn parse_options(
    alloc: Global,
    kinds: &[OptionKind],
    words: &mut Words<'_>,
) -> Result<Vec<Setting>, LineStop>
    ensures reads { Reads (items_of result) (words_left words.new)
        (options_from (end_of words.old) kinds.now Missing [] (words_left words.old)) }
    ensures end { end_of words.new ≡ end_of words.old }
{
    let mut settings = Vec::new(alloc);
    let mut ahead = *words;
    while let Some(word) = ahead.next() {
        if !begins_option(kinds, &settings, word.text) {
            break;
        }
        let setting = match parse_option(alloc, kinds, &settings, word.text, &mut ahead) {
            Ok(setting) => setting,
            Err(stop) => return Err(stop),
        };
        if settings.push(setting).is_err() {
            return Err(LineStop::NoMemory);
        }
        *words = ahead;
    }
    Ok(settings)
}

/// The setting of the option that `first` begins.
fn parse_option(
    alloc: Global,
    kinds: &[OptionKind],
    settings: &[Setting],
    first: &[u8],
    words: &mut Words<'_>,
) -> Result<Setting, LineStop>
    ensures reads { Reads result (words_left words.new)
        (option_from (end_of words.old) kinds.now settings.now first.now (words_left words.old)) }
    ensures end { end_of words.new ≡ end_of words.old }
{
    if let Some(setting) = new_setting(alloc, kinds, settings, first, None)? {
        return Ok(setting);
    }
    let Some(word) = words.next() else {
        return Err(words.missing());
    };
    match new_setting(alloc, kinds, settings, first, Some(word.text))? {
        Some(setting) => Ok(setting),
        None => Err(word.wrong()),
    }
}

/// The setting that an option's words spell, where its kind is one of these and isn't set yet.
fn new_setting(
    alloc: Global,
    kinds: &[OptionKind],
    settings: &[Setting],
    first: &[u8],
    value: Option<&[u8]>,
) -> Result<Option<Setting>, AllocError>
    ensures { IfOk result (λ setting. setting
        ≡ new_setting kinds.now settings.now first.now (option_copied value.entry)) }
{
    let Some(setting) = parse_setting(alloc, first, value)? else {
        return Ok(None);
    };
    let kind = setting.kind();
    if !has_kind(kinds, kind) || is_set(settings, kind) {
        return Ok(None);
    }
    Ok(Some(setting))
}

fn has_kind(kinds: &[OptionKind], kind: OptionKind) -> bool
    ensures { result ≡ has_kind kinds.now kind }
{
    kinds.iter().any(|other| is_same(*other, kind))
}

/// Whether one of the settings is of this kind.
pub(crate) fn is_set(settings: &[Setting], kind: OptionKind) -> bool
    ensures { result ≡ is_set settings.now kind }
{
    settings.iter().any(|setting| sets(setting, kind))
}

fn sets(setting: &Setting, kind: OptionKind) -> bool
    ensures { result ≡ is_same (kind_of setting.now) kind }
{
    is_same(setting.kind(), kind)
}

fn is_same(kind: OptionKind, other: OptionKind) -> bool
    ensures { result ≡ is_same kind other }
{
    kind.key() == other.key()
}

/// Whether a word begins an option that is left.
fn begins_option(kinds: &[OptionKind], settings: &[Setting], word: &[u8]) -> bool
    ensures { result ≡ begins_option kinds.now settings.now word.now }
{
    kinds
        .iter()
        .any(|kind| word == kind.dash() && !is_set(settings, *kind))
}
