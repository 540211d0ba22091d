// The words of the command line.
ghost use Rattle.std.specs.Prelude.{◌≡◌, ◌≤◌, ◌∷◌, [], IfSome, MatchOption, length, map, string_bytes};
ghost use Rattle.std.specs.declared.option.Option.TheVariants.{Some as Found, None as Missing};
ghost use Rattle.shell_lines.specs.Settings.{behind, decimal_of};
ghost use Rattle.shell_run.specs.Words.{in_limits, limit_of, limit_value, short_number};

use salt_rotation::MAX_SALT_USES;

/// How many draws a salt serves where the words don't say it.
const DEFAULT_LIMIT: u64 = MAX_SALT_USES;

/// The most digits of a number.
const MAX_DIGITS: usize = 9;

/// How many draws a salt serves, as the words say: `--max-salt-uses N`, `--max-salt-uses=N`, or nothing. `None` for
/// words that aren't in this form.
pub(crate) fn limit_of(words: &[String]) -> Option<u64>
    ensures result { result ≡ limit_of (map string_bytes words.now) }
    ensures limits { IfSome result (λ limit. (1 ≤ limit) × (limit ≤ MAX_SALT_USES)) }
{
    match words {
        [] => Some(DEFAULT_LIMIT),
        [word] => limit_in_word(word.as_bytes()),
        [word, value] => limit_in_two(word.as_bytes(), value.as_bytes()),
        [_, _, _, ..] => None,
    }
}

/// The limit in a word that is the option with its value.
fn limit_in_word(word: &[u8]) -> Option<u64>
    ensures result { result ≡ limit_of (word.now ∷ []) }
    ensures limits { IfSome result (λ limit. (1 ≤ limit) × (limit ≤ MAX_SALT_USES)) }
{
    match behind(b"--max-salt-uses=", word) {
        None => None,
        Some(value) => limit_value(value),
    }
}

/// The limit in two words, of which the first is the option and the second its value.
fn limit_in_two(word: &[u8], value: &[u8]) -> Option<u64>
    ensures result { result ≡ limit_of (word.now ∷ value.now ∷ []) }
    ensures limits { IfSome result (λ limit. (1 ≤ limit) × (limit ≤ MAX_SALT_USES)) }
{
    if word != b"--max-salt-uses".as_slice() {
        return None;
    }
    limit_value(value)
}

/// What stands behind a front in a text.
fn behind<'a>(front: &[u8], text: &'a [u8]) -> Option<&'a [u8]>
    ensures { MatchOption result (behind front.now text.now ≡ Missing) (λ value. behind front.now text.now
        ≡ Found value.now) }
{
    text.strip_prefix(front)
}

/// The number from 1 to 400000000 that 1 to 9 decimal digits write.
fn limit_value(text: &[u8]) -> Option<u64>
    ensures result { result ≡ limit_value text.now }
    ensures limits { IfSome result (λ limit. (1 ≤ limit) × (limit ≤ MAX_SALT_USES)) }
{
    in_limits(short_number(text)?)
}

fn in_limits(number: u64) -> Option<u64>
    ensures result { result ≡ in_limits number }
    ensures limits { IfSome result (λ limit. (1 ≤ limit) × (limit ≤ MAX_SALT_USES)) }
{
    if number < 1 || number > MAX_SALT_USES {
        return None;
    }
    Some(number)
}

/// The number that 1 to 9 decimal digits write.
fn short_number(text: &[u8]) -> Option<u64>
    ensures { result ≡ short_number text.now }
{
    if text.is_empty() || text.len() > MAX_DIGITS {
        return None;
    }
    decimal_of(text)
}

/// The number that digits write.
fn decimal_of(text: &[u8]) -> Option<u64>
    requires { length text.now ≤ MAX_DIGITS }
    ensures { result ≡ decimal_of text.now }
{
    let mut number = 0;
    for byte in text {
        let digit = char::from(*byte).to_digit(10)?;
        number = number * 10 + u64::from(digit);
    }
    Some(number)
}
