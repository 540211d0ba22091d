// Small texts over bytes.
ghost use Rattle.std.specs.Prelude.{◌≡◌, IfOk, true};
ghost use Rattle.std.specs.List.{list_all};
ghost use Rattle.encryption_roots.specs.Printable.{stands_in_word};
ghost use Rattle.encryption_roots.specs.PathText.{begins_with_slash, is_path, path_of};

use dataset_tree::NoMemory;
use std::alloc::Global;
use std::marker::Model;

/// The most bytes in the path of a key file.
const MAX_PATH_LEN: usize = 1024;

/// The absolute path of a key file: contracts see its bytes.
#[derive(Debug, Drop)]
pub struct PathText {
    text: String,
}

impl Model for PathText {
    ghost use Rattle.std.specs.Prelude.{◌≡◌, List, ℕ, true};
    ghost use Rattle.std.specs.String.{string_bytes};
    ghost use Rattle.encryption_roots.specs.PathText.{is_path};

    ghost Value = { List ℕ };

    ghost view = { λ path. string_bytes path.text };

    ghost invariant = { λ path. is_path (string_bytes path.text) ≡ true };
}

impl PathText {
    /// The path that this text spells, `None` exactly where it isn't one: 1 to 1024 bytes from `!` to `~`,
    /// the first `/`.
    pub fn parse(alloc: Global, bytes: &[u8]) -> Result<Option<PathText>, NoMemory>
        ensures { IfOk result (λ path. path ≡ path_of bytes.now) }
    {
        if !is_path(bytes) {
            return Ok(None);
        }
        let text = String::from_str(alloc, ascii_text(bytes))?;
        Ok(Some(PathText { text }))
    }

    /// The bytes of the path, which are in form.
    pub fn as_bytes(&self) -> &[u8]
        ensures bytes { result.now ≡ self.now }
        ensures in_form { is_path result.now ≡ true }
    {
        self.text.as_bytes()
    }

    /// The path as text, by which the file is opened.
    pub fn as_str(&self) -> &str
        ensures bytes { result.now ≡ self.now }
        ensures in_form { is_path result.now ≡ true }
    {
        self.text.as_str()
    }

    /// An equal path.
    pub fn copy(&self) -> Result<PathText, NoMemory>
        ensures { IfOk result (λ path. path ≡ self.now) }
    {
        let text = self.text.clone()?;
        Ok(PathText { text })
    }
}

fn is_path(bytes: &[u8]) -> bool
    ensures { result ≡ is_path bytes.now }
{
    bytes.len() <= MAX_PATH_LEN && begins_with_slash(bytes) && is_word(bytes)
}

fn begins_with_slash(bytes: &[u8]) -> bool
    ensures { result ≡ begins_with_slash bytes.now }
{
    matches!(bytes, [b'/', ..])
}

/// Whether each byte may stand in a word.
fn is_word(bytes: &[u8]) -> bool
    ensures { result ≡ list_all stands_in_word bytes.now }
{
    bytes.iter().all(|byte| stands_in_word(*byte))
}

fn stands_in_word(byte: u8) -> bool
    ensures { result ≡ stands_in_word byte }
{
    matches!(byte, b'!'..=b'~')
}

/// These bytes as text.
fn ascii_text(bytes: &[u8]) -> &str
    requires { is_path bytes.now ≡ true }
    ensures { result.now ≡ bytes.now }
{
    match str::from_utf8(bytes) {
        Ok(text) => text,
        Err(_) => unreachable!(),
    }
}

/// The value of a dataset's property as `get` prints it: contracts see its bytes.
#[derive(Debug, Drop)]
pub struct PropText {
    bytes: Vec<u8>,
}

impl Model for PropText {
    ghost use Rattle.std.specs.Prelude.{List, ℕ};

    ghost Value = { List ℕ };

    ghost view = { λ text. text.bytes.items };
}

impl PropText {
    /// These bytes as a property's value.
    pub fn new(bytes: Vec<u8>) -> PropText
        ensures { result ≡ bytes.items }
    {
        PropText { bytes }
    }

    /// The bytes of the value.
    pub fn as_bytes(&self) -> &[u8]
        ensures { result.now ≡ self.now }
    {
        self.bytes.as_slice()
    }

    /// An equal value.
    pub fn copy(&self) -> Result<PropText, NoMemory>
        ensures { IfOk result (λ text. text ≡ self.now) }
    {
        let bytes = self.bytes.clone()?;
        Ok(PropText { bytes })
    }
}

/// Key material as it was fetched, in no form yet: contracts see its bytes.
#[derive(Drop)]
pub struct Material {
    bytes: Vec<u8>,
}

impl Model for Material {
    ghost use Rattle.std.specs.Prelude.{List, ℕ};

    ghost Value = { List ℕ };

    ghost view = { λ material. material.bytes.items };
}

impl Material {
    /// Any bytes as key material.
    pub fn new(bytes: Vec<u8>) -> Material
        ensures { result ≡ bytes.items }
    {
        Material { bytes }
    }

    /// The bytes of the material.
    pub fn as_bytes(&self) -> &[u8]
        ensures { result.now ≡ self.now }
    {
        self.bytes.as_slice()
    }

    /// Equal material.
    pub fn copy(&self) -> Result<Material, NoMemory>
        ensures { IfOk result (λ material. material ≡ self.now) }
    {
        let bytes = self.bytes.clone()?;
        Ok(Material { bytes })
    }
}
