//! The name of a node or a buffer, and its form.

ghost use Rattle.std.specs.Prelude.{◌≡◌, IfOk};
ghost use Rattle.fr_names.specs.Names.{is_letter, is_digit, is_mark, is_name_byte, is_name, is_called};
ghost use Rattle.std.specs.List.{list_all};

use std::alloc::{AllocError, Global};
use std::marker::Model;

/// The most bytes of a name.
const LONGEST_NAME: usize = 32;

/// The bytes of a name.
#[derive(Drop)]
pub(crate) struct Name {
    bytes: Vec<u8>,
}

impl Model for Name {
    ghost use Rattle.std.specs.Prelude.{ℕ, List};

    ghost Value = { List ℕ };

    ghost view = { λ name. name.bytes.items };
}

impl Name {
    ghost use Rattle.std.specs.Str.{bytes_eq};

    /// Returns the name of these bytes.
    pub(crate) fn new(alloc: Global, bytes: &[u8]) -> Result<Name, AllocError>
        ensures { IfOk result (λ name. name ≡ bytes.now) }
    {
        let bytes = Vec::from_slice(alloc, bytes)?;
        Ok(Name { bytes })
    }

    /// Returns whether the name has these bytes.
    fn is(&self, word: &[u8]) -> bool
        ensures { result ≡ bytes_eq self.now word.now }
    {
        self.bytes.as_slice() == word
    }
}

/// Returns whether the byte is an ASCII letter.
fn is_letter(byte: u8) -> bool
    ensures { result ≡ is_letter byte }
{
    b'A' <= byte && byte <= b'Z' || b'a' <= byte && byte <= b'z'
}

/// Returns whether the byte is a decimal digit.
fn is_digit(byte: u8) -> bool
    ensures { result ≡ is_digit byte }
{
    b'0' <= byte && byte <= b'9'
}

/// Returns whether the byte is `_`, `-` or `.`.
fn is_mark(byte: u8) -> bool
    ensures { result ≡ is_mark byte }
{
    byte == b'_' || byte == b'-' || byte == b'.'
}

/// Returns whether a name may have the byte.
fn is_name_byte(byte: u8) -> bool
    ensures { result ≡ is_name_byte byte }
{
    is_letter(byte) || is_digit(byte) || is_mark(byte)
}

/// Returns whether a name may have each of the bytes.
fn are_name_bytes(bytes: &[u8]) -> bool
    ensures { result ≡ list_all is_name_byte bytes.now }
{
    bytes.iter().all(|byte| is_name_byte(*byte))
}

/// Returns whether the bytes have the form of a name.
pub(crate) fn is_name(bytes: &[u8]) -> bool
    ensures { result ≡ is_name bytes.now }
{
    1 <= bytes.len() && bytes.len() <= LONGEST_NAME && are_name_bytes(bytes)
}

/// Returns whether there is a name, with these bytes.
pub(crate) fn is_called(name: &Option<Name>, word: &[u8]) -> bool
    ensures { result ≡ is_called word.now name.now }
{
    match name {
        None => false,
        Some(name) => name.is(word),
    }
}
