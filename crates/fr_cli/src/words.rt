//! The words after the program's name, from the system.
ghost use Rattle.std.specs.Prelude.{◌≡◌, IfErr, IfOk, map};
ghost use Rattle.std.specs.String.{string_bytes};
ghost use Rattle.fr_cli.specs.declared.error.OrderError.TheVariants as refusal;

use crate::error::OrderError;
use std::alloc::Global;
use std::rt::Env;
use std::{env, io};

/// Returns the words after the program's name from the system.
///
/// Refused with `Memory` if an allocation fails, and with `Usage` if a word isn't UTF-8, which no command has.
pub fn words_given<R: Env + AllocGlobal>(rt: &R) -> Result<Vec<String>, OrderError> {
    match env::args(rt) {
        Ok(words) => Ok(words.skip(1).collect(rt.alloc())?),
        Err(error) if error.kind() == io::ErrorKind::OutOfMemory => Err(OrderError::Memory),
        Err(_) => Err(OrderError::Usage),
    }
}

/// Returns the words as texts, in their order. Refused with `Memory` alone.
pub fn texts_of(alloc: Global, words: &[String]) -> Result<Vec<&str>, OrderError>
    ensures texts { IfOk result (λ texts. map (λ text. text.now) texts.items ≡ map string_bytes words.now) }
    ensures refused { IfErr result (λ e. e ≡ refusal.Memory) }
{
    let mut texts = Vec::new(alloc);
    for word in words {
        if texts.push(word.as_str()).is_err() {
            return Err(OrderError::Memory);
        }
    }
    Ok(texts)
}
