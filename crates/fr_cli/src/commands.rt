//! The parts of commands that several programs have.
ghost use Rattle.std.specs.Prelude.{◌≡◌, IfOk, false};
ghost use Rattle.clap.specs.Words.{app_of};
ghost use Rattle.clap.specs.declared.builder.command.Command.TheViews.{out-Command};
ghost use Rattle.fr_cli.specs.Commands.{bare, cycles_in, most_in, with_file};

use clap::{Arg, Command};
use fr_text::numbers::number_of;
use std::alloc::{AllocError, Global};

/// Returns the program of this name, without a command.
pub(crate) fn program<'a>(alloc: Global, name: &'a str) -> Command<'a>
    ensures { app_of result ≡ bare name.now }
{
    Command::new(alloc, name)
        .no_binary_name(true)
        .subcommand_required(true)
        .disable_help_flag(true)
        .disable_help_subcommand(true)
}

/// Returns a command of this name, with a file.
pub(crate) fn of_file<'a>(alloc: Global, name: &'a str) -> Result<Command<'a>, AllocError>
    ensures app { IfOk result (λ c. app_of c ≡ with_file name.now) }
    ensures local { IfOk result (λ c. (out-Command c).has_globals ≡ false) }
{
    let file = Arg::new(alloc, "FILE").required(true);
    Command::new(alloc, name).arg(file)
}

/// Returns the number of cycles that a word spells: 1 to 1024, without a leading zero.
pub(crate) fn cycles_of(word: &str) -> Option<u16>
    ensures { result ≡ cycles_in word.now }
{
    match number_of(word.as_bytes(), 1025) {
        Some(0) | None => None,
        Some(cycles) => Some(cycles as u16),
    }
}

/// Returns the number of cycles without history that a word spells: 1 to 4,000,000, without a leading zero.
pub(crate) fn most_of(word: &str) -> Option<u32>
    ensures { result ≡ most_in word.now }
{
    match number_of(word.as_bytes(), 4_000_001) {
        Some(0) | None => None,
        Some(cycles) => Some(cycles as u32),
    }
}
