//! The options of a command, read by clap.
ghost use Rattle.std.specs.Prelude.{◌≡◌, ◌≢◌, IfOk, true, false, [], map};
ghost use Rattle.clap.specs.Simple.{app_of};
ghost use Rattle.clap.specs.Values.{kind_of};
ghost use Rattle.clap.specs.Walk.{rule_of};
ghost use Rattle.clap.specs.declared.error.kind.ErrorKind.{ErrorKind};
ghost use Rattle.stir_words.specs.Options.{are_options, options_in};
ghost use Rattle.stir_words.specs.Seen.{known_of, texts};
ghost use Rattle.stir_words.specs.ClapRules.{app_for, rule_for, IsParsed};
ghost use Rattle.stir_words.specs.declared.fault.WordsFault.{WordsFault};

use crate::commands::Row;
use crate::fault::WordsFault;
use clap::error::ErrorKind;
use clap::{Arg, ArgAction, ArgMatches, Command, Error};
use std::alloc::{AllocError, Global};

/// What the words give for the options of a table, if they are those of the table, each at most once, and all that it
/// requires.
pub(crate) fn parsed<'a>(
    alloc: Global,
    table: &[Row],
    words: &'a [&'a str],
) -> Result<ArgMatches<'a>, WordsFault>
    requires { are_options (texts words.now) ≡ true }
    ensures { IsParsed (map known_of table.now) (options_in (texts words.now)) result }
{
    let Ok(command) = command_for(alloc, table) else {
        return Err(WordsFault::Memory);
    };
    match command.try_get_matches_from(words) {
        Ok(matches) => Ok(matches),
        Err(error) => Err(fault_of(error)),
    }
}

/// The command of clap for a table.
#[tactic(auto, using(crate::proofs::ClapTable::all_added))]
fn command_for<'a>(alloc: Global, table: &[Row]) -> Result<Command<'a>, AllocError>
    ensures { IfOk result (λ command. app_of command ≡ app_for (map known_of table.now)) }
{
    let mut command = new_command(alloc);
    for row in table {
        command = command.arg(arg_for(alloc, row))?;
    }
    Ok(command)
}

/// The command without options.
fn new_command<'a>(alloc: Global) -> Command<'a>
    ensures { app_of result ≡ app_for [] }
{
    Command::new(alloc, "stir")
        .no_binary_name(true)
        .disable_help_flag(true)
}

/// The option of a row.
fn arg_for<'a>(alloc: Global, row: &Row) -> Arg<'a>
    ensures rule { rule_of result ≡ rule_for (known_of row.now) }
    ensures local { result.global ≡ false }
{
    Arg::new(alloc, row.name)
        .long(row.name)
        .required(row.required)
        .action(ArgAction::Set)
}

/// Whether memory ran out, or the words are refused.
fn fault_of(error: Error) -> WordsFault
    ensures memory { kind_of error ≡ ErrorKind.OutOfMemory → result ≡ WordsFault.Memory }
    ensures refused { kind_of error ≢ ErrorKind.OutOfMemory → result ≡ WordsFault.Refused }
{
    match error.kind() {
        ErrorKind::OutOfMemory => WordsFault::Memory,
        _ => WordsFault::Refused,
    }
}
