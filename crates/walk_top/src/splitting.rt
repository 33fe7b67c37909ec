//! Places and options among words.

ghost use Rattle.std.specs.Prelude.{◌≡◌, IfOk, false, map};
ghost use Rattle.clap.specs.Words.{app_of};
ghost use Rattle.walk_top.specs.Jobs.{texts};
ghost use Rattle.walk_top.specs.WordRules.{knows};
ghost use Rattle.walk_top.specs.WordReader.{Reads, place_id, reader_app};

use clap::error::ErrorKind;
use clap::{Arg, ArgAction, ArgMatches, Command};
use std::alloc::Global;
use walk_model::Memory;

/// The command that reads words with options of these names.
fn reader<'a>(alloc: Global, options: &[&'static str]) -> Result<Command<'a>, Memory>
    ensures { IfOk result (λ c. app_of c ≡ reader_app (map (λ n. n.now) options.now)) }
{
    let places = Arg::new(alloc, "PLACES").action(ArgAction::Append);
    let mut command = Command::new(alloc, "words")
        .no_binary_name(true)
        .disable_help_flag(true)
        .disable_version_flag(true)
        .arg(places)?;
    for name in options {
        let option = Arg::new(alloc, name).long(name).action(ArgAction::Set);
        command = command.arg(option)?;
    }
    Ok(command)
}

/// The places and options of words, where they can be read.
pub(crate) fn split<'a>(
    alloc: Global,
    words: &'a [String],
    options: &[&'static str],
) -> Result<Option<ArgMatches<'a>>, Memory>
    requires fresh { knows (map (λ n. n.now) options.now) place_id ≡ false }
    ensures { IfOk result (λ o. Reads (map (λ n. n.now) options.now) (texts words.now) o) }
{
    let command = reader(alloc, options)?;
    match command.try_get_matches_from(words) {
        Ok(matches) => Ok(Some(matches)),
        Err(error) => match error.kind() {
            ErrorKind::OutOfMemory => Err(Memory),
            _ => Ok(None),
        },
    }
}
