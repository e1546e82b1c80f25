//! The words, matched by `clap`.
ghost use Rattle.std.specs.Prelude.{◌≡◌, ◌≢◌, Some, true, false, IfSome, IfOk, IfErr, IsErrOf, map, string_bytes};
ghost use Rattle.clap.specs.Words.{kind_of, subcommand_of, subcommand_rows_of, takes};
ghost use Rattle.clap.specs.declared.error.kind.ErrorKind.TheVariants.{OutOfMemory};
ghost use Rattle.ice_flow_words.specs.Command.{command};
ghost use Rattle.ice_flow_words.specs.Reading.{is_taken, request_of};
ghost use Rattle.ice_flow_words.specs.Views.{request_view, IsInLimits};

use crate::command::tool_command;
use crate::fault::WordsFault;
use crate::found::request_in;
use crate::request::Request;
use clap::error::ErrorKind;
use clap::{ArgMatches, Error};
use std::alloc::Global;

// What was found in the words, where the command takes them.
fn matches_in<'a>(alloc: Global, words: &'a [String]) -> Result<ArgMatches<'a>, Error>
    ensures ok { IfOk result (λ m. (is_taken (map string_bytes words.now) ≡ true)
        × (subcommand_rows_of m ≡ subcommand_of command (map string_bytes words.now))) }
    ensures refused { IfErr result (λ e. kind_of e ≢ OutOfMemory
        → (is_taken (map string_bytes words.now) ≡ false)
        × (takes command (map string_bytes words.now) ≡ false)) }
{
    let command = tool_command(alloc)?;
    command.try_get_matches_from(words)
}

/// The request of the words after the program's name. What the words mean is what `clap` promises for this command, and a call
/// for help is no request.
///
/// # Errors
///
/// `Usage` exactly where `clap` refuses the words for another cause than want of memory, and `NoMemory`, which may come at any words.
pub fn read_request<'a>(alloc: Global, words: &'a [String]) -> Result<Request<'a>, WordsFault>
    ensures ok { IfOk result (λ r.
        request_of (map string_bytes words.now) ≡ Some (request_view r)) }
    ensures limits { IfOk result IsInLimits }
    ensures usage { IsErrOf result WordsFault.Usage
        → (is_taken (map string_bytes words.now) ≡ false)
        × (takes command (map string_bytes words.now) ≡ false) }
{
    let found = matches_in(alloc, words)?;
    match request_in(&found) {
        Some(request) => Ok(request),
        None => Err(WordsFault::Usage),
    }
}

/// What `clap` says where it refuses the words: why, with the usage, or the help where they call for it. Nothing where it takes them, or
/// for want of memory.
pub fn usage_for(alloc: Global, words: &[String]) -> Option<Error>
    ensures { IfSome result (λ _. is_taken (map string_bytes words.now) ≡ false) }
{
    match matches_in(alloc, words) {
        Ok(_found) => None,
        Err(e) => {
            if e.kind() == ErrorKind::OutOfMemory {
                None
            } else {
                Some(e)
            }
        }
    }
}
