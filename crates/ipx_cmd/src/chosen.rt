//! What the words after the program's name ask for.

ghost use Rattle.std.specs.Prelude.{◌≡◌, ◌↔◌, ℕ, List, Option, Some, IfOk, codes, map, option_map, string_bytes};
ghost use Rattle.clap.specs.Words.{app_of, first_value, found_of, kind_of, with_subcommand};
ghost use Rattle.clap.specs.declared.error.kind.ErrorKind.TheVariants.{OutOfMemory};
ghost use Rattle.ipx_cmd.specs.Chosen.{Chooses, IsAsked, command_line, file_command, word_of};
ghost use Rattle.ipx_cmd.specs.declared.chosen.ChooseFault.TheVariants.{Memory};
ghost use Rattle.ipx_cmd.specs.declared.chosen.Run.{Run};

use clap::error::ErrorKind;
use clap::{Arg, ArgMatches, Command, Error as Refusal};
use std::alloc::{AllocError, Global};
use thiserror::Error;

/// What the program can run.
///
/// See the example of [`Chosen`].
#[derive(Clone, Copy, Debug, PartialEq, Eq)]
pub enum Run {
    /// Plays a script on one router.
    Replay,
    /// Plays a script on an internet of routers.
    Internet,
    /// Shows the packets of a capture.
    Decode,
}

/// What the words ask for: what to run, and the file to read in place of standard input, as its name was written.
///
/// ```
/// match choose(rt.alloc(), &["decode", "old.pcap"]) {
///     Ok(
///         Chosen {
///             run: Run::Decode,
///             file,
///         },
///     ) => println!(rt; "shows {:?}", file)?,
///     Ok(Chosen { run, .. }) => println!(rt; "{run:?}")?,
///     Err(ChooseFault::Usage) => println!(rt; "no command of the program's")?,
///     Err(ChooseFault::Memory) => println!(rt; "out of memory")?,
/// }
/// // prints shows Some("old.pcap")
/// ```
#[derive(Debug, Drop)]
pub struct Chosen {
    pub run: Run,
    pub file: Option<String>,
}

/// Why the words don't choose a run.
///
/// See the example of [`Chosen`].
#[derive(Clone, Copy, Debug, PartialEq, Eq, Error)]
pub enum ChooseFault {
    /// They aren't a command of the program, and neither is a request for help or a version.
    #[error("usage")]
    Usage,
    /// No memory was left.
    #[error("memory")]
    Memory,
}

impl From<AllocError> for ChooseFault {
    ghost from_gives = { λ _ fault. fault ≡ Memory };

    fn from(_refused: AllocError) -> ChooseFault {
        ChooseFault::Memory
    }
}

/// Reads the words after the program's name: `replay [FILE]`, `internet [FILE]` or `decode [FILE]`.
///
/// A FILE that begins with `-` stands after the word `--`, unless it is `-` alone.
pub fn choose(alloc: Global, words: &[&str]) -> Result<Chosen, ChooseFault>
    ensures { (run : Run) (file : Option (List ℕ)) → IsAsked run (map (λ word. word.now) words.now) file → Chooses run file result }
{
    let matches = match command(alloc)?.try_get_matches_from(words) {
        Ok(matches) => matches,
        Err(refusal) => return Err(fault_of(&refusal)),
    };
    let Some((verb, inner)) = matches.subcommand() else {
        return Err(ChooseFault::Usage);
    };
    let Some(run) = run_of(verb) else {
        return Err(ChooseFault::Usage);
    };
    let file = file_in(alloc, inner)?;
    Ok(Chosen { run, file })
}

/// The run that a command names.
fn run_of(verb: &str) -> Option<Run>
    ensures { (run : Run) → verb.now ≡ word_of run → result ≡ Some run }
{
    match verb {
        "replay" => Some(Run::Replay),
        "internet" => Some(Run::Internet),
        "decode" => Some(Run::Decode),
        _ => None,
    }
}

/// The program's command line.
fn command<'a>(alloc: Global) -> Result<Command<'a>, AllocError>
    ensures { IfOk result (λ command. app_of command ≡ command_line) }
{
    let top = Command::new(alloc, "ipxr")
        .no_binary_name(true)
        .subcommand_required(true);
    let with_replay = with_file_command(alloc, top, "replay")?;
    let with_internet = with_file_command(alloc, with_replay, "internet")?;
    with_file_command(alloc, with_internet, "decode")
}

/// The command line with one command more, which may name a file.
fn with_file_command<'a>(
    alloc: Global,
    top: Command<'a>,
    name: &'a str,
) -> Result<Command<'a>, AllocError>
    ensures { IfOk result (λ command. app_of command ≡ with_subcommand (app_of top.entry) (file_command name.now).top) }
{
    let command = Command::new(alloc, name).arg(Arg::new(alloc, "file"))?;
    top.subcommand(command)
}

fn fault_of(refusal: &Refusal) -> ChooseFault
    ensures { (result ≡ Memory) ↔ (kind_of refusal.now ≡ OutOfMemory) }
{
    match refusal.kind() {
        ErrorKind::OutOfMemory => ChooseFault::Memory,
        _ => ChooseFault::Usage,
    }
}

/// The name of the file that a command was given, if it was given one.
fn file_in(alloc: Global, matches: &ArgMatches<'_>) -> Result<Option<String>, AllocError>
    ensures { IfOk result (λ file. option_map string_bytes file ≡ first_value (found_of matches.now) (codes "file")) }
{
    match matches.get_str("file") {
        Some(name) => Ok(Some(String::from_str(alloc, name)?)),
        None => Ok(None),
    }
}
