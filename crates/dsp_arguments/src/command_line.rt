//! The words of the command line.
ghost use Rattle.std.specs.Prelude.{◌≤◌, length, IfOk};

use crate::asked::{About, ArgFault, Arguments, CONSOLE};
use crate::version::VERSION;
use clap::{Arg, ArgAction, ArgMatches, Command, Error};
use host_map::Sizes;
use port_files::pairs;
use relocate::SPACE_WORDS;
use std::alloc::Global;

/// The end of the help.
const MORE: &str = "A file whose name begins with a minus stands behind --.

Exit status:
  0  every line of SCRIPT was accepted
  1  some lines were refused
  2  wrong arguments
  3  SCRIPT or an IN can't be read
  4  an OUT or the replies can't be written
  5  not enough memory at the start

The commands and their replies: docs/SCRIPTS.md, or man dsp_console.";

/// An option for the size of a space. Its default stands in its help alone, since `clap` would read it at each start.
fn space_option(alloc: Global, space: &'static str, help: &'static str) -> Arg<'static> {
    Arg::new(alloc, space)
        .long(space)
        .value_name("WORDS")
        .help(help)
        .action(ArgAction::Set)
        .value_parser(clap::value_parser!(u32))
}

/// The option for the word that fills memory.
fn poison_option(alloc: Global) -> Arg<'static> {
    Arg::new(alloc, "poison")
        .long("poison")
        .value_name("WORD")
        .help(
            "Fill new memory, and scratch memory after each deactivation, with this word, 0 to 65535, to show who reads it",
        )
        .action(ArgAction::Set)
        .value_parser(clap::value_parser!(u16))
}

/// An option for the channels whose ports carry octets.
fn mask_option(alloc: Global, name: &'static str, help: &'static str) -> Arg<'static> {
    Arg::new(alloc, name)
        .long(name)
        .value_name("MASK")
        .help(help)
        .action(ArgAction::Set)
        .value_parser(clap::value_parser!(u16))
}

/// The option that asks for reasons.
fn explain_option(alloc: Global) -> Arg<'static> {
    Arg::new(alloc, "explain")
        .long("explain")
        .help(
            "Say on the standard error why each refused line was refused, and which file failed and why",
        )
        .action(ArgAction::SetTrue)
}

/// The path of the script.
fn script_argument(alloc: Global) -> Arg<'static> {
    Arg::new(alloc, "SCRIPT")
        .help(
            "Commands, one a line: each line that isn't blank gets one reply on the standard output",
        )
        .required(true)
        .action(ArgAction::Set)
}

/// The paths of the ports.
fn ports_argument(alloc: Global) -> Arg<'static> {
    Arg::new(alloc, "PORTS")
        .value_name("IN OUT")
        .help(
            "1 to 16 pairs of files of samples, the low byte first, without a header: the n-th pair, from 0, is channel n's",
        )
        .num_args(0..)
        .action(ArgAction::Append)
}

/// The options and arguments, in the order that the help has.
fn accepted(alloc: Global) -> Result<Vec<Arg<'static>>, Error> {
    let accepted = vec![in alloc;
        space_option(
            alloc,
            "daram",
            "Size of the space daram in 16-bit words, a multiple of 4 up to 65536 [default: 65536]"
        ),
        space_option(alloc, "saram", "Size of the space saram [default: 65536]"),
        space_option(
            alloc,
            "external",
            "Size of the space external [default: 65536]"
        ),
        poison_option(alloc),
        mask_option(
            alloc,
            "in8",
            "Channels whose IN has one byte a sample, 0 to 255: bit n is channel n [default: 0]",
        ),
        mask_option(
            alloc,
            "out8",
            "Channels whose OUT gets one byte a sample, its low eight bits: bit n is channel n [default: 0]",
        ),
        explain_option(alloc),
        script_argument(alloc),
        ports_argument(alloc),
    ]?;
    Ok(accepted)
}

/// What `clap` finds in the words, which don't begin with the program's name.
fn matches<'a>(
    alloc: Global,
    about: &About,
    words: &'a [&'a str],
) -> Result<ArgMatches<'a>, Error> {
    Command::new(alloc, about.name)
        .no_binary_name(true)
        .version(VERSION)
        .about(about.about)
        .after_help(MORE)
        .override_usage(about.usage)
        .args(accepted(alloc)?)?
        .try_get_matches_from(words)
}

/// The size that an option gives, and the most words of a space where it isn't given.
fn size_of(matches: &ArgMatches<'_>, space: &str) -> u32 {
    matches.get_one(space).unwrap_or(SPACE_WORDS)
}

/// The mask that an option gives, and none where it isn't given.
fn mask_of(matches: &ArgMatches<'_>, name: &str) -> u16 {
    matches.get_one(name).unwrap_or(0)
}

/// Parses the words of a command line, the program's name not among them: options, SCRIPT, and the ports behind it in pairs.
///
/// [`ArgFault::Ports`] is for any other count of ports than 1 to [`PORT_PAIRS`](crate::PORT_PAIRS) pairs, [`ArgFault::Clap`] for what
/// `clap` refuses, and for `--help` and `--version`, which tell of the console over the five kinds.
pub fn arguments<'a>(alloc: Global, words: &'a [&'a str]) -> Result<Arguments<'a>, ArgFault>
    ensures { IfOk result (λ a. 1 ≤ length a.ports.items) }
{
    arguments_of(alloc, &CONSOLE, words)
}

/// As [`arguments`], of another program.
pub fn arguments_of<'a>(
    alloc: Global,
    about: &About,
    words: &'a [&'a str],
) -> Result<Arguments<'a>, ArgFault>
    ensures { IfOk result (λ a. 1 ≤ length a.ports.items) }
{
    let matches = match matches(alloc, about, words) {
        Ok(matches) => matches,
        Err(error) => return Err(ArgFault::Clap(error)),
    };
    let Some(script) = matches.get_str("SCRIPT") else {
        return Err(ArgFault::Ports);
    };
    let Some(ports) = pairs(matches.get_strs("PORTS").unwrap_or(&[])) else {
        return Err(ArgFault::Ports);
    };
    let poison: Option<u16> = matches.get_one("poison");
    Ok(Arguments {
        script,
        sizes: Sizes {
            daram: size_of(&matches, "daram"),
            saram: size_of(&matches, "saram"),
            external: size_of(&matches, "external"),
        },
        poison: poison.map(|word| word.cast_signed()),
        in8: mask_of(&matches, "in8"),
        out8: mask_of(&matches, "out8"),
        explain: matches.get_flag("explain"),
        ports,
    })
}
