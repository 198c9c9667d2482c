//! The program from its words to its exit status.
use crate::serving::serve;
use clap::error::ErrorKind;
use dsp_arguments::{About, ArgFault, CONSOLE, arguments_of};
use dsp_console::{Fault, outcome};
use ialg::{Ialg, Named};
use std::env::{self, Env};
use std::fs::Files;
use std::io;
use std::process::ExitCode;

/// The status where the command line isn't taken.
const USAGE: u8 = 2;

/// Parses the words and serves the script: the exit status, and the line on the standard error, which names `dsp_console`.
pub fn answer<M: Ialg + Named, R: Files + Print + Eprint + AllocGlobal>(
    rt: &R,
    about: &About,
    words: &[&str],
) -> (u8, &'static str) {
    match arguments_of(rt.alloc(), about, words) {
        Ok(arguments) => outcome(&serve::<M, R>(rt, about, &arguments)),
        Err(ArgFault::Ports) => (USAGE, "dsp_console: ports come in pairs, 1 to 16"),
        Err(ArgFault::Clap(error)) => {
            if error.kind() == ErrorKind::OutOfMemory {
                return outcome(&Err(Fault::Memory));
            }
            let printed = error.print(rt);
            if error.use_stderr() {
                return (USAGE, "");
            }
            // Help and version are all that is asked for: whoever doesn't get them is told so.
            if printed.is_err() {
                return outcome(&Err(Fault::Write));
            }
            (0, "")
        }
    }
}

/// The words of the command line behind the program's name.
fn words_behind_name<R: Env + AllocGlobal>(rt: &R) -> io::Result<Vec<String>> {
    let mut words = Vec::new(rt.alloc());
    for word in env::args(rt)?.skip(1) {
        words.push(word)?;
    }
    Ok(words)
}

/// Reads the words behind the program's name, and serves what they ask.
fn answer_words<M: Ialg + Named, R: Files + Print + Eprint + Env + AllocGlobal>(
    rt: &R,
    about: &About,
) -> io::Result<(u8, &'static str)> {
    let owned = words_behind_name(rt)?;
    let mut words = Vec::with_capacity(rt.alloc(), owned.len())?;
    for word in &owned {
        words.push(word.as_str())?;
    }
    Ok(answer::<M, R>(rt, about, words.as_slice()))
}

/// Writes a line to the standard error, with the program's own name in place of `dsp_console` where it begins with that.
fn tell<R: Eprint>(rt: &R, about: &About, line: &str) {
    let _ = match line.strip_prefix(CONSOLE.name) {
        Some(rest) => eprintln!(rt; "{}{rest}", about.name),
        None => eprintln!(rt; "{line}"),
    };
}

/// The console over these kinds: takes the words of the command line, serves SCRIPT over the pairs of files, writes replies to the
/// standard output and what went wrong to the standard error, and gives the exit status.
pub fn program<M: Ialg + Named, R: Files + Print + Eprint + Env + AllocGlobal>(
    rt: &R,
    about: &About,
) -> ExitCode {
    let (status, line) = match answer_words::<M, R>(rt, about) {
        Ok(ended) => ended,
        Err(error) if error.kind() == io::ErrorKind::OutOfMemory => outcome(&Err(Fault::Memory)),
        Err(_) => (USAGE, "dsp_console: an argument isn't UTF-8"),
    };
    if !line.is_empty() {
        tell(rt, about, line);
    }
    ExitCode::from(status)
}
