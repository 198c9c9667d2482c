//! The reasons of refusals.
ghost use Rattle.std.specs.Prelude.{◌≡◌, false, IfSome};
ghost use Rattle.script_reasons.specs.Ranges.{is_in};

use crate::numbers::Range;
use crate::shown::Shown;
use crate::verbs::Verb;
use ialg::{PARAMETER_WORDS, Refusal};
use mem_rec::Space;
use std::fmt::{self, Display, Formatter};
use voice_script::{LINE_OCTETS, MEMBERS, Words};

/// The refusals that replies name. Which space has no room a reply doesn't tell: one of them stands for all.
const REFUSALS: [Refusal; 10] = [
    Refusal::Long,
    Refusal::Syntax,
    Refusal::Range,
    Refusal::Taken,
    Refusal::Missing,
    Refusal::Params,
    Refusal::Room(Space::Daram),
    Refusal::Busy,
    Refusal::Command,
    Refusal::Short,
];

/// The refusal that a reply tells, if it tells one: `no 3 range`.
fn refusal_told(reply: &[u8]) -> Option<Refusal> {
    let mut words = Words::of(reply);
    if words.next()? != b"no".as_slice() {
        return None;
    }
    let name = words.nth(1)?;
    for refusal in &REFUSALS {
        if refusal.name().as_bytes() == name {
            return Some(*refusal);
        }
    }
    None
}

/// Why a line was refused.
#[derive(Clone, Copy)]
pub struct Reason<'a> {
    /// The line, without its line feed.
    line: &'a [u8],
    refusal: Refusal,
    /// How many channels there are.
    channels: u8,
}

/// A number out of its range, as it is written.
#[derive(Clone, Copy)]
struct Outside<'a> {
    range: Range,
    word: &'a [u8],
}

/// How long a line may be.
fn write_length<W: fmt::Write>(f: &mut Formatter<W>) -> fmt::Result {
    write!(f, "a line has at most {LINE_OCTETS} bytes")
}

impl<'a> Reason<'a> {
    /// Why this line, without its line feed, got this reply in a run of so many channels; none where the line was accepted.
    pub fn of(line: &'a [u8], reply: &[u8], channels: u8) -> Option<Reason<'a>> {
        let refusal = refusal_told(reply)?;
        Some(Reason {
            line,
            refusal,
            channels,
        })
    }

    /// The word at this place of the line, from 0.
    fn word(&self, place: usize) -> Option<&'a [u8]> {
        Words::of(self.line).nth(place)
    }

    /// The first number of the line that is out of its range.
    fn outside(&self, verb: Verb) -> Option<Outside<'a>>
        ensures { IfSome result (λ number. is_in number.range number.word.now ≡ false) }
    {
        for place in 1..self.line.len() {
            let word = self.word(place)?;
            if let Some(range) = verb.range_at(place, self.channels)
                && !range.has(word)
            {
                return Some(Outside { range, word });
            }
        }
        None
    }

    /// What is out of its range: a number, or how many there are.
    fn write_range<W: fmt::Write>(&self, verb: Verb, f: &mut Formatter<W>) -> fmt::Result {
        match self.outside(verb) {
            Some(Outside { range, word }) => write!(
                f,
                "{} is {} to {}, here {}",
                range.name,
                range.least,
                range.most,
                Shown(word)
            ),
            None if verb == Verb::Chain => write!(f, "a channel has at most {MEMBERS} members"),
            None => write!(f, "there are at most {PARAMETER_WORDS} W"),
        }
    }

    /// Writes why a line with this verb was refused.
    fn write_of_verb<W: fmt::Write>(
        &self,
        verb: Verb,
        form: &str,
        f: &mut Formatter<W>,
    ) -> fmt::Result {
        let is_of_channel = matches!(verb, Verb::Chain | Verb::Unchain | Verb::Feed);
        f.write_str(match self.refusal {
            Refusal::Long => return write_length(f),
            Refusal::Syntax => return write!(f, "it is written {form}"),
            Refusal::Range => return self.write_range(verb, f),
            Refusal::Taken if is_of_channel => "the channel has members already",
            Refusal::Taken => "the instance is there already",
            Refusal::Missing if verb == Verb::Chain => "a member isn't there",
            Refusal::Missing if is_of_channel => "the channel has no members",
            Refusal::Missing => "the instance isn't there",
            Refusal::Params => "the kind doesn't take these parameters",
            Refusal::Room(_) => "no place is free for its memory",
            Refusal::Busy if verb == Verb::Chain => {
                "a member is in a channel already, or is named twice"
            }
            Refusal::Busy => "the instance is in a channel",
            Refusal::Command => "the instance doesn't take this control",
            Refusal::Short => "fewer samples are left on the channel's input",
        })
    }
}

impl Display for Reason<'_> {
    fn fmt<W: fmt::Write>(&self, f: &mut Formatter<W>) -> fmt::Result {
        let first = self.word(0).unwrap_or(&[]);
        match Verb::of(first) {
            Some((verb, form)) => self.write_of_verb(verb, form, f),
            None if self.refusal == Refusal::Long => write_length(f),
            None => write!(f, "no command is called {}", Shown(first)),
        }
    }
}
