//! The commands of a script, by their first words.
use crate::numbers::{GROUP, INSTANCE, Range, SAMPLES, WORD};

/// What a line begins with.
#[derive(Clone, Copy, PartialEq, Eq, Debug)]
pub(crate) enum Verb {
    Create,
    Control,
    Delete,
    Chain,
    Unchain,
    Feed,
    Compact,
    Step,
    Release,
    Map,
    Stat,
}

/// Each command's first word and how it is written.
const VERBS: [(&str, Verb, &str); 11] = [
    ("create", Verb::Create, "create I KIND G W .."),
    (
        "control",
        Verb::Control,
        "control I set W .., control I reset or control I get",
    ),
    ("delete", Verb::Delete, "delete I"),
    ("chain", Verb::Chain, "chain C I .."),
    ("unchain", Verb::Unchain, "unchain C"),
    ("feed", Verb::Feed, "feed C N"),
    ("compact", Verb::Compact, "compact SPACE"),
    ("step", Verb::Step, "step SPACE"),
    ("release", Verb::Release, "release G"),
    ("map", Verb::Map, "map SPACE"),
    ("stat", Verb::Stat, "stat G"),
];

impl Verb {
    /// The command that begins with this word, and how it is written.
    pub(crate) fn of(word: &[u8]) -> Option<(Verb, &'static str)> {
        for (name, verb, form) in &VERBS {
            if name.as_bytes() == word {
                return Some((*verb, *form));
            }
        }
        None
    }

    /// What the word at this place of the command, behind its first, is: none where it isn't a number. A channel is one of so many.
    pub(crate) fn range_at(self, place: usize, channels: u8) -> Option<Range> {
        let channel = Range::of_channels(channels);
        match (self, place) {
            (Verb::Create | Verb::Control | Verb::Delete, 1) => Some(INSTANCE),
            (Verb::Create, 2) | (Verb::Control, 2) => None,
            (Verb::Create, 3) | (Verb::Release | Verb::Stat, _) => Some(GROUP),
            (Verb::Create | Verb::Control, _) => Some(WORD),
            (Verb::Chain | Verb::Unchain | Verb::Feed, 1) => Some(channel),
            (Verb::Chain, _) => Some(INSTANCE),
            (Verb::Feed, _) => Some(SAMPLES),
            _ => None,
        }
    }
}
