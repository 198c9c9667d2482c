//! The numbers of a line and their ranges.
ghost use Rattle.std.specs.Prelude.{◌≡◌, ◌<ℤ◌, pos, neg_ℤ};
ghost use Rattle.voice_script.specs.declared.limits.TheConstants.{GREATEST_MAGNITUDE};

use mem_rec::{GROUPS, INSTANCES};
use voice_script::{FEED_SAMPLES, value_of};

/// A number of a script as it is called in the documents, and its range, which is less than what a script's numbers are told apart in.
#[derive(Clone, Copy, PartialEq, Eq, Debug)]
pub(crate) struct Range {
    pub(crate) name: &'static str,
    pub(crate) least: i32,
    pub(crate) most: i32,
    ghost from: { neg_ℤ (pos GREATEST_MAGNITUDE) <ℤ least },
    ghost to: { most <ℤ pos GREATEST_MAGNITUDE },
}

/// An instance.
pub(crate) const INSTANCE: Range = Range {
    name: "I",
    least: 0,
    most: INSTANCES as i32 - 1,
};

/// A group.
pub(crate) const GROUP: Range = Range {
    name: "G",
    least: 0,
    most: GROUPS as i32 - 1,
};

/// The samples of a feed.
pub(crate) const SAMPLES: Range = Range {
    name: "N",
    least: 1,
    most: FEED_SAMPLES as i32,
};

/// A word.
pub(crate) const WORD: Range = Range {
    name: "W",
    least: i16::MIN as i32,
    most: i16::MAX as i32,
};

impl Range {
    ghost use Rattle.script_reasons.specs.Ranges.{is_in};

    /// A channel, one of so many.
    pub(crate) fn of_channels(channels: u8) -> Range {
        Range {
            name: "C",
            least: 0,
            most: i32::from(channels) - 1,
        }
    }

    /// Whether the word is a number of the range.
    pub(crate) fn has(self, word: &[u8]) -> bool
        ensures { result ≡ is_in self word.now }
    {
        match value_of(word) {
            Some(value) => self.least <= value && value <= self.most,
            None => false,
        }
    }
}
