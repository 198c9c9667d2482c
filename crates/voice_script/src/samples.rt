//! How many samples a feed takes.
ghost use Rattle.std.specs.Prelude.{◌≡◌, ◌≤◌};
ghost use Rattle.voice_script.specs.declared.limits.TheConstants.{FEED_SAMPLES};

use crate::limits::FEED_SAMPLES;

/// How many samples a feed takes, 1 to [`FEED_SAMPLES`].
#[derive(Clone, Copy, PartialEq, Eq)]
pub struct FeedSamples {
    number: u16,
    ghost some: { 1 ≤ number },
    ghost few: { number ≤ FEED_SAMPLES },
}

impl FeedSamples {
    /// A feed of `number` samples.
    pub fn new(number: u16) -> FeedSamples
        requires some { 1 ≤ number }
        requires few { number ≤ FEED_SAMPLES }
        ensures { result.number ≡ number }
    {
        FeedSamples { number }
    }

    /// The number of samples.
    pub fn number(self) -> u16
        ensures value { result ≡ self.number }
        ensures some { 1 ≤ result }
        ensures few { result ≤ FEED_SAMPLES }
    {
        self.number
    }
}
