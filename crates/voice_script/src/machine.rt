//! What answers lines.
ghost use Rattle.std.specs.Prelude.{◌≡◌, ◌≤◌, ℕ, length};
ghost use Rattle.ialg.specs.declared.TheConstants.{BLOCK_SAMPLES};
ghost use Rattle.voice_script.specs.declared.limits.TheConstants.{LINE_OCTETS};
ghost use Rattle.voice_script.specs.Served.{Machine};
ghost use Rattle.voice_script.specs.Asks.{asked_of, AskIsReady, AsksForLine, GivesForFeed, IsReady};
ghost use Rattle.voice_script.specs.Widths.{Widths};

use crate::octets::BLOCK_OCTETS;
use crate::width::Width;
use crate::{FeedSamples, Reply};
use host_map::Map;
use ialg::{Params, Words};

/// What a line asks of the ports.
#[derive(Drop)]
pub enum Ask<'a> {
    /// Nothing.
    Nothing,
    /// This reply.
    Tell(Reply<'a>),
    /// The octets of so many samples of the channel's input.
    Feed { channel: u8, samples: FeedSamples },
}

/// What answers a script's lines, and takes the samples that they ask for.
pub trait LineMachine {
    /// What it is, whatever memory it keeps that in.
    ghost State: { Type 0 };

    /// What it may do with lines, by the widths of its channels' ports.
    ghost machine: { Widths → Machine State };

    /// Its memory refines this state: it is what the memory represents.
    ghost refines: { Self → State → Type 0 };

    /// Channels have the numbers below this.
    ghost channels: { Self → ℕ };

    /// What its channels' ports carry samples as. It stays so.
    ghost widths: { Self → Widths };

    /// A feed may give samples to the channel of this number.
    ghost takes_feeds: { Self → ℕ → Type 0 };

    /// What the channel's input carries a sample as.
    fn input_width(&self, channel: u8) -> Width
        ensures { result ≡ (widths self.now).input channel };

    /// What the channel's output carries a sample as.
    fn output_width(&self, channel: u8) -> Width
        ensures { result ≡ (widths self.now).output channel };

    /// Does what the line asks; a feed's samples are yet to come. The words of the line, which are an instance's parameters or a control's,
    /// stand in `parameters` meanwhile, whatever that held. A map that is told of stands in `map` then, and an instance's words in `words`.
    fn ask<'a>(
        &mut self,
        line: &[u8],
        parameters: &mut Params,
        map: &'a mut Map,
        words: &'a mut Words,
    ) -> Ask<'a>
        requires short { length line.now ≤ LINE_OCTETS }
        ensures channels { channels self.new ≡ channels self.old }
        ensures widths { widths self.new ≡ widths self.old }
        ensures ready { AskIsReady takes_feeds channels self.new result }
        ensures asks { AsksForLine (machine (widths self.old)) line.now (asked_of (widths self.old) result) (refines self.old) (refines self.new) };

    /// Gives the samples of a feed to the channel, whose octets stand at the beginning of `block`. The octets of what the channel
    /// gives stand there afterwards; it answers how many samples that are. Of the rest of `block` nothing is said.
    fn feed(&mut self, channel: u8, samples: FeedSamples, block: &mut [u8; BLOCK_OCTETS]) -> usize
        requires ready { IsReady takes_feeds channels self.old channel }
        ensures channels { channels self.new ≡ channels self.old }
        ensures widths { widths self.new ≡ widths self.old }
        ensures bounded { result ≤ BLOCK_SAMPLES }
        ensures gives { GivesForFeed machine (widths self.old) channel samples.number block.old result block.new (refines self.old) (refines self.new) };
}
