//! What the console does with lines.
ghost use Rattle.std.specs.Prelude.{◌≡◌, true, length};
ghost use Rattle.channel_spec.specs.Channels.{members_at, is_chained};
ghost use Rattle.channel_spec.specs.Calls.Call.{Feed};
ghost use Rattle.voice_channel.specs.Channels.{ChannelsCallRefines};
ghost use Rattle.voice_script.specs.Widths.{octet_count};
ghost use Rattle.console_spec.specs.Samples.{samples_at};

use crate::console::Console;
use crate::samples::{read_samples, write_samples};
use ialg::{BLOCK_SAMPLES, Block, Ialg, Named, Params, Words};
use voice_channel::{Channels, Map};
use voice_script::{Ask, BLOCK_OCTETS, Command, FeedSamples, LineMachine, Reply, Width, parse};

/// Passes the samples of the octets, by the width of their port, through a channel: they stand in `input` then, and what the channel gives
/// takes the place of what `given` held.
///
/// A call, so that what a feed keeps takes no registers from the other commands.
#[inline(never)]
fn pass<M: Ialg>(
    channels: &mut Channels<M>,
    channel: u8,
    samples: FeedSamples,
    width: Width,
    octets: &[u8],
    input: &mut [i16; BLOCK_SAMPLES],
    given: &mut Block,
)
    requires ready { is_chained (members_at channels.old.chained channel) ≡ true }
    requires whole { length octets.now ≡ octet_count width samples.number }
    ensures chained { channels.new.chained ≡ channels.old.chained }
    ensures machine { ChannelsCallRefines M.law (Feed channel (samples_at width octets.now) given.new.items) channels.old channels.new }
{
    let block = &mut input[..usize::from(samples.number())];
    read_samples(width, octets, block);
    channels.feed(channel, block, given);
}

impl<M: Ialg + Named> LineMachine for Console<M> {
    ghost use Rattle.channel_spec.specs.Channels.{Channels};
    ghost use Rattle.console_spec.specs.Console.{console_machine};
    ghost use Rattle.dsp_console.specs.Consoles.{ConsoleRefines, channels_of, port_widths_of, TakesFeeds};

    ghost State = { Channels M };

    ghost machine = { console_machine M.law.meaning M.named };

    ghost refines = { ConsoleRefines M.law };

    ghost channels = { channels_of };

    ghost widths = { port_widths_of };

    ghost takes_feeds = { TakesFeeds };

    fn input_width(&self, channel: u8) -> Width {
        self.widths.input(channel)
    }

    fn output_width(&self, channel: u8) -> Width {
        self.widths.output(channel)
    }

    fn ask<'a>(
        &mut self,
        line: &[u8],
        parameters: &mut Params,
        map: &'a mut Map,
        words: &'a mut Words,
    ) -> Ask<'a> {
        match parse(line, parameters) {
            // most lines are feeds, for which no room for another command's words is cleared
            Ok(Some(Command::Feed { channel, samples })) => self.feed_asked(channel, samples),
            // instances come and go without the command being moved to `obey`
            Ok(
                Some(
                    Command::Create {
                        instance,
                        kind,
                        group,
                        parameters,
                    },
                ),
            ) => Ask::Tell(self.create(instance, kind, group, parameters)),
            Ok(Some(Command::Delete { instance })) => Ask::Tell(self.delete(instance)),
            Ok(Some(command)) => self.obey(command, map, words),
            Ok(None) => Ask::Nothing,
            Err(refusal) => Ask::Tell(Reply::No(refusal)),
        }
    }

    fn feed(&mut self, channel: u8, samples: FeedSamples, block: &mut [u8; BLOCK_OCTETS]) -> usize {
        let input_width = self.input_width(channel);
        let octets = input_width.octets_of(usize::from(samples.number()));
        pass(
            &mut self.channels,
            channel,
            samples,
            input_width,
            &block[..octets],
            &mut self.input,
            &mut self.given,
        );
        let count = self.given.len();
        let output_width = self.output_width(channel);
        let octets = output_width.octets_of(count);
        write_samples(output_width, self.given.as_slice(), &mut block[..octets]);
        count
    }
}
