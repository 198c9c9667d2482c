//! The console: how it is made.
ghost use Rattle.std.specs.Prelude.{◌≡◌, ◌≤◌, ℕ, false, length};
ghost use Rattle.host_spec.specs.State.{State};
ghost use Rattle.voice_channel.specs.Hosts.{lives};
ghost use Rattle.voice_channel.specs.Hosts as hosts;
ghost use Rattle.dsp_console.specs.Consoles.{ConsoleRefines, channels_of};
ghost use Rattle.channel_spec.specs.Channels.{unchained};

use ialg::{BLOCK_SAMPLES, Block, Ialg};
use voice_channel::{CHANNELS, Channels, Host};
use voice_script::PortWidths;

/// A console over channels. It can't be copied, and must be given back by [`close`](Console::close).
pub struct Console<M> {
    pub(crate) channels: Channels<M>,
    pub(crate) widths: PortWidths,
    // The samples of a feed, and what the channel gives for them: each is made once, since a new one is cleared.
    pub(crate) input: [i16; BLOCK_SAMPLES],
    pub(crate) given: Block,
}

impl<M: Ialg> Console<M> {
    /// A console with so many channels over a host without instances, whose ports have these widths.
    pub fn new(host: Host<M>, count: u8, widths: PortWidths) -> Console<M>
        requires least { 1 ≤ count }
        requires most { count ≤ CHANNELS }
        requires empty { (i : ℕ) → lives host i ≡ false }
        ensures host { result.channels.host ≡ host }
        ensures count { channels_of result ≡ count }
        ensures widths { result.widths ≡ widths }
        ensures refines { (state : State M) → hosts.HostRefines M.law host state → ConsoleRefines M.law result (unchained state count) }
    {
        Console {
            channels: Channels::new(host, count),
            widths,
            input: [0; BLOCK_SAMPLES],
            given: Block::new(),
        }
    }

    /// Deletes every instance, in ascending number, and gives all memory back.
    pub fn close(self) {
        let Console {
            channels,
            widths: _,
            input: _,
            given: _,
        } = self;
        channels.close();
    }
}
