//! The channels: how they are made and unmade.
ghost use Rattle.std.specs.Prelude.{◌≡◌, ◌≤◌, ℕ, false, [], map, replicate};
ghost use Rattle.host_spec.specs.State.{State};
ghost use Rattle.alg_host.specs.Hosts.{lives};
ghost use Rattle.alg_host.specs.Hosts as hosts;
ghost use Rattle.voice_channel.specs.Channels.{ChannelsRefine};
ghost use Rattle.channel_spec.specs.Channels.{unchained};

use crate::feeding::Between;
use crate::{CHANNELS, Members};
use alg_host::Host;
use arrayvec::ArrayVec;
use ialg::{Ialg, Refusal};
use std::marker::Model;

/// Channels over a host of instances of the kinds `M`. They can't be copied, and must be given back by [`close`](Channels::close).
pub struct Channels<M> {
    pub(crate) host: Host<M>,
    pub(crate) channels: ArrayVec<Members, CHANNELS>,
    pub(crate) between: Between,
}

impl<M> Model for Channels<M> {
    ghost use Rattle.std.specs.Prelude.{map};
    ghost use Rattle.voice_channel.specs.Channels.{ChannelsState};

    ghost Value = { ChannelsState M };

    ghost view = { λ c. record { host = c.host; chained = map (λ m. m.items) c.channels.items } };
}

/// So many channels, none of them chained.
fn unchained(count: u8) -> ArrayVec<Members, CHANNELS>
    requires most { count ≤ CHANNELS }
    ensures { map (λ m. m.items) result.items ≡ replicate count [] }
{
    let mut channels = ArrayVec::new();
    for _ in 0..count {
        channels.push(Members::new());
    }
    channels
}

impl<M: Ialg> Channels<M> {
    /// So many channels over a host without instances, none of them chained.
    pub fn new(host: Host<M>, count: u8) -> Channels<M>
        requires least { 1 ≤ count }
        requires most { count ≤ CHANNELS }
        requires empty { (i : ℕ) → lives host i ≡ false }
        ensures host { result.host ≡ host }
        ensures unchained { result.chained ≡ replicate count [] }
        ensures refines { (state : State M) → hosts.HostRefines M.law host state → ChannelsRefine M.law result (unchained state count) }
    {
        Channels {
            host,
            channels: unchained(count),
            between: Between::new(),
        }
    }

    /// Deletes every instance, in ascending number, and gives all memory back.
    pub fn close(self) {
        let Channels {
            host,
            channels: _,
            between: _,
        } = self;
        host.close();
    }
}
