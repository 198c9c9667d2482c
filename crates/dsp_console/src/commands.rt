//! What commands do: each is a call of the channels, whose answer is told.
ghost use Rattle.std.specs.Prelude.{◌≡◌};
ghost use Rattle.voice_script.specs.Script.Command.{Chain, Compact, Control, Create, Delete, Feed, Map, Release, Stat, Step, Unchain};
ghost use Rattle.ialg.specs.History.{Get, Reset, Set};
ghost use Rattle.voice_script.specs.Asks.{asked_of, AskIsReady};
ghost use Rattle.ialg.specs.Views.{control_of};
ghost use Rattle.dsp_console.specs.Consoles.{AsksByCommand, channels_of, port_widths_of, TakesFeeds, TellsOf};

use crate::console::Console;
use crate::replies::{tell_done, tell_flag, tell_stat, tell_status};
use ialg::{Ctl, Ialg, Params, Words, copied};
use mem_rec::Space;
use voice_channel::Map;
use voice_script::{Ask, FeedSamples, Members, Reply};

impl<M: Ialg> Console<M> {
    /// Creates an instance.
    #[inline(never)]
    pub(crate) fn create<'a>(&mut self, i: u8, kind: M, group: u8, parameters: &Params) -> Reply<'a>
        ensures channels { channels_of self.new ≡ channels_of self.old }
        ensures widths { self.new.widths ≡ self.old.widths }
        ensures asks { TellsOf M.law (Create i kind group parameters.now.items) result self.old self.new }
    {
        tell_done(self.channels.create(i, kind, group, parameters))
    }

    /// Puts the words that are answered in place of what `room` held. It is a call of its own too.
    #[inline(never)]
    pub(crate) fn control<'a>(&mut self, i: u8, control: &Ctl, room: &'a mut Words) -> Reply<'a>
        ensures channels { channels_of self.new ≡ channels_of self.old }
        ensures widths { self.new.widths ≡ self.old.widths }
        ensures asks { TellsOf M.law (Control i (control_of control.now)) result self.old self.new }
    {
        tell_status(self.channels.control(i, control), room)
    }

    /// Asks an instance to put these words into force. It is a call of its own, so that no other command clears room for them.
    #[inline(never)]
    pub(crate) fn set<'a>(&mut self, i: u8, words: &Params, room: &'a mut Words) -> Reply<'a>
        ensures channels { channels_of self.new ≡ channels_of self.old }
        ensures widths { self.new.widths ≡ self.old.widths }
        ensures asks { TellsOf M.law (Control i (Set words.now.items)) result self.old self.new }
    {
        self.control(i, &Ctl::Set(copied(words.as_slice())), room)
    }

    /// Has an instance forget its past samples. It is a call of its own, as [`set`](Self::set) is.
    #[inline(never)]
    pub(crate) fn reset<'a>(&mut self, i: u8, room: &'a mut Words) -> Reply<'a>
        ensures channels { channels_of self.new ≡ channels_of self.old }
        ensures widths { self.new.widths ≡ self.old.widths }
        ensures asks { TellsOf M.law (Control i Reset) result self.old self.new }
    {
        self.control(i, &Ctl::Reset, room)
    }

    /// Asks for an instance's words. It is a call of its own, as [`set`](Self::set) is.
    #[inline(never)]
    pub(crate) fn get<'a>(&mut self, i: u8, room: &'a mut Words) -> Reply<'a>
        ensures channels { channels_of self.new ≡ channels_of self.old }
        ensures widths { self.new.widths ≡ self.old.widths }
        ensures asks { TellsOf M.law (Control i Get) result self.old self.new }
    {
        self.control(i, &Ctl::Get, room)
    }

    /// Deletes an instance.
    pub(crate) fn delete<'a>(&mut self, i: u8) -> Reply<'a>
        ensures channels { channels_of self.new ≡ channels_of self.old }
        ensures widths { self.new.widths ≡ self.old.widths }
        ensures asks { TellsOf M.law (Delete i) result self.old self.new }
    {
        tell_done(self.channels.delete(i))
    }

    /// Makes a channel of these members.
    pub(crate) fn chain<'a>(&mut self, c: u8, members: &Members) -> Reply<'a>
        ensures channels { channels_of self.new ≡ channels_of self.old }
        ensures widths { self.new.widths ≡ self.old.widths }
        ensures asks { TellsOf M.law (Chain c members.now.numbers.items) result self.old self.new }
    {
        tell_done(self.channels.chain(c, members.as_slice()))
    }

    /// Takes its members from a channel.
    pub(crate) fn unchain<'a>(&mut self, c: u8) -> Reply<'a>
        ensures channels { channels_of self.new ≡ channels_of self.old }
        ensures widths { self.new.widths ≡ self.old.widths }
        ensures asks { TellsOf M.law (Unchain c) result self.old self.new }
    {
        tell_done(self.channels.unchain(c))
    }

    /// Asks for a feed's samples, where the channel is ready.
    pub(crate) fn feed_asked<'a>(&self, c: u8, samples: FeedSamples) -> Ask<'a>
        ensures ready { AskIsReady TakesFeeds channels_of self.now result }
        ensures asks { AsksByCommand M.law (Feed c samples.number) (asked_of (port_widths_of self.now) result) self.now self.now }
    {
        match self.channels.ready(c) {
            Ok(()) => Ask::Feed {
                channel: c,
                samples,
            },
            Err(refusal) => Ask::Tell(Reply::No(refusal)),
        }
    }

    /// Packs the blocks of a space: the reply counts the moves.
    pub(crate) fn compact<'a>(&mut self, space: Space) -> Reply<'a>
        ensures channels { channels_of self.new ≡ channels_of self.old }
        ensures widths { self.new.widths ≡ self.old.widths }
        ensures asks { TellsOf M.law (Compact space) result self.old self.new }
    {
        Reply::Count(self.channels.compact(space))
    }

    /// Makes the next move of a space: the reply says whether a block moved.
    pub(crate) fn step<'a>(&mut self, space: Space) -> Reply<'a>
        ensures channels { channels_of self.new ≡ channels_of self.old }
        ensures widths { self.new.widths ≡ self.old.widths }
        ensures asks { TellsOf M.law (Step space) result self.old self.new }
    {
        Reply::Flag(self.channels.step(space))
    }

    /// Deactivates the active member of a group: the reply says whether there was one.
    pub(crate) fn release<'a>(&mut self, group: u8) -> Reply<'a>
        ensures channels { channels_of self.new ≡ channels_of self.old }
        ensures widths { self.new.widths ≡ self.old.widths }
        ensures asks { TellsOf M.law (Release group) result self.old self.new }
    {
        tell_flag(self.channels.release(group))
    }

    /// Puts the blocks of the space in place of what the map held.
    pub(crate) fn map<'a>(&self, space: Space, map: &'a mut Map) -> Reply<'a>
        ensures asks { TellsOf M.law (Map space) result self.now self.now }
    {
        map.clear();
        let _fits = map.try_extend_from_slice(self.channels.blocks_in(space));
        Reply::Map(map)
    }

    /// Replies with the active member of a group and its count of activations.
    pub(crate) fn stat<'a>(&self, group: u8) -> Reply<'a>
        ensures asks { TellsOf M.law (Stat group) result self.now self.now }
    {
        tell_stat(self.channels.stat(group))
    }
}
