//! Which call a command is.
ghost use Rattle.std.specs.Prelude.{◌≡◌};
ghost use Rattle.voice_script.specs.Commands.{command_of};
ghost use Rattle.voice_script.specs.Asks.{asked_of, AskIsReady};
ghost use Rattle.dsp_console.specs.Consoles.{AsksByCommand, channels_of, port_widths_of, TakesFeeds};

use crate::console::Console;
use ialg::{Ialg, Words};
use voice_channel::Map;
use voice_script::{Ask, Command};

impl<M: Ialg> Console<M> {
    /// Does what a command asks; a feed's samples are yet to come. A map or words that are told of stand in `map` and `room` then.
    #[inline(never)]
    pub(crate) fn obey<'a>(
        &mut self,
        command: Command<'_, M>,
        map: &'a mut Map,
        room: &'a mut Words,
    ) -> Ask<'a>
        ensures channels { channels_of self.new ≡ channels_of self.old }
        ensures widths { self.new.widths ≡ self.old.widths }
        ensures ready { AskIsReady TakesFeeds channels_of self.new result }
        ensures asks { AsksByCommand M.law (command_of command.entry) (asked_of (port_widths_of self.old) result) self.old self.new }
    {
        match command {
            Command::Create {
                instance,
                kind,
                group,
                parameters,
            } => Ask::Tell(self.create(instance, kind, group, parameters)),
            Command::Set { instance, words } => Ask::Tell(self.set(instance, words, room)),
            Command::Reset { instance } => Ask::Tell(self.reset(instance, room)),
            Command::Get { instance } => Ask::Tell(self.get(instance, room)),
            Command::Delete { instance } => Ask::Tell(self.delete(instance)),
            Command::Chain { channel, members } => Ask::Tell(self.chain(channel, &members)),
            Command::Unchain { channel } => Ask::Tell(self.unchain(channel)),
            Command::Feed { channel, samples } => self.feed_asked(channel, samples),
            Command::Compact { space } => Ask::Tell(self.compact(space)),
            Command::Step { space } => Ask::Tell(self.step(space)),
            Command::Release { group } => Ask::Tell(self.release(group)),
            Command::Map { space } => Ask::Tell(self.map(space, map)),
            Command::Stat { group } => Ask::Tell(self.stat(group)),
        }
    }
}
