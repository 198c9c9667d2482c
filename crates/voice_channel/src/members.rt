//! Which instances are in which channel.
ghost use Rattle.std.specs.Prelude.{◌≡◌, ◌<◌, true, Ok, None, IfNone, IsOk, length};
ghost use Rattle.channel_spec.specs.Channels.{Channels as State, members_at, is_chained};
ghost use Rattle.host_spec.specs.Steps.{unless};
ghost use Rattle.channel_spec.specs.Steps.{channel_refusal};
ghost use Rattle.channel_spec.specs.Calls.Call.{Ready};
ghost use Rattle.voice_channel.specs.Channels.{ChannelsCallRefines};

use crate::Channels;
use ialg::{Ialg, Refusal};

/// What a call that changes nothing answers.
fn answered<M>(refusal: Option<Refusal>) -> Result<(), Refusal>
    ensures granted { IsOk result → refusal ≡ None }
    ensures answer { (state : State M) → (result, state) ≡ unless refusal state (Ok tt, state) }
{
    match refusal {
        Some(refusal) => Err(refusal),
        None => Ok(()),
    }
}

impl<M: Ialg> Channels<M> {
    /// Why a channel can't be fed.
    pub(crate) fn refusal(&self, c: u8) -> Option<Refusal>
        ensures refusal { (state : State M) → state.chained ≡ self.now.chained → channel_refusal state c ≡ result }
        ensures number { IfNone result (c < length self.now.chained) }
        ensures able { IfNone result (is_chained (members_at self.now.chained c) ≡ true) }
    {
        let c = c as usize;
        if c >= self.channels.len() {
            return Some(Refusal::Range);
        }
        if self.channels[c].is_empty() {
            return Some(Refusal::Missing);
        }
        None
    }

    /// Whether a channel can be fed.
    ///
    /// # Errors
    ///
    /// `Range` where the number isn't below the number of channels, and `Missing` where the channel has no members.
    pub fn ready(&self, c: u8) -> Result<(), Refusal>
        ensures there { IsOk result → c < length self.now.chained }
        ensures able { IsOk result → is_chained (members_at self.now.chained c) ≡ true }
        ensures machine { ChannelsCallRefines M.law (Ready c result) self.now self.now }
    {
        answered::<M>(self.refusal(c))
    }
}
