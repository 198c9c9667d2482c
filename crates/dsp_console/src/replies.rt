//! What is told of answers.
ghost use Rattle.std.specs.Prelude.{◌≡◌};
ghost use Rattle.voice_script.specs.Replies as replies;
ghost use Rattle.voice_script.specs.ReplyViews.{reply_of};
ghost use Rattle.host_moves.specs.Refinement.{told};
ghost use Rattle.voice_channel.specs.Hosts.{stat_told};
ghost use Rattle.console_spec.specs.Console.{status_reply};
ghost use Rattle.console_spec.specs.Told.{told_by};

use ialg::{Refusal, Status, Words};
use voice_channel::Stat;
use voice_script::Reply;

/// The reply to a call that answers nothing.
pub(crate) fn tell_done<'a>(answer: Result<(), Refusal>) -> Reply<'a>
    ensures { reply_of result ≡ told_by (λ _. replies.Done) answer }
{
    match answer {
        Ok(()) => Reply::Done,
        Err(refusal) => Reply::No(refusal),
    }
}

/// The reply to a control. Words that are answered stay in `room`.
pub(crate) fn tell_status<'a>(answer: Result<Status, Refusal>, room: &'a mut Words) -> Reply<'a>
    ensures { reply_of result ≡ told_by status_reply (told answer) }
{
    match answer {
        Ok(Status::Done) => Reply::Done,
        Ok(Status::Words(words)) => {
            *room = words;
            Reply::Words(room)
        }
        Err(refusal) => Reply::No(refusal),
    }
}

/// The reply to a call that answers yes or no.
pub(crate) fn tell_flag<'a>(answer: Result<bool, Refusal>) -> Reply<'a>
    ensures { reply_of result ≡ told_by replies.Flag answer }
{
    match answer {
        Ok(flag) => Reply::Flag(flag),
        Err(refusal) => Reply::No(refusal),
    }
}

/// The reply about a group.
pub(crate) fn tell_stat<'a>(answer: Result<Stat, Refusal>) -> Reply<'a>
    ensures { reply_of result ≡ told_by (λ s. replies.Stat s.active s.count) (stat_told answer) }
{
    match answer {
        Ok(stat) => Reply::Stat(stat),
        Err(refusal) => Reply::No(refusal),
    }
}
