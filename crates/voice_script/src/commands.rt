//! Commands, and the lines that ask them.
ghost use Rattle.std.specs.Prelude.{◌≡◌};
ghost use Rattle.voice_script.specs.Script.{create_row, control_row, chain_row, feed_row, only_number, only_space, to, memory_command_of, command_of, parsed};
ghost use Rattle.voice_script.specs.Script.Command.{Compact, Delete, Map, Release, Stat, Step, Unchain};
ghost use Rattle.voice_script.specs.Readings.{get_row, reset_row, set_row, to_come};
ghost use Rattle.voice_script.specs.Commands.{line_of};
ghost use Rattle.voice_script.specs.RowViews.{row_of};

use crate::members::Members;
use crate::numbers::Number;
use crate::samples::FeedSamples;
use crate::words::Words;
use ialg::{Named, Params, Refusal};
use mem_rec::Space;

/// What a line asks: a variant for each row of the grammar. Parameters stand where the caller of [`parse`] has room for them.
#[derive(Drop)]
pub enum Command<'a, M> {
    /// A new instance.
    Create {
        instance: u8,
        kind: M,
        group: u8,
        parameters: &'a Params,
    },
    /// These words come into force.
    Set {
        instance: u8,
        words: &'a Params,
    },
    /// The past samples are forgotten.
    Reset {
        instance: u8,
    },
    /// The instance's words are asked for.
    Get {
        instance: u8,
    },
    /// The instance ends.
    Delete {
        instance: u8,
    },
    /// A new channel of these instances.
    Chain {
        channel: u8,
        members: Members,
    },
    /// The channel ends; its members stay.
    Unchain {
        channel: u8,
    },
    /// So many samples of the channel's input go through its members.
    Feed {
        channel: u8,
        samples: FeedSamples,
    },
    /// All blocks of the space move as low as they can.
    Compact {
        space: Space,
    },
    /// One block of the space moves, if one can.
    Step {
        space: Space,
    },
    /// The active member of the group is deactivated.
    Release {
        group: u8,
    },
    /// The blocks of the space are asked for.
    Map {
        space: Space,
    },
    /// The active member of the group and its activations are asked for.
    Stat {
        group: u8,
    },
}

/// `create` I KIND G W*
#[inline(always)]
fn create_row<'a, M: Named + Copy>(
    mut words: Words<'_>,
    room: &'a mut Params,
) -> Result<Command<'a, M>, Refusal>
    ensures { row_of result ≡ create_row M.named (to_come words.entry) }
{
    let instance = words.number()?;
    let kind = words.kind()?;
    let group = words.number()?;
    words.parameters(room)?;
    let i = instance.byte()?;
    let g = group.byte()?;
    Ok(Command::Create {
        instance: i,
        kind,
        group: g,
        parameters: room,
    })
}

/// `control` I `set` W*
fn set_row<'a, M: Copy>(
    instance: Number<'_>,
    words: Words<'_>,
    room: &'a mut Params,
) -> Result<Command<'a, M>, Refusal>
    ensures { row_of result ≡ set_row instance.entry.word.now (to_come words.entry) }
{
    words.parameters(room)?;
    Ok(Command::Set {
        instance: instance.byte()?,
        words: room,
    })
}

/// `control` I `reset`
fn reset_row<'a, M: Copy>(instance: Number<'_>, words: Words<'_>) -> Result<Command<'a, M>, Refusal>
    ensures { row_of result ≡ reset_row instance.entry.word.now (to_come words.entry) }
{
    words.end()?;
    Ok(Command::Reset {
        instance: instance.byte()?,
    })
}

/// `control` I `get`
fn get_row<'a, M: Copy>(instance: Number<'_>, words: Words<'_>) -> Result<Command<'a, M>, Refusal>
    ensures { row_of result ≡ get_row instance.entry.word.now (to_come words.entry) }
{
    words.end()?;
    Ok(Command::Get {
        instance: instance.byte()?,
    })
}

/// `control` I and the word behind it
fn control_row<'a, M: Copy>(
    mut words: Words<'_>,
    room: &'a mut Params,
) -> Result<Command<'a, M>, Refusal>
    ensures { row_of result ≡ control_row (to_come words.entry) }
{
    let instance = words.number()?;
    let Some(control) = words.next() else {
        return Err(Refusal::Syntax);
    };
    if control == b"set".as_slice() {
        set_row(instance, words, room)
    } else if control == b"reset".as_slice() {
        reset_row(instance, words)
    } else if control == b"get".as_slice() {
        get_row(instance, words)
    } else {
        Err(Refusal::Syntax)
    }
}

/// `chain` C I+
fn chain_row<'a, M: Copy>(mut words: Words<'_>) -> Result<Command<'a, M>, Refusal>
    ensures { row_of result ≡ chain_row (to_come words.entry) }
{
    let channel = words.number()?;
    let Some(members) = Members::of(words.members()?) else {
        return Err(Refusal::Syntax);
    };
    Ok(Command::Chain {
        channel: channel.byte()?,
        members,
    })
}

/// `feed` C N
#[inline(always)]
fn feed_row<'a, M: Copy>(mut words: Words<'_>) -> Result<Command<'a, M>, Refusal>
    ensures { row_of result ≡ feed_row (to_come words.entry) }
{
    let channel = words.number()?;
    let samples = words.number()?;
    words.end()?;
    let c = channel.byte()?;
    let n = samples.samples()?;
    Ok(Command::Feed {
        channel: c,
        samples: n,
    })
}

/// `delete` I
fn delete_row<'a, M: Copy>(words: Words<'_>) -> Result<Command<'a, M>, Refusal>
    ensures { row_of result ≡ to Delete (only_number (to_come words.entry)) }
{
    Ok(Command::Delete {
        instance: words.only_number()?,
    })
}

/// `unchain` C
fn unchain_row<'a, M: Copy>(words: Words<'_>) -> Result<Command<'a, M>, Refusal>
    ensures { row_of result ≡ to Unchain (only_number (to_come words.entry)) }
{
    Ok(Command::Unchain {
        channel: words.only_number()?,
    })
}

/// `compact` S
fn compact_row<'a, M: Copy>(words: Words<'_>) -> Result<Command<'a, M>, Refusal>
    ensures { row_of result ≡ to Compact (only_space (to_come words.entry)) }
{
    Ok(Command::Compact {
        space: words.only_space()?,
    })
}

/// `step` S
fn step_row<'a, M: Copy>(words: Words<'_>) -> Result<Command<'a, M>, Refusal>
    ensures { row_of result ≡ to Step (only_space (to_come words.entry)) }
{
    Ok(Command::Step {
        space: words.only_space()?,
    })
}

/// `release` G
fn release_row<'a, M: Copy>(words: Words<'_>) -> Result<Command<'a, M>, Refusal>
    ensures { row_of result ≡ to Release (only_number (to_come words.entry)) }
{
    Ok(Command::Release {
        group: words.only_number()?,
    })
}

/// `map` S
fn map_row<'a, M: Copy>(words: Words<'_>) -> Result<Command<'a, M>, Refusal>
    ensures { row_of result ≡ to Map (only_space (to_come words.entry)) }
{
    Ok(Command::Map {
        space: words.only_space()?,
    })
}

/// `stat` G
fn stat_row<'a, M: Copy>(words: Words<'_>) -> Result<Command<'a, M>, Refusal>
    ensures { row_of result ≡ to Stat (only_number (to_come words.entry)) }
{
    Ok(Command::Stat {
        group: words.only_number()?,
    })
}

/// The command of a line that begins with this word, which is of memory or a group.
fn memory_command_of<'a, M: Copy>(name: &[u8], words: Words<'_>) -> Result<Command<'a, M>, Refusal>
    ensures { row_of result ≡ memory_command_of name.now (to_come words.entry) }
{
    if name == b"compact".as_slice() {
        compact_row(words)
    } else if name == b"step".as_slice() {
        step_row(words)
    } else if name == b"release".as_slice() {
        release_row(words)
    } else if name == b"map".as_slice() {
        map_row(words)
    } else if name == b"stat".as_slice() {
        stat_row(words)
    } else {
        Err(Refusal::Syntax)
    }
}

/// The command of a line that begins with this word.
fn command_of<'a, M: Named + Copy>(
    name: &[u8],
    words: Words<'_>,
    room: &'a mut Params,
) -> Result<Command<'a, M>, Refusal>
    ensures { row_of result ≡ command_of M.named name.now (to_come words.entry) }
{
    if name == b"feed".as_slice() {
        feed_row(words)
    } else if name == b"create".as_slice() {
        create_row(words, room)
    } else if name == b"control".as_slice() {
        control_row(words, room)
    } else if name == b"delete".as_slice() {
        delete_row(words)
    } else if name == b"chain".as_slice() {
        chain_row(words)
    } else if name == b"unchain".as_slice() {
        unchain_row(words)
    } else {
        memory_command_of(name, words)
    }
}

/// The command of a line that isn't long: None for a blank one. Its parameters stand in `room` then, in place of what stood there.
pub fn parse<'a, M: Named + Copy>(
    line: &[u8],
    room: &'a mut Params,
) -> Result<Option<Command<'a, M>>, Refusal>
    ensures { line_of result ≡ parsed M.named line.now }
{
    let mut words = Words::of(line);
    // most lines are feeds
    if words.skip_feed() {
        return Ok(Some(feed_row(words)?));
    }
    // and many make or end an instance
    if words.skip_create() {
        return Ok(Some(create_row(words, room)?));
    }
    if words.skip_delete() {
        return Ok(Some(delete_row(words)?));
    }
    let Some(name) = words.next() else {
        return Ok(None);
    };
    Ok(Some(command_of(name, words, room)?))
}
