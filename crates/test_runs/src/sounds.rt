//! Worked rows of what lines ask of the instances of a channel.
ghost use Rattle.test_runs.specs.Sounds.{SoundRows};

/// The law that calls of channels ask of the host what the worked rows say. The call does nothing: its contract is the law.
pub fn sound_rows()
    ensures { SoundRows }
{}
