//! Worked rows, checked on the definitions.
ghost use Rattle.test_runs.specs.VoiceRows.{VoiceRows};
ghost use Rattle.test_runs.specs.CreationRows.{CreationRows};
ghost use Rattle.test_runs.specs.SharingRows.{SharingRows};
ghost use Rattle.test_runs.specs.RunRows.{RunRows};

/// The law that the machine of the hosted kinds answers what the worked rows say, under each poison word and under none. The call does
/// nothing: its contract is the law.
pub fn voice_rows()
    ensures { VoiceRows }
{}

/// The law that creations place and replace blocks as the worked rows say, for kinds that ask for any memory. The call does nothing.
pub fn creation_rows()
    ensures { CreationRows }
{}

/// The law that write-once blocks are shared as the worked rows say. The call does nothing.
pub fn sharing_rows()
    ensures { SharingRows }
{}

/// The law that of a run of calls an instance was given, gave and answered what the worked rows say. The call does nothing.
pub fn run_rows()
    ensures { RunRows }
{}
