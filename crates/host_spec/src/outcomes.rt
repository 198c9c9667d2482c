//! What each call answers, case by case, and the state after it.
ghost use Rattle.host_spec.specs.OutcomeLaws.{ControlGrants, ControlRefusesCommand, ControlRefusesMissing, ControlRefusesRange, CreationGrants, CreationRefusesParams, CreationRefusesRange, CreationRefusesRoom, CreationRefusesTaken, EmptyBlocksDoNothing, HostDeletionGrants, HostDeletionRefusesMissing, HostDeletionRefusesRange, ReleaseGrants, ReleaseRefusesRange, SamplesActivate, StatGrants, StatRefusesRange};

/// The law of a creation: a number out of range is refused first, then one that is taken, then the parameters, then what finds no room. The
/// call does nothing: its contract is the law.
pub fn creations_answer_in_order<M>()
    ensures range { CreationRefusesRange M }
    ensures taken { CreationRefusesTaken M }
    ensures params { CreationRefusesParams M }
    ensures room { CreationRefusesRoom M }
    ensures granted { CreationGrants M }
{}

/// The law of a control: one that is taken makes the instance the active member of its group and stands in its history. The call does
/// nothing.
pub fn controls_answer_in_order<M>()
    ensures range { ControlRefusesRange M }
    ensures missing { ControlRefusesMissing M }
    ensures command { ControlRefusesCommand M }
    ensures granted { ControlGrants M }
{}

/// The law of samples: a block that isn't empty makes the instance the active member of its group and stands in its history, and an empty
/// one does nothing. The call does nothing.
pub fn samples_touch<M>()
    ensures some { SamplesActivate M }
    ensures none { EmptyBlocksDoNothing M }
{}

/// The law of a deletion. The call does nothing.
pub fn deletions_answer_in_order<M>()
    ensures range { HostDeletionRefusesRange M }
    ensures missing { HostDeletionRefusesMissing M }
    ensures granted { HostDeletionGrants M }
{}

/// The law of calls about a group. The call does nothing.
pub fn groups_answer_in_order<M>()
    ensures release_range { ReleaseRefusesRange M }
    ensures release { ReleaseGrants M }
    ensures stat_range { StatRefusesRange M }
    ensures stat { StatGrants M }
{}
