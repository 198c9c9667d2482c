//! The laws of cuts.
ghost use Rattle.channel_spec.specs.CutLaws.{AnyCutsAgree, AnyCutsLeaveOneActivity, ChannelsOfTwoRunsAgree, ControlsAgreeWhereAlike, TwoBlocksAreOne};

/// The law that the cutting of a channel's samples into blocks doesn't show, where its members are lawful and none is named twice: what
/// it gives for two blocks is what it gives for the two as one, and any two cuttings of the same samples, fed where all but the
/// activity of groups is alike, give the same and leave all but the activity alike. Where no two members share a group, they leave the
/// activity alike too. The call does nothing: its contract is the law.
pub fn cuts_do_not_show<M>()
    ensures two { TwoBlocksAreOne M }
    ensures any { AnyCutsAgree M }
    ensures activity { AnyCutsLeaveOneActivity M }
{}

/// The law that a lawful instance answers a control the same in channels that are alike, which stay alike: so the cutting of samples
/// doesn't show over a run of blocks and controls. The call does nothing.
pub fn controls_agree_where_all_is_alike<M>()
    ensures { ControlsAgreeWhereAlike M }
{}

/// The law that in two runs channels whose members were given the same give the same for the same samples, and their members have then
/// been given the same again. Member by member these are lawful, of one kind and with the same parameters; the sizes of the hosts, their
/// poison words, all numbers and groups, the other instances, what moves, and how the samples are cut into blocks may differ. No member
/// is named twice. The call does nothing.
pub fn channels_agree<M>()
    ensures { ChannelsOfTwoRunsAgree M }
{}
