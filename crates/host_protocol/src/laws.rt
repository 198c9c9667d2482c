//! The laws of the protocol.
ghost use Rattle.host_protocol.specs.Order.{ActiveMembersLive, CallsAreInOrder, RunsAreInOrder};

/// The law that the calls of IALG that a host makes are in the order that IALG lays down, for each instance: over one call of the host,
/// and over any list of them. The call does nothing: its contract is the law.
pub fn calls_are_in_order<M>()
    ensures order { CallsAreInOrder M }
    ensures active { ActiveMembersLive M }
    ensures run { RunsAreInOrder M }
{}
