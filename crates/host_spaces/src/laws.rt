//! What the steps of a creation come to.
ghost use Rattle.host_spaces.specs.Laws.{CreationsAreMade, CreationsAreRefused};

/// The law that a creation is made by placing all that is needed, taking out the group's blocks that are replaced, and taking over what is
/// shared; and that it is refused where not all is placed. The call does nothing: its contract is the law.
pub fn creations()
    ensures made { CreationsAreMade }
    ensures refused { CreationsAreRefused }
{}
