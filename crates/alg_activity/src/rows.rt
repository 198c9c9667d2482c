//! Worked rows, checked on the definitions.
ghost use Rattle.alg_activity.specs.Rows.{ActivityRows};

/// The law that the definitions give what the worked rows say. The call does nothing: its contract is the law.
pub fn activity_rows()
    ensures { ActivityRows }
{}
