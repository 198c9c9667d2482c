//! Worked rows, checked on the definitions.
ghost use Rattle.alg_signal.specs.Rows.{SignalRows};

/// The law that the definitions give what the worked rows say. The call does nothing: its contract is the law.
pub fn signal_rows()
    ensures { SignalRows }
{}
