//! Worked rows, checked on the definitions.
ghost use Rattle.alg_tone.specs.Rows.{OutputRows, ParameterRows, ControlRows};

/// The law that the definitions give what the worked rows say. The call does nothing: its contract is the law.
pub fn tone_rows()
    ensures outputs { OutputRows }
    ensures parameters { ParameterRows }
    ensures controls { ControlRows }
{}
