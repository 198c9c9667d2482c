//! Worked rows, checked on the definitions.
ghost use Rattle.alg_g711.specs.Rows.{CodeRows, SampleRows, CoderRows, ParameterRows, KindRows};

/// The law that the definitions give what the worked rows say. The call does nothing: its contract is the law.
pub fn companding_rows()
    ensures codes { CodeRows }
    ensures samples { SampleRows }
    ensures coders { CoderRows }
    ensures parameters { ParameterRows }
    ensures kinds { KindRows }
{}
