//! Worked rows, checked on the definitions.
ghost use Rattle.alg_fir.specs.Rows.{FilterRows, DecimatorRows, TableRows, ParameterRows, ControlRows};

/// The law that the definitions give what the worked rows say. The call does nothing: its contract is the law.
pub fn fir_rows()
    ensures filters { FilterRows }
    ensures decimators { DecimatorRows }
    ensures tables { TableRows }
    ensures parameters { ParameterRows }
    ensures controls { ControlRows }
{}
