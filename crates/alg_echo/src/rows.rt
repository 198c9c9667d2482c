//! Worked rows, checked on the definitions.
ghost use Rattle.alg_echo.specs.Rows.{EchoRows};

/// The law that the definitions give what the worked rows say. The call does nothing: its contract is the law.
pub fn echo_rows()
    ensures { EchoRows }
{}
