//! Worked rows, checked on the definitions.
ghost use Rattle.test_runs.specs.ConsoleRows.{WorkedRows, OctetRows, OutputOrder};
ghost use Rattle.test_runs.specs.RefusalRows.{RefusalRows};

/// The law that a console of the hosted kinds serves what the worked rows say. Under a poison word it serves the same, since these kinds
/// are lawful. The call does nothing: its contract is the law.
pub fn worked_rows()
    ensures rows { WorkedRows }
    ensures octets { OctetRows }
    ensures refusals { RefusalRows }
    ensures order { OutputOrder }
{}
