//! Worked rows, checked on the definitions.
ghost use Rattle.test_memory.specs.LoanRows.{LoanRows};

/// The law that the records of a table are lent as the worked rows say. The call does nothing: its contract is the law.
pub fn loan_rows()
    ensures { LoanRows }
{}
