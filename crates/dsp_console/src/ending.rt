//! How the program ends.
ghost use Rattle.std.specs.Prelude.{◌≡◌};
ghost use Rattle.dsp_console.specs.Outcomes.{status_of, line_of};

use crate::serving::{Fault, Summary};

/// The exit status of a run, and its line on the standard error, which is empty where there is none.
pub fn outcome(result_of_run: &Result<Summary, Fault>) -> (u8, &'static str)
    ensures status { result.0 ≡ status_of result_of_run.now }
    ensures line { result.1.now ≡ line_of result_of_run.now }
{
    match result_of_run {
        Ok(Summary { refused: 0 }) => (0, ""),
        Ok(_) => (1, ""),
        Err(Fault::Size) => (
            2,
            "dsp_console: a space is 0 to 65536 words, a multiple of 4",
        ),
        Err(Fault::Read) => (3, "dsp_console: read failed"),
        Err(Fault::Write) => (4, "dsp_console: write failed"),
        Err(Fault::Memory) => (5, "dsp_console: out of memory"),
    }
}
