//! Serves a script.
ghost use Rattle.std.specs.Prelude.{◌≡◌, ◌+◌, false, length};
ghost use Rattle.octet_ports.specs.Ports.{GivesWithin};
ghost use Rattle.script_server.specs.LineRuns.{AllLinesAreServed, IsStopped};
ghost use Rattle.script_server.specs.Runs.{AllIsServed, IsStoppedByRead, IsStoppedByWrite, NothingPassed, Over, Ready};

use crate::limits::SCRIPT_OCTETS;
use crate::line::{Buffers, Desk, flush_outputs, serve_line};
use arrayvec::ArrayVec;
use host_map::Map;
use ialg::{Params, Words};
use octet_ports::{LineReader, PortIn, PortOut};
use voice_script::{BLOCK_OCTETS, LINE_OCTETS, LineMachine, ReplyText};

/// Which ports ended a run.
#[derive(Clone, Copy, PartialEq, Eq, Debug)]
pub enum PortsFault {
    /// The script or an input failed, or the script goes on after [`SCRIPT_OCTETS`].
    Read,
    /// An output or the replies failed.
    Write,
}

/// Serves each line, and answers how many were refused.
fn serve_script<T: LineMachine, S: PortIn, I: PortIn, O: PortOut, P: PortOut>(
    machine: &mut T,
    script: &mut S,
    inputs: &mut Vec<I>,
    outputs: &mut Vec<O>,
    replies: &mut P,
) -> Result<u64, PortsFault>
    ghost state: { T.State }
    requires kept { T.refines machine.old state }
    requires script { (S.source script.old).failed ≡ false }
    requires one { length inputs.old.items ≡ T.channels machine.old }
    requires pairs { length outputs.old.items ≡ T.channels machine.old }
    requires ready { Ready I.source O.sink P.sink inputs.old outputs.old replies.old }
    ensures few { GivesWithin (SCRIPT_OCTETS + 1) (S.source script.old) (S.source script.new) }
    ensures waits { NothingPassed O.sink P.sink outputs.old outputs.new replies.old replies.new }
    ensures ok { Over S.source I.source O.sink P.sink (AllLinesAreServed (T.machine (T.widths machine.old)) state result)
        script.old script.new inputs.old inputs.new outputs.old outputs.new replies.old replies.new }
    ensures fault { Over S.source I.source O.sink P.sink (IsStopped (T.machine (T.widths machine.old)) state result)
        script.old script.new inputs.old inputs.new outputs.old outputs.new replies.old replies.new }
{
    let mut reader = LineReader::new(SCRIPT_OCTETS);
    let mut refused: u64 = 0;
    let mut text: ArrayVec<u8, LINE_OCTETS> = ArrayVec::new();
    let mut desk = Desk {
        parameters: Params::new(),
        map: Map::new(),
        words: Words::new(),
        buffers: Buffers {
            text: ReplyText::new(),
            block: [0; BLOCK_OCTETS],
        },
    };
    'lines: loop {
        text.clear();
        let line = match reader.read_line(script, &mut text) {
            Ok(line) => line,
            Err(_fault) => return Err(PortsFault::Read),
        };
        let is_refused = match serve_line(
            machine,
            text.as_slice(),
            line.long,
            &mut desk,
            inputs,
            outputs,
            replies,
        ) {
            Ok(is_refused) => is_refused,
            Err(fault) => return Err(fault),
        };
        if is_refused {
            refused += 1;
        }
        if line.last {
            return Ok(refused);
        }
    }
}

/// Serves each line, and then passes on what the ports hold back: the outputs, and then the replies. It answers how many
/// lines were refused.
///
/// A feed reads its samples from the channel's input, writes what the channel gives to the channel's output, and then its
/// reply; it is refused as short at the input's end, and what was read of it is gone. Every other line writes its reply
/// alone. A fault ends the run.
///
/// The script is read ahead, by [`BUFFER_OCTETS`](octet_ports::BUFFER_OCTETS) at most, but only where no whole line is left of what was
/// read.
pub fn serve<T: LineMachine, S: PortIn, I: PortIn, O: PortOut, P: PortOut>(
    machine: &mut T,
    script: &mut S,
    inputs: &mut Vec<I>,
    outputs: &mut Vec<O>,
    replies: &mut P,
) -> Result<u64, PortsFault>
    ghost state: { T.State }
    requires kept { T.refines machine.old state }
    requires script { (S.source script.old).failed ≡ false }
    requires one { length inputs.old.items ≡ T.channels machine.old }
    requires pairs { length outputs.old.items ≡ T.channels machine.old }
    requires ready { Ready I.source O.sink P.sink inputs.old outputs.old replies.old }
    ensures few { GivesWithin (SCRIPT_OCTETS + 1) (S.source script.old) (S.source script.new) }
    ensures ok { Over S.source I.source O.sink P.sink (AllIsServed (T.machine (T.widths machine.old)) state result)
        script.old script.new inputs.old inputs.new outputs.old outputs.new replies.old replies.new }
    ensures read { Over S.source I.source O.sink P.sink (IsStoppedByRead (T.machine (T.widths machine.old)) state result)
        script.old script.new inputs.old inputs.new outputs.old outputs.new replies.old replies.new }
    ensures write { Over S.source I.source O.sink P.sink (IsStoppedByWrite (T.machine (T.widths machine.old)) state result)
        script.old script.new inputs.old inputs.new outputs.old outputs.new replies.old replies.new }
{
    let refused = match serve_script(machine, script, inputs, outputs, replies) {
        Ok(refused) => refused,
        Err(fault) => return Err(fault),
    };
    if flush_outputs(outputs).is_err() {
        return Err(PortsFault::Write);
    }
    let replies_fail = replies.flush().is_err();
    if replies_fail {
        return Err(PortsFault::Write);
    }
    Ok(refused)
}
