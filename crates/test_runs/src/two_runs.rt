//! Two runs, each over its own ports and from its own host.
ghost use Rattle.test_runs.specs.TwoRuns.{BothAgree, CanRun, RunEndsBy, ports_known};

use dsp_console::{Config, Fault, Summary, headline, run};
use ialg::{Ialg, Named};
use octet_ports::{PortIn, PortOut};
use std::alloc::Global;

/// The ports of a run: the n-th input and the n-th output are channel n's, from 0.
#[derive(Drop)]
pub struct Ports<S, I, O, P> {
    pub script: S,
    pub inputs: Vec<I>,
    pub outputs: Vec<O>,
    pub replies: P,
}

/// Runs a script over its ports, and then another one over its own. Where both scripts are honest and both runs end well, a lawful instance
/// of the one gives and answers the same as one of the other that is of its kind, with the same parameters, and was given the same since
/// its creation; and a control that both were asked is refused to both, or to none, whatever they were given. So it is whatever the sizes,
/// the poison words and the widths of the ports of the two are, whatever else their scripts ask, however the samples are cut, and whichever
/// inputs are honest. Each run ends as the engine's does, whatever becomes of the other one.
pub fn run_both<M: Ialg + Named, S: PortIn, I: PortIn, O: PortOut, P: PortOut>(
    alloc: Global,
    config: Config,
    ports: &mut Ports<S, I, O, P>,
    other_config: Config,
    other_ports: &mut Ports<S, I, O, P>,
) -> (Result<Summary, Fault>, Result<Summary, Fault>)
    requires ready { CanRun (ports_known S.source I.source O.sink P.sink ports.old) }
    requires other_ready { CanRun (ports_known S.source I.source O.sink P.sink other_ports.old) }
    ensures one { RunEndsBy M.law.meaning M.named config result.0
        (ports_known S.source I.source O.sink P.sink ports.old) (ports_known S.source I.source O.sink P.sink ports.new) }
    ensures other { RunEndsBy M.law.meaning M.named other_config result.1
        (ports_known S.source I.source O.sink P.sink other_ports.old) (ports_known S.source I.source O.sink P.sink other_ports.new) }
    ensures agree { BothAgree M.law.meaning M.named config other_config result
        (ports_known S.source I.source O.sink P.sink ports.old) (ports_known S.source I.source O.sink P.sink ports.new)
        (ports_known S.source I.source O.sink P.sink other_ports.old) (ports_known S.source I.source O.sink P.sink other_ports.new) }
{
    headline::<M>();
    let ended = run::<M, S, I, O, P>(
        alloc,
        config,
        &mut ports.script,
        &mut ports.inputs,
        &mut ports.outputs,
        &mut ports.replies,
    );
    let other_ended = run::<M, S, I, O, P>(
        alloc,
        other_config,
        &mut other_ports.script,
        &mut other_ports.inputs,
        &mut other_ports.outputs,
        &mut other_ports.replies,
    );
    (ended, other_ended)
}
