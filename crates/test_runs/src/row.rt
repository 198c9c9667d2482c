//! A script of a few lines, and what the headline says of it.
ghost use Rattle.std.specs.Prelude.{◌≡◌, length};
ghost use Rattle.script_server.specs.Runs.{Over, known_of};
ghost use Rattle.test_runs.specs.Row.{CanRunRow, RowGaveIt};

use dsp_console::{Config, Fault, Sizes, Summary, run};
use octet_ports::{PortIn, PortOut};
use std::alloc::Global;
use voice_set::{Voice, voices_are_lawful, voices_give_their_equations};

/// Runs a script of two channels whose filters share their group's scratch, in which that scratch is moved while the other filter is
/// active, and in which both a neighbour and the first filter itself are deleted. The first filter gave the means of its samples and those
/// before them, 1, 3 and 5, and its channel's output holds just their octets more.
///
/// All of this follows from the clause `headline` of `run`, and from the equation of `fir`, whatever the poison word is.
pub fn run_row<S: PortIn, I: PortIn, O: PortOut, P: PortOut>(
    alloc: Global,
    poison: Option<i16>,
    script: &mut S,
    inputs: &mut Vec<I>,
    outputs: &mut Vec<O>,
    replies: &mut P,
) -> Result<Summary, Fault>
    requires two { length inputs.old.items ≡ 2 }
    requires pairs { length outputs.old.items ≡ 2 }
    requires row { CanRunRow (known_of S.source I.source O.sink P.sink script.old inputs.old.items outputs.old.items replies.old) }
    ensures gave { Over S.source I.source O.sink P.sink (RowGaveIt poison result)
        script.old script.new inputs.old inputs.new outputs.old outputs.new replies.old replies.new }
{
    voices_are_lawful();
    voices_give_their_equations();
    let sizes = Sizes {
        daram: 4_096,
        saram: 16,
        external: 16,
    };
    let config = Config {
        sizes,
        poison,
        in8: 0,
        out8: 0,
    };
    run::<Voice, S, I, O, P>(alloc, config, script, inputs, outputs, replies)
}
