//! The first example's script, and what the clause `sounds` of its run says.
ghost use Rattle.std.specs.Prelude.{◌≡◌, length};
ghost use Rattle.script_server.specs.Runs.{Over, known_of};
ghost use Rattle.test_runs.specs.FirstExample.{CanRunFirst, FirstSoundsLikeIt};

use dsp_console::{Config, Fault, Sizes, Summary, run};
use octet_ports::{PortIn, PortOut};
use std::alloc::Global;
use voice_set::{Voice, voices_are_lawful, voices_give_their_equations};

/// Runs the first example's script: a filter of one coefficient over two samples. Where the creation found room in spaces of these sizes,
/// as the replies tell, the output holds the octets of 1 and 0 more, and the replies are `ok`, `ok` and `ok 2`.
///
/// All of this follows from the clause `sounds` of `run`, which speaks of no memory, and from the equation of `fir`, whatever the sizes and
/// the poison word are.
pub fn run_first<S: PortIn, I: PortIn, O: PortOut, P: PortOut>(
    alloc: Global,
    sizes: Sizes,
    poison: Option<i16>,
    script: &mut S,
    inputs: &mut Vec<I>,
    outputs: &mut Vec<O>,
    replies: &mut P,
) -> Result<Summary, Fault>
    requires one { length inputs.old.items ≡ 1 }
    requires pairs { length outputs.old.items ≡ 1 }
    requires first { CanRunFirst (known_of S.source I.source O.sink P.sink script.old inputs.old.items outputs.old.items replies.old) }
    ensures gave { Over S.source I.source O.sink P.sink (FirstSoundsLikeIt poison result)
        script.old script.new inputs.old inputs.new outputs.old outputs.new replies.old replies.new }
{
    console_spec::sounds_are_one::<Voice>();
    voices_are_lawful();
    voices_give_their_equations();
    let config = Config {
        sizes,
        poison,
        in8: 0,
        out8: 0,
    };
    run::<Voice, S, I, O, P>(alloc, config, script, inputs, outputs, replies)
}
