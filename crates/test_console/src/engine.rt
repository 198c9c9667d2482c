//! The memory that a run asks for, and a caller of a run that is proved from the contracts alone.
ghost use Rattle.std.specs.Prelude.{◌≡◌, ◌≤◌, ◌∷◌, [], None, Some, IfOk, false, length};
ghost use Rattle.voice_script.specs.Served.{held_by, order_of, refusals};
ghost use Rattle.voice_script.specs.Widths.{widths_of};
ghost use Rattle.console_spec.specs.Answers.{served};
ghost use Rattle.script_server.specs.Runs.{Over, Ready};
ghost use Rattle.dsp_console.specs.Runs.{RunServesLawfully};
ghost use Rattle.voice_set.specs.Voices.{voice_meaning, voice_named};
ghost use Rattle.test_console.specs.declared.engine.TheConstants.{FULL};

use dsp_console::{CHANNELS, Config, Fault, Sizes, Summary, run, run_memory};
use octet_ports::{PortIn, PortOut, Reading, Writing};
use std::alloc::Global;
use std::process::Abort;
use test_doubles::Metered;
use voice_set::{Voice, voices_are_lawful};

pub(crate) const FULL: Sizes = Sizes {
    daram: 65_536,
    saram: 65_536,
    external: 65_536,
};

// What came of asking for the memory of a run and giving it back.
#[derive(Drop)]
struct Asked {
    answer: Result<(), Fault>,
    // how often memory was asked for
    requests: u64,
    // how many blocks came back
    returned: u64,
}

/// The request of that number is refused.
fn ask(alloc: Global, sizes: Sizes, refused: u64) -> Asked {
    let metered = Metered::refusing(alloc, refused);
    let answer = match run_memory::<Voice, _>(&metered, sizes) {
        Ok(memory) => {
            memory.close();
            Ok(())
        }
        Err(fault) => Err(fault),
    };
    Asked {
        answer,
        requests: metered.requests(),
        returned: metered.returned(),
    }
}

#[test]
fn each_request_is_refused_in_turn(rt: HostRuntime) {
    let granted = ask(rt.alloc(), FULL, u64::MAX);
    assert!(rt; granted.answer.is_ok());
    assert!(rt; (granted.requests, granted.returned) == (9, 9));
    for number in 0..9 {
        let refused = ask(rt.alloc(), FULL, number);
        assert!(rt; refused.answer == Err(Fault::Memory));
        assert!(rt; (refused.requests, refused.returned) == (number + 1, number));
    }
}

#[test]
fn a_bad_size_asks_for_no_memory(rt: HostRuntime) {
    for (daram, saram, external) in [(2, 4, 4), (4, 65_540, 4), (4, 4, 7)] {
        let sizes = Sizes {
            daram,
            saram,
            external,
        };
        let asked = ask(rt.alloc(), sizes, 0);
        assert!(rt; asked.answer == Err(Fault::Size));
        assert!(rt; (asked.requests, asked.returned) == (0, 0));
    }
}

/// What a run over octets in memory wrote, and how many lines it refused.
#[derive(Drop)]
struct Served {
    output: Vec<u8>,
    replies: Vec<u8>,
    refused: u64,
}

/// A run, of which the clause on lawful kinds and honest ports is all that its caller needs.
fn run_lawfully<S: PortIn, I: PortIn, O: PortOut, P: PortOut>(
    alloc: Global,
    config: Config,
    script: &mut S,
    inputs: &mut Vec<I>,
    outputs: &mut Vec<O>,
    replies: &mut P,
) -> Result<Summary, Fault>
    requires script { (S.source script.old).failed ≡ false }
    requires some { 1 ≤ length inputs.old.items }
    requires few { length inputs.old.items ≤ CHANNELS }
    requires pairs { length outputs.old.items ≡ length inputs.old.items }
    requires ready { Ready I.source O.sink P.sink inputs.old outputs.old replies.old }
    ensures { Over S.source I.source O.sink P.sink (RunServesLawfully voice_meaning voice_named config result)
        script.old script.new inputs.old inputs.new outputs.old outputs.new replies.old replies.new }
{
    run::<Voice, S, I, O, P>(alloc, config, script, inputs, outputs, replies)
}

/// Devices over memory: from the contracts alone the vectors hold what is served for the octets.
fn serve_octets(alloc: Global, script: &[u8], input: &[u8]) -> Result<Served, Fault>
    ensures output { IfOk result (λ run. run.output.items
        ≡ held_by (Some 0) (order_of (served voice_meaning voice_named (widths_of 0 0) FULL script.now (input.now ∷ [])).written)) }
    ensures replies { IfOk result (λ run. run.replies.items
        ≡ held_by None (order_of (served voice_meaning voice_named (widths_of 0 0) FULL script.now (input.now ∷ [])).written)) }
    ensures refused { IfOk result (λ run. refusals (served voice_meaning voice_named (widths_of 0 0) FULL script.now (input.now ∷ [])).written ≡ run.refused) }
{
    voices_are_lawful();
    let mut lines = Reading::new(script);
    let Ok(mut inputs) = vec![in alloc; Reading::new(input)] else {
        return Err(Fault::Memory);
    };
    let Ok(mut outputs) = vec![in alloc; Writing::new(Vec::new(alloc))] else {
        return Err(Fault::Memory);
    };
    let mut replies = Writing::new(Vec::new(alloc));
    let config = Config {
        sizes: FULL,
        poison: None,
        in8: 0,
        out8: 0,
    };
    let summary = run_lawfully(
        alloc,
        config,
        &mut lines,
        &mut inputs,
        &mut outputs,
        &mut replies,
    )?;
    let output = outputs.pop().unwrap();
    Ok(Served {
        output: output.into_inner(),
        replies: replies.into_inner(),
        refused: summary.refused,
    })
}

#[test]
fn serves_octets(rt: HostRuntime) {
    let script = b"create 0 fir 0 16384 16384\nchain 0 0\nfeed 0 1\nfeed 0 2";
    let answer = serve_octets(rt.alloc(), script, b"\x02\x00\x04\x00\x06\x00");
    assert!(rt; answer.is_ok());
    if let Ok(run) = answer {
        assert!(rt; run.output.as_slice() == b"\x01\x00\x03\x00\x05\x00".as_slice());
        assert!(rt; run.replies.as_slice() == b"ok\nok\nok 1\nok 2\n".as_slice());
        assert!(rt; run.refused == 0);
    }
}
