//! Runs of the engine.
ghost use Rattle.std.specs.Prelude.{◌≡◌, ℕ, ◌≤◌, ◌⊎◌, ◌↔◌, false, map, length, IfOk, IfErr, IsErrOf};
ghost use Rattle.host_map.specs.MemoryMap.{AreSizes};
ghost use Rattle.host_spec.specs.State.{new_state};
ghost use Rattle.dsp_console.specs.Hosts.{lives};
ghost use Rattle.dsp_console.specs.Hosts as hosts;
ghost use Rattle.script_server.specs.Runs.{IsUnused, Over, Ready};
ghost use Rattle.dsp_console.specs.Consoles.{channels_of};
ghost use Rattle.dsp_console.specs.Fresh.{FreshEndsByRead, FreshEndsByWrite, FreshEndsWell, IsFresh};
ghost use Rattle.dsp_console.specs.Runs.{HasHeadline, HasSounds, IsNotBegun, ReadsWithinLimit, RunEndsByRead, RunEndsByWrite, RunEndsLawfully, RunEndsLawfullyByRead, RunEndsLawfullyByWrite, RunEndsWell, RunServesLawfully};

use crate::console::Console;
use crate::laws::headline;
use console_spec::lawful_consoles_serve_one_answer;
use ialg::{Ialg, Named};
use octet_ports::{PortIn, PortOut};
use script_server::{PortsFault, SCRIPT_OCTETS, serve};
use std::alloc::{Allocator, Global};
use thiserror::Error;
use voice_channel::{CHANNELS, Host, HostMemory, Sizes, StartError};
use voice_script::PortWidths;

/// What a run is told beside its ports.
#[derive(Clone, Copy, PartialEq, Eq, Debug)]
pub struct Config {
    /// The sizes of the spaces.
    pub sizes: Sizes,
    /// The word that each new block is filled with, and a group's blocks whenever a member is deactivated; without it nothing is filled.
    pub poison: Option<i16>,
    /// Whose inputs are octet ports: the bit of each such channel is set. There each octet is a sample, 0 to 255.
    pub in8: u16,
    /// Whose outputs are octet ports. There a sample is written as one octet, its low eight bits.
    pub out8: u16,
}

/// What ended a run.
#[derive(Clone, Copy, PartialEq, Eq, Debug, Error)]
pub enum Fault {
    /// A space isn't 0 to 65,536 words, a multiple of 4. No device was used.
    #[error("a space is 0 to 65536 words, a multiple of 4")]
    Size,
    /// A request for memory was refused at the start. No device was used.
    #[error("out of memory")]
    Memory,
    /// The script or an input failed, or the script goes on after [`SCRIPT_OCTETS`].
    #[error("read failed")]
    Read,
    /// An output or the replies failed.
    #[error("write failed")]
    Write,
}

/// What a run that ended well tells.
#[derive(Clone, Copy, PartialEq, Eq, Debug)]
pub struct Summary {
    /// How many lines were refused.
    pub refused: u64,
}

/// The memory of a run: its spaces, of these sizes, and the tables of its host. A run asks for it and for no other.
///
/// # Errors
///
/// `Size` where a size isn't a multiple of 4 up to 65,536, before any memory is asked for, and otherwise `Memory` where a request was
/// refused. Nothing is held then.
pub fn run_memory<M: Ialg, A: Allocator + Copy>(
    alloc: A,
    sizes: Sizes,
) -> Result<HostMemory<M, A>, Fault>
    ensures size { ¬ AreSizes sizes → IsErrOf result Fault.Size }
    ensures memory { AreSizes sizes → IfErr result (λ fault. fault ≡ Fault.Memory) }
    ensures sizes { IfOk result (λ memory. memory.spaces.sizes ≡ sizes) }
{
    match HostMemory::new(alloc, sizes) {
        Ok(memory) => Ok(memory),
        Err(StartError::BadSize) => Err(Fault::Size),
        Err(StartError::Memory) => Err(Fault::Memory),
    }
}

/// A host without instances in memory of its own.
fn new_host<M: Ialg>(alloc: Global, sizes: Sizes, poison: Option<i16>) -> Result<Host<M>, Fault>
    ensures size { ¬ AreSizes sizes → IsErrOf result Fault.Size }
    ensures memory { AreSizes sizes → IfErr result (λ fault. fault ≡ Fault.Memory) }
    ensures empty { IfOk result (λ host. (i : ℕ) → lives host i ≡ false) }
    ensures host { IfOk result (λ host. hosts.HostRefines M.law host (new_state sizes poison)) }
{
    let memory = run_memory(alloc, sizes)?;
    Ok(Host::in_memory(memory, poison))
}

/// Serves the script by a console that was just made.
fn serve_console<M: Ialg + Named, S: PortIn, I: PortIn, O: PortOut, P: PortOut>(
    console: &mut Console<M>,
    script: &mut S,
    inputs: &mut Vec<I>,
    outputs: &mut Vec<O>,
    replies: &mut P,
) -> Result<Summary, Fault>
    requires kept { IsFresh M.law (map I.source inputs.old.items) console.old }
    requires script { (S.source script.old).failed ≡ false }
    requires one { length inputs.old.items ≡ channels_of console.old }
    requires pairs { length outputs.old.items ≡ channels_of console.old }
    requires ready { Ready I.source O.sink P.sink inputs.old outputs.old replies.old }
    ensures few { ReadsWithinLimit S.source script.old script.new }
    ensures used { IfErr result (λ fault. (fault ≡ Fault.Read) ⊎ (fault ≡ Fault.Write)) }
    ensures ok { Over S.source I.source O.sink P.sink (FreshEndsWell M.law.meaning M.named console.old result)
        script.old script.new inputs.old inputs.new outputs.old outputs.new replies.old replies.new }
    ensures read { Over S.source I.source O.sink P.sink (FreshEndsByRead M.law.meaning M.named console.old result)
        script.old script.new inputs.old inputs.new outputs.old outputs.new replies.old replies.new }
    ensures write { Over S.source I.source O.sink P.sink (FreshEndsByWrite M.law.meaning M.named console.old result)
        script.old script.new inputs.old inputs.new outputs.old outputs.new replies.old replies.new }
{
    match serve(console, script, inputs, outputs, replies) {
        Ok(refused) => Ok(Summary { refused }),
        Err(PortsFault::Read) => Err(Fault::Read),
        Err(PortsFault::Write) => Err(Fault::Write),
    }
}

/// Serves the lines of the script in order, over 1 to 16 pairs of ports: the n-th input and the n-th output are channel n's, from 0.
///
/// A feed reads its samples from the channel's input, writes what the channel gives to the channel's output, and then its
/// reply; it is refused as short at the input's end, and what was read of it is gone. Every other command writes its reply
/// alone. At the end the outputs in ascending number and then the replies are flushed. A fault ends the run.
///
/// The three sizes are checked first, and memory is asked for next; no device is used before both. No condition is put on the kinds:
/// what is served is an answer that the machine of `console_machine` may give, and where every kind is lawful the one that it gives,
/// in which the poison word doesn't occur.
///
/// The script is read ahead, by 4,096 octets at most, and asked for more only where no whole line is left of what was read. So where an
/// input, an output or the replies failed, some of the script behind the last line that was served may be gone.
///
/// After `Read` or `Write` what was served before stands in the outputs and the replies, and the port that failed says so.
///
/// What is served is said of an honest script, and what a feed is given of its own input, where that is honest: of any other input each
/// feed may be given any samples, or be refused as short. Whether a port is honest is a word of the contract, which the code can't see: so
/// between ports that behave as honest ones do, of which nothing is proved, as those over files, a run does what it is proved to do between
/// honest ones. A device that does what no honest port can, as one that gives octets after it ended, is outside of that.
pub fn run<M: Ialg + Named, S: PortIn, I: PortIn, O: PortOut, P: PortOut>(
    alloc: Global,
    config: Config,
    script: &mut S,
    inputs: &mut Vec<I>,
    outputs: &mut Vec<O>,
    replies: &mut P,
) -> Result<Summary, Fault>
    requires script { (S.source script.old).failed ≡ false }
    requires some { 1 ≤ length inputs.old.items }
    requires few { length inputs.old.items ≤ CHANNELS }
    requires pairs { length outputs.old.items ≡ length inputs.old.items }
    requires ready { Ready I.source O.sink P.sink inputs.old outputs.old replies.old }

    // Over any list of commands: the headline.
    ensures headline { Over S.source I.source O.sink P.sink (HasHeadline M.law.meaning M.named config result)
        script.old script.new inputs.old inputs.new outputs.old outputs.new replies.old replies.new }

    // Its sounds by themselves, without the memory.
    ensures sounds { Over S.source I.source O.sink P.sink (HasSounds M.law.meaning M.named config result)
        script.old script.new inputs.old inputs.new outputs.old outputs.new replies.old replies.new }

    // Before any device is used.
    ensures size { IsErrOf result Fault.Size ↔ (¬ AreSizes config.sizes) }
    ensures sizes { IsErrOf result Fault.Size ⊎ AreSizes config.sizes }
    ensures unused { IsNotBegun result → IsUnused script.old script.new inputs.old inputs.new outputs.old outputs.new replies.old replies.new }

    // Of an honest script come SCRIPT_OCTETS + 1 octets at most.
    ensures few { ReadsWithinLimit S.source script.old script.new }

    // To honest ports what is served is written: all of it, or that of exactly the lines that were begun.
    ensures ok { Over S.source I.source O.sink P.sink (RunEndsWell M.law.meaning M.named config result)
        script.old script.new inputs.old inputs.new outputs.old outputs.new replies.old replies.new }
    ensures read { Over S.source I.source O.sink P.sink (RunEndsByRead M.law.meaning M.named config result)
        script.old script.new inputs.old inputs.new outputs.old outputs.new replies.old replies.new }
    ensures write { Over S.source I.source O.sink P.sink (RunEndsByWrite M.law.meaning M.named config result)
        script.old script.new inputs.old inputs.new outputs.old outputs.new replies.old replies.new }

    // Where the kinds are lawful, nothing is free but what inputs give that aren't honest, and the poison word tells nothing.
    ensures lawful { Over S.source I.source O.sink P.sink (RunServesLawfully M.law.meaning M.named config result)
        script.old script.new inputs.old inputs.new outputs.old outputs.new replies.old replies.new }
    ensures lawful_ok { Over S.source I.source O.sink P.sink (RunEndsLawfully M.law.meaning M.named config result)
        script.old script.new inputs.old inputs.new outputs.old outputs.new replies.old replies.new }
    ensures lawful_read { Over S.source I.source O.sink P.sink (RunEndsLawfullyByRead M.law.meaning M.named config result)
        script.old script.new inputs.old inputs.new outputs.old outputs.new replies.old replies.new }
    ensures lawful_write { Over S.source I.source O.sink P.sink (RunEndsLawfullyByWrite M.law.meaning M.named config result)
        script.old script.new inputs.old inputs.new outputs.old outputs.new replies.old replies.new }
{
    lawful_consoles_serve_one_answer::<M>();
    headline::<M>();
    let host = match new_host::<M>(alloc, config.sizes, config.poison) {
        Ok(host) => host,
        Err(fault) => return Err(fault),
    };
    let widths = PortWidths::of_masks(config.in8, config.out8);
    let mut console = Console::new(host, inputs.len() as u8, widths);
    let served = serve_console(&mut console, script, inputs, outputs, replies);
    console.close();
    served
}
