//! A run over files.
ghost use Rattle.std.specs.Prelude.{◌≡◌, ◌+◌, ◌≤◌, [], false, length, map, All, IfOk, IsOk};
ghost use Rattle.script_server.specs.Runs.{IsReadyIn, IsReadyOut};

use crate::explaining::explain_fault;
use dsp_arguments::{About, Arguments};
use dsp_console::{CHANNELS, Config, Fault, PortIn, PortOut, Reading, Summary, run};
use ialg::{Ialg, Named};
use octet_ports::{Journal, JournalOutput, JournalReplies, Marks, Passing, pass_on_all};
use port_files::{InFile, OpenFault, OutFile, ReplyFile, Role, RunFiles, Troubles};
use script_reasons::{Explainer, Listener, ReplyPort, ScriptPort};
use std::alloc::Global;
use std::cell::RefCell;
use std::fs::Files;
use std::io::{self, BufReader, Write};

/// An IN, which is read through a buffer.
type Source<'t, F> = Reading<BufReader<InFile<'t, F>>>;

/// The fault that ends the program where a file could not be opened.
fn fault_of(fault: OpenFault) -> Fault {
    match fault {
        OpenFault::Read => Fault::Read,
        OpenFault::Write => Fault::Write,
        OpenFault::Memory => Fault::Memory,
    }
}

/// Opens an IN.
fn open_input<'t, R: Files + AllocGlobal>(
    files: &mut RunFiles<'t, '_, R>,
    path: &str,
    channel: u8,
) -> Result<Source<'t, R::File>, Fault>
    ensures { IfOk result (λ port. IsReadyIn (⟦<Source<'t, R::File> as PortIn>⟧.source port)) }
{
    let (file, _) = files.open_in(path, Role::In(channel)).map_err(fault_of)?;
    let buffer = BufReader::new(files.alloc(), file).map_err(|_| Fault::Memory)?;
    Ok(Reading::new(buffer))
}

/// Opens an OUT, which the journal has as its next output.
fn open_output<'t, 'p, R: Files + AllocGlobal, P: Write>(
    files: &mut RunFiles<'t, 'p, R>,
    path: &'p str,
    channel: u8,
    journal: &mut Journal<OutFile<'t, R::File>, P>,
) -> Result<(), Fault> {
    let file = files.open_out(path, Role::Out(channel)).map_err(fault_of)?;
    journal.push_output(file).map_err(|_| Fault::Memory)
}

/// Opens the pairs of files in order behind those that are open, of each pair the input first.
fn open_pairs<'t, 'p, R: Files + AllocGlobal, P: Write>(
    files: &mut RunFiles<'t, 'p, R>,
    pairs: &[(&'p str, &'p str)],
    inputs: &mut Vec<Source<'t, R::File>>,
    journal: &mut Journal<OutFile<'t, R::File>, P>,
) -> Result<(), Fault>
    ensures inputs { IsOk result → length inputs.new.items ≡ length inputs.old.items + length pairs.now }
    ensures to_read { IsOk result → All IsReadyIn (map (⟦<Source<'t, R::File> as PortIn>⟧.source) inputs.old.items)
        → All IsReadyIn (map (⟦<Source<'t, R::File> as PortIn>⟧.source) inputs.new.items) }
{
    let Some(((input, output), further)) = pairs.split_first() else {
        return Ok(());
    };
    let channel = inputs.len().min(CHANNELS) as u8;
    let port = open_input(files, input, channel)?;
    inputs.push(port).map_err(|_| Fault::Memory)?;
    open_output(files, output, channel, journal)?;
    open_pairs(files, further, inputs, journal)
}

/// The ports of the journal's first outputs, so many.
fn output_ports<'j, W: Write, P: Write>(
    alloc: Global,
    journal: &'j RefCell<Journal<W, P>>,
    count: usize,
) -> Result<Vec<JournalOutput<'j, W, P>>, Fault>
    ensures count { IfOk result (λ ports. length ports.items ≡ count) }
    ensures to_write { IfOk result (λ ports. All IsReadyOut (map (⟦<JournalOutput<'j, W, P> as PortOut>⟧.sink) ports.items)) }
{
    let mut ports = Vec::new(alloc);
    for number in 0..count {
        ports
            .push(JournalOutput::new(journal, number))
            .map_err(|_| Fault::Memory)?;
    }
    Ok(ports)
}

/// Serves the script over the inputs and the journal.
fn serve_ports<M: Ialg + Named, R: Eprint + AllocGlobal, S: PortIn, I: PortIn, W: Write, P: Write>(
    arguments: &Arguments<'_>,
    script: &mut S,
    inputs: &mut Vec<I>,
    journal: &RefCell<Journal<W, P>>,
    listener: Listener<'_, '_, R>,
    alloc: Global,
) -> Result<Summary, Fault>
    requires some { 1 ≤ length arguments.now.ports.items }
    requires script { (S.source script.old).failed ≡ false }
    requires count { length inputs.old.items ≡ length arguments.now.ports.items }
    requires ready { All IsReadyIn (map I.source inputs.old.items) }
{
    let mut outputs = output_ports(alloc, journal, arguments.ports.len())?;
    let mut replies = ReplyPort::new(JournalReplies::new(journal), listener);
    let config = Config {
        sizes: arguments.sizes,
        poison: arguments.poison,
        in8: arguments.in8,
        out8: arguments.out8,
    };
    run::<M, _, _, _, _>(alloc, config, script, inputs, &mut outputs, &mut replies)
}

/// Serves the script over the pairs of files, which are opened. The INs are read through buffers; the OUTs and the replies are written
/// through a journal.
///
/// A call of its own: made behind a call that may fail, the journal would have all its room cleared twice.
fn serve_pairs<'t, 'p, 'l, 'e, M: Ialg + Named, R: Files + Print + Eprint + AllocGlobal>(
    rt: &R,
    arguments: &Arguments<'p>,
    files: &mut RunFiles<'t, 'p, R>,
    listener: Listener<'_, '_, R>,
    marks: Marks,
    passing: Passing,
    script: &mut ScriptPort<'l, 'e, R, Reading<InFile<'t, R::File>>>,
) -> Result<Summary, Fault>
    requires some { 1 ≤ length arguments.now.ports.items }
    requires ready { (⟦<ScriptPort<'l, 'e, R, Reading<InFile<'t, R::File>>> as PortIn>⟧.source script.old).failed ≡ false }
    requires none { marks.items ≡ [] }
{
    let replies = ReplyFile::new(io::writer(rt), files.troubles());
    // It is made in its cell: moved there, all its room would be copied.
    let mut journal = RefCell::new(Journal::new(rt.alloc(), marks, replies, passing));
    let mut inputs = Vec::new(rt.alloc());
    let pairs = arguments.ports.as_slice();
    open_pairs(files, pairs, &mut inputs, journal.get_mut())?;
    let ended = serve_ports::<M, R, _, _, _, _>(
        arguments,
        script,
        &mut inputs,
        &journal,
        listener,
        rt.alloc(),
    );
    // What was served before a fault of the script or of an input is passed on all the same.
    if script.has_begun() && ended == Err(Fault::Read) && pass_on_all(&journal).is_err() {
        return Err(Fault::Write);
    }
    ended
}

/// Opens the script, serves it over the pairs of files, and notes in `begun` that something of it was read: before that no OUT is
/// touched.
fn serve_files<'p, M: Ialg + Named, R: Files + Print + Eprint + AllocGlobal>(
    rt: &R,
    arguments: &Arguments<'p>,
    files: &mut RunFiles<'_, 'p, R>,
    listener: Listener<'_, '_, R>,
    marks: Marks,
    begun: &mut bool,
) -> Result<Summary, Fault>
    requires some { 1 ≤ length arguments.now.ports.items }
    requires none { marks.items ≡ [] }
{
    let (file, is_regular) = files
        .open_in(arguments.script, Role::Script)
        .map_err(fault_of)?;
    // Where the script isn't a regular file, someone may wait for each reply.
    let passing = if is_regular {
        Passing::WhereFull
    } else {
        Passing::EachLine
    };
    let mut script = ScriptPort::new(Reading::new(file), listener);
    let ended = serve_pairs::<M, R>(rt, arguments, files, listener, marks, passing, &mut script);
    *begun = script.has_begun();
    ended
}

/// Opens the files and serves the script over them. A run that ends before something of the script was read leaves all files as they
/// were.
fn serve_heard<M: Ialg + Named, R: Files + Print + Eprint + AllocGlobal>(
    rt: &R,
    about: &About,
    arguments: &Arguments<'_>,
    listener: Listener<'_, '_, R>,
) -> Result<Summary, Fault>
    requires { 1 ≤ length arguments.now.ports.items }
{
    let troubles = RefCell::new(Troubles::default());
    let mut begun = false;
    let mut files = RunFiles::new(rt, &troubles).map_err(fault_of)?;
    let marks = Marks::new(rt.alloc()).map_err(|_| Fault::Memory)?;
    let ended = serve_files::<M, R>(rt, arguments, &mut files, listener, marks, &mut begun);
    if !begun {
        files.take_back();
    }
    if let Err(fault) = ended
        && arguments.explain
        && let Ok(troubles) = troubles.try_borrow()
    {
        explain_fault(rt, about, arguments, fault, &troubles);
    }
    ended
}

/// Serves as [`serve`] does, where reasons are asked for. It is a call of its own, since the room of what explains is cleared.
#[inline(never)]
fn serve_explained<M: Ialg + Named, R: Files + Print + Eprint + AllocGlobal>(
    rt: &R,
    about: &About,
    arguments: &Arguments<'_>,
) -> Result<Summary, Fault>
    requires { 1 ≤ length arguments.now.ports.items }
{
    let explainer = RefCell::new(Explainer::new(rt, arguments.script, arguments.ports.len() as u8));
    serve_heard::<M, R>(rt, about, arguments, Some(&explainer))
}

/// Nobody listens. It has one lifetime in place of two: of a bare `None` nothing would show that the explainer outlives what listens.
fn nobody<'e, R: Eprint>() -> Listener<'e, 'e, R> {
    None
}

/// Serves the script over files, and tells why lines were refused where that is asked for.
pub(crate) fn serve<M: Ialg + Named, R: Files + Print + Eprint + AllocGlobal>(
    rt: &R,
    about: &About,
    arguments: &Arguments<'_>,
) -> Result<Summary, Fault>
    requires { 1 ≤ length arguments.now.ports.items }
{
    if arguments.explain {
        serve_explained::<M, R>(rt, about, arguments)
    } else {
        serve_heard::<M, R>(rt, about, arguments, nobody())
    }
}
