//! What waits for one device.
ghost use Rattle.std.specs.Prelude.{◌≡◌, ◌-◌, ◌≤◌, ◌++◌, [], true, false, length, take, min, All, IsOk};
ghost use Rattle.std.specs.Io.KnownBytes.{Appends};
ghost use Rattle.octet_ports.specs.Passing.{EachDoes, HasNothing, HasRoom, HoldsStill, PassesFirst, PassesOn, TakesAll};

use crate::PortFault;
use arrayvec::ArrayVec;
use std::io::Write;

/// The most octets that wait for an output, or for the replies.
pub const JOURNAL_OCTETS: usize = 8192;

// The limit, said once more: no slip of one passes.
const _: () = prove!(JOURNAL_OCTETS == 8 * 1024);

/// A device, and what waits for it.
#[derive(Drop)]
pub(crate) struct Waiting<W> {
    writer: W,
    octets: ArrayVec<u8, JOURNAL_OCTETS>,
    /// How many octets of what waited the device surely has, since it was last passed on.
    taken: usize,
}

/// Writes as many octets as the writer takes, from the first on, and answers how many: an error ends it, and so does a write
/// that takes nothing.
fn write_some<W: Write>(writer: &mut W, octets: &[u8]) -> usize
    ensures within { result ≤ length octets.now }
    ensures appends { Appends (W.contents writer.old) (W.contents writer.new) (take result octets.now) }
{
    let mut done = 0;
    while done < octets.len() {
        match writer.write(&octets[done..]) {
            Ok(count) if count > 0 => done += count,
            _ => return done,
        }
    }
    done
}

impl<W: Write> Waiting<W> {
    /// Nothing waits.
    pub(crate) fn new(writer: W) -> Self
        ensures writer { result.writer ≡ writer }
        ensures nothing { result.octets.items ≡ [] }
    {
        Waiting {
            writer,
            octets: ArrayVec::new(),
            taken: 0,
        }
    }

    /// How many octets wait.
    pub(crate) fn len(&self) -> usize
        ensures { result ≡ length self.now.octets.items }
    {
        self.octets.len()
    }

    /// Whether there is no room for an octet more.
    pub(crate) fn is_full(&self) -> bool
        ensures full { result ≡ true → length self.now.octets.items ≡ JOURNAL_OCTETS }
        ensures room { result ≡ false → HasRoom self.now }
    {
        self.octets.is_full()
    }

    /// How many octets of what waited the device surely has, since it was last passed on.
    pub(crate) fn taken(&self) -> usize
        ensures { result ≡ self.now.taken }
    {
        self.taken
    }

    /// Takes as many octets as there is room for, from the first on, and answers how many.
    pub(crate) fn take_some(&mut self, octets: &[u8]) -> usize
        ensures count { result ≡ min (length octets.now) (JOURNAL_OCTETS - length self.old.octets.items) }
        ensures octets { self.new.octets.items ≡ self.old.octets.items ++ take result octets.now }
        ensures writer { self.new.writer ≡ self.old.writer }
    {
        let count = octets.len().min(self.octets.remaining_capacity());
        let _fits = self.octets.try_extend_from_slice(&octets[..count]);
        count
    }

    /// Passes on the first `count` octets of what waits, and keeps waiting what waited. After a fault the device may have some
    /// of them, from the first on.
    pub(crate) fn pass_first(&mut self, count: usize) -> Result<(), PortFault>
        requires { count ≤ length self.old.octets.items }
        ensures passes { PassesFirst W.contents count self.old self.new }
        ensures all { IsOk result → self.new.taken ≡ count }
        ensures stays { self.new.octets.items ≡ self.old.octets.items }
    {
        let written = write_some(&mut self.writer, &self.octets.as_slice()[..count]);
        // What a writer that fails to flush had taken may be lost.
        if self.writer.flush().is_err() {
            self.taken = 0;
            return Err(PortFault);
        }
        self.taken = written;
        if written < count {
            return Err(PortFault);
        }
        Ok(())
    }

    /// Passes on all that waits, as `pass_first` does.
    fn pass_on(&mut self) -> Result<(), PortFault>
        ensures passes { PassesOn W.contents self.old self.new }
        ensures all { IsOk result → TakesAll self.old self.new }
        ensures stays { self.new.octets.items ≡ self.old.octets.items }
    {
        let count = self.octets.len();
        self.pass_first(count)
    }

    /// Lets go of what waits: the device keeps what it has.
    pub(crate) fn forget(&mut self)
        ensures nothing { self.new.octets.items ≡ [] }
        ensures stays { HoldsStill self.old self.new }
    {
        self.octets.clear();
    }
}

/// Passes on what waits for each output, in ascending number, and answers whether all of it was taken. Each is tried, whatever
/// another did.
pub(crate) fn pass_outputs<W: Write>(outputs: &mut Vec<Waiting<W>>) -> bool
    ensures passes { EachDoes (PassesOn W.contents) outputs.old.items outputs.new.items }
    ensures all { result ≡ true → EachDoes TakesAll outputs.old.items outputs.new.items }
{
    let mut all = true;
    for output in outputs.iter_mut() {
        if output.pass_on().is_err() {
            all = false;
        }
    }
    all
}

/// Lets go of what waits for each output.
pub(crate) fn forget_outputs<W: Write>(outputs: &mut Vec<Waiting<W>>)
    ensures nothing { All HasNothing outputs.new.items }
    ensures stays { EachDoes HoldsStill outputs.old.items outputs.new.items }
{
    for output in outputs.iter_mut() {
        output.forget();
    }
}
