//! What records are lent for.
ghost use Rattle.std.specs.Prelude.{◌≡◌, ◌≤◌, ℤ, Bool, List, [], ◌∷◌, length};
ghost use Rattle.mem_rec.specs.declared.MemRec.{MemRec};
ghost use Rattle.ialg.specs.Loans.{lent_words, SameLoans, KeepsOnce};
ghost use Rattle.ialg.specs.Calls.{ProcessesBlock};

use crate::laws::Ialg;
use crate::memory::Lent;
use crate::{BLOCK_SAMPLES, Block};
use mem_rec::MemTab;

/// A step of an instance, for which its records are lent. Its answer is put into `out`.
pub trait Step<O> {
    // when the step may be performed, with which `out`
    ghost can: { Self → O → Type 0 };

    // what it does to the words of the records, before and after, and to `out`
    ghost done: { Self → List MemRec → Bool → List (List ℤ) → List (List ℤ) → O → O → Type 0 };

    /// Performs the step with the records that are lent.
    fn perform(&self, mem: &mut Lent<'_>, out: &mut O)
        requires { can self.now out.old }
        ensures loans { SameLoans mem.old mem.new }
        ensures done { done self.now mem.old.table.now mem.old.writable (lent_words mem.old) (lent_words mem.new) out.old out.new };
}

/// A step, the table by which records are lent for it, and whether write-once records are lent for writing.
#[derive(Drop)]
pub struct Lending<'a, S> {
    pub step: &'a S,
    pub table: &'a MemTab,
    pub writable: bool,
}

/// Performs the step with these records: those of the table, an empty slice for each that isn't lent. Where nothing
/// write-once is lent for writing, each write-once record has the same words after it, whatever the step is.
///
/// Inlined, so that the slices aren't passed on before they are put side by side.
#[inline(always)]
pub fn lend<O, S: Step<O>>(
    lending: &Lending<'_, S>,
    r0: &mut [i16],
    r1: &mut [i16],
    r2: &mut [i16],
    r3: &mut [i16],
    out: &mut O,
)
    requires { S.can lending.now.step.now out.old }
    ensures done { S.done lending.now.step.now lending.now.table.now lending.now.writable (r0.old ∷ r1.old ∷ r2.old ∷ r3.old ∷ []) (r0.new ∷ r1.new
        ∷ r2.new ∷ r3.new ∷ []) out.old out.new }
    ensures once { KeepsOnce lending.now (r0.old ∷ r1.old ∷ r2.old ∷ r3.old ∷ []) (r0.new ∷ r1.new ∷ r2.new ∷ r3.new ∷ []) }
{
    let mut mem = Lent {
        table: lending.table,
        writable: lending.writable,
        r0,
        r1,
        r2,
        r3,
    };
    lending.step.perform(&mut mem, out);
}

/// Gives the kind a block of samples, as [`Ialg::process`] does, with the loans moved to a place of their own.
///
/// It is for a kind that is one of several: no kind gets the place of `mem` itself, so the compiler has the loans in registers where it
/// finds out which kind it is, and one that only reads a record, as a decoder, never has them written to memory.
#[inline(always)]
pub fn process_apart<M: Ialg>(kind: &M, mem: &mut Lent<'_>, input: &[i16], out: &mut Block)
    requires empty { out.old.items ≡ [] }
    requires some { 1 ≤ length input.now }
    requires within { length input.now ≤ BLOCK_SAMPLES }
    ensures loans { SameLoans mem.old mem.new }
    ensures bounded { length out.new.items ≤ length input.now }
    ensures law { ProcessesBlock M.law kind.now input.now out.new.items mem.old mem.new }
{
    let mut apart = mem.take_all();
    kind.process(&mut apart, input, out);
    *mem = apart;
}
