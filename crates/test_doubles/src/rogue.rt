//! The rogues as kinds, alone and beside the hosted ones.
ghost use Rattle.std.specs.Prelude.{◌≡◌, ℤ, true, List, Option};
ghost use Rattle.std.proofs.Common.{rules};
ghost use Rattle.std.specs.Cmp.Rules.{comparing};
ghost use Rattle.ialg.specs.Loans.{SameLoans};
ghost use Rattle.ialg.specs.Calls.{AsksForItsTable, AsksWithinItsBound, AsksWithoutBases, AsksAsDeclared, AcceptsItsControls, DoesControl};
ghost use Rattle.test_doubles.specs.Rogues.{rogue_meaning, rogue_named, is_voice};
ghost use Rattle.test_doubles.specs.Lawless.{lawless, is_word_history, holds_fill};

use crate::babbling::{babble, begin_to_babble};
use crate::clinging::cling;
use crate::forging::{forge, forged_table};
use crate::rogue_records::{ROGUE_RECORDS, asked_records, echo};
use crate::scribbling::scribble;
use ialg::{Block, Ctl, Ialg, Lent, Named, Params, Status};
use kind_parts::Or;
use mem_rec::MemTab;
use voice_set::Voice;

/// A rogue: a kind that keeps no law.
///
/// It takes no parameters, accepts every control, which is then done, and asks for an object, 8 kept words in `saram` and 260
/// scratch words in `daram`, at a multiple of 16.
#[derive(Clone, Copy, PartialEq, Eq, Debug)]
pub enum Rogue {
    /// `scribble`: writes over every word that it may write, its object's too, in every call that lets it. It gives its input.
    Scribble,
    /// `clinger`: gives for each sample the first scratch word, and then writes the sample there. It touches the scratch words in
    /// `process` alone, and saves nothing.
    Clinger,
    /// `forger`: puts bases of others into its object, and reads and writes by them, in every call that lets it. It gives its input, and
    /// says untrue bases where it is asked for its records.
    Forger,
    /// `babbler`: gives the first samples of a block: as many as the count of its blocks so far leaves modulo one more than the block has.
    Babbler,
}

/// A hosted kind or a rogue.
pub type Mixed = Or<Voice, Rogue>;

impl Named for Rogue {
    ghost named = { rogue_named };

    fn of_name(name: &[u8]) -> Option<Rogue> {
        if name == b"scribble".as_slice() {
            Some(Rogue::Scribble)
        } else if name == b"clinger".as_slice() {
            Some(Rogue::Clinger)
        } else if name == b"forger".as_slice() {
            Some(Rogue::Forger)
        } else if name == b"babbler".as_slice() {
            Some(Rogue::Babbler)
        } else {
            None
        }
    }
}

impl Ialg for Rogue {
    ghost law = { lawless rogue_meaning };

    fn alg_num_alloc(&self) -> usize {
        ROGUE_RECORDS
    }

    fn alg_alloc(&self, p: &Params) -> Option<MemTab>
        ensures law { AsksForItsTable rogue_meaning self.now p.now.items result }
        ensures bounded { AsksWithinItsBound (lawless rogue_meaning) self.now p.now.items result }
        ensures unplaced { AsksWithoutBases rogue_meaning self.now p.now.items result }

        // What a rogue asks for too.
        ensures declared { AsksAsDeclared rogue_meaning self.now p.now.items result }
    {
        asked_records(p.as_slice())
    }

    fn alg_init(&self, _tab: &MemTab, _p: &Params, mem: &mut Lent<'_>) {
        match self {
            Rogue::Scribble => scribble(mem),
            Rogue::Clinger => {}
            Rogue::Forger => forge(mem),
            Rogue::Babbler => begin_to_babble(mem),
        }
    }

    fn alg_activate(&self, mem: &mut Lent<'_>) {
        self.meddle(mem);
    }

    fn process(&self, mem: &mut Lent<'_>, input: &[i16], out: &mut Block) {
        match self {
            Rogue::Scribble | Rogue::Forger => {
                self.meddle(mem);
                echo(input, out);
            }
            Rogue::Clinger => cling(mem, input, out),
            Rogue::Babbler => babble(mem, input, out),
        }
    }

    fn alg_deactivate(&self, mem: &mut Lent<'_>) {
        self.meddle(mem);
    }

    fn alg_moved(&self, _tab: &MemTab, mem: &mut Lent<'_>) {
        self.meddle(mem);
    }

    fn accepts(&self, p: &Params, c: &Ctl) -> bool
        ensures law { AcceptsItsControls rogue_meaning self.now p.now.items c.now result }

        // What a rogue takes.
        ensures all { result ≡ true }
    {
        true
    }

    fn alg_control(&self, mem: &mut Lent<'_>, c: &Ctl) -> Status
        ensures loans { SameLoans mem.old mem.new }
        ensures law { DoesControl (lawless rogue_meaning) self.now c.now result mem.old mem.new }

        // What a rogue answers.
        ensures done { result ≡ Status.Done }
    {
        self.meddle(mem);
        Status::Done
    }

    fn alg_free(&self, mem: &Lent<'_>) -> MemTab {
        match self {
            Rogue::Forger => forged_table(mem),
            Rogue::Scribble | Rogue::Clinger | Rogue::Babbler => mem.table().copied(),
        }
    }

    ghost same = { Prim.search (comparing, rules) };

    ghost compared = { Prim.search (comparing, rules) };

    ghost idle_words = { is_word_history };

    ghost active_words = { is_word_history };

    ghost idle_fill = { holds_fill };

    ghost active_fill = { holds_fill };
}

impl Rogue {
    /// What the rogue does to the memory that a call lends, whichever call it is: nothing, where it does its work in `process` alone.
    fn meddle(self, mem: &mut Lent<'_>)
        ensures { SameLoans mem.old mem.new }
    {
        match self {
            Rogue::Scribble => scribble(mem),
            Rogue::Forger => forge(mem),
            Rogue::Clinger | Rogue::Babbler => {}
        }
    }
}

/// The law that the hosted kinds, and they alone, keep IALG's laws: for all parameters, and whatever the host's poison word is. The call
/// does nothing: its contract is the law.
pub fn voices_alone_are_lawful()
    ensures { (kind : Or Voice Rogue) (p : List ℤ) (w : Option ℤ) → ⟦<Or<Voice, Rogue> as Ialg>⟧.law.meaning.lawful kind p w ≡ is_voice kind }
{}
