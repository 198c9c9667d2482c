//! Starts of a primed instance, its activation, and a sample. Each concludes from the laws of [`Ialg`] what is kept.
ghost use Rattle.std.specs.Prelude.{◌≡◌, ◌∷◌, ℤ, [], List, Option, Some, IfSome, IsTrue, MatchOption, true, false, ⊤};
ghost use Rattle.ialg.specs.History.{History, Sample};
ghost use Rattle.ialg.specs.Records.{lasting, AllLent, AreNew, LastingLent, ScratchIsPoison, unplaced};
ghost use Rattle.ialg.specs.Meaning.{Done};
ghost use Rattle.ialg.specs.Views.{answer_of};
ghost use Rattle.ialg.specs.Loans.{lent_words, SameLoans};
ghost use Rattle.test_doubles.specs.Primed.{is_primed, primed_fill, primed_records, KeepsWords, KeepsActive};
ghost use Rattle.test_doubles.specs.Starts.{placed_records, held_words, HasStarted, IsActive, HoldsFill};

use crate::{ONCE, ONCE_BASE, Primed};
use ialg::{
    Block, Entry, Ialg, Lending, Lent, OBJECT_WORDS, Params, Status, Step, copied, give, lend,
};
use mem_rec::MemTab;

/// The words of an instance's records that last.
#[derive(Clone, Copy, PartialEq, Eq, Debug)]
pub struct Held {
    pub object: [i16; OBJECT_WORDS],
    pub once: [i16; 1],
    pub primed: [i16; 1],
}

/// The words of an active instance's records.
#[derive(Clone, Copy, PartialEq, Eq, Debug)]
pub struct Active {
    pub held: Held,
    pub scratch: [i16; 1],
}

/// Starts an instance in a host of the poison word `poison`, where its records hold nothing else.
pub fn start_in_poison(poison: i16, once: i16) -> Option<Held>
    ensures keeps { MatchOption result ⊥ (λ held. HasStarted poison once held) }
    ensures fill { IfSome result (λ held. HoldsFill poison once held) }
{
    let new = Held {
        object: [poison; OBJECT_WORDS],
        once: [poison],
        primed: [poison],
    };
    started(poison, once, new)
}

/// Starts an instance in a host of the poison word `poison`, where its write-once record holds its word already: instances with
/// equal parameters may share it.
pub fn start_with_fill(poison: i16, once: i16) -> Option<Held>
    ensures keeps { MatchOption result ⊥ (λ held. HasStarted poison once held) }
    ensures fill { IfSome result (λ held. HoldsFill poison once held) }
{
    let new = Held {
        object: [poison; OBJECT_WORDS],
        once: [once],
        primed: [poison],
    };
    started(poison, once, new)
}

/// Starts an instance in these records, which are new.
fn started(poison: i16, once: i16, new: Held) -> Option<Held>
    requires { AreNew (Some poison) (primed_fill (poison ∷ once ∷ [])) placed_records (held_words new) }
    ensures { MatchOption result ⊥ (λ held. HasStarted poison once held) }
{
    let p = copied(&[poison, once]);
    let table = placed_table(&p)?;
    let Held {
        mut object,
        mut once,
        mut primed,
    } = new;
    lend(
        &Lending {
            step: &Start { p: &p },
            table: &table,
            writable: true,
        },
        &mut object,
        &mut once,
        &mut primed,
        &mut [],
        &mut (),
    );
    Some(Held {
        object,
        once,
        primed,
    })
}

/// The table of an instance with these parameters, with its places.
fn placed_table(p: &Params) -> Option<MemTab>
    ensures { (poison once : ℤ) → p.now.items ≡ poison ∷ once ∷ []
        → MatchOption result ⊥ (λ table. table ≡ placed_records) }
{
    let table = Primed.alg_alloc(p)?;
    if ONCE < table.len() {
        Some(table.with_base(ONCE, ONCE_BASE))
    } else {
        None
    }
}

/// The start of an instance with these parameters.
#[derive(Clone, Copy)]
struct Start<'a> {
    p: &'a Params,
}

impl Step<()> for Start<'_> {
    ghost can = { λ _ _. ⊤ };

    ghost done = { λ start table writable old new _ _. (w : Option ℤ) → IsTrue (is_primed start.p.now.items w)
        → unplaced table ≡ primed_records
        → LastingLent table old
        → writable ≡ true
        → AreNew w (primed_fill start.p.now.items) table old
        → KeepsWords start.p.now.items table (lasting table new) [] };

    fn perform(&self, mem: &mut Lent<'_>, _out: &mut ()) {
        let table = mem.table();
        Primed.alg_init(table, self.p, mem);
    }
}

/// Starts an instance in a host of the poison word `poison`, and activates it over a scratch word that is the poison word.
pub fn activate_in_poison(poison: i16, once: i16) -> Option<Active>
    ensures { MatchOption result ⊥ (λ active. IsActive poison once active) }
{
    let held = start_in_poison(poison, once)?;
    activated(poison, once, held)
}

/// Activates a started instance.
fn activated(poison: i16, once: i16, held: Held) -> Option<Active>
    requires { HasStarted poison once held }
    ensures { MatchOption result ⊥ (λ active. IsActive poison once active) }
{
    let table = placed_table(&copied(&[poison, once]))?;
    let Held {
        mut object,
        mut once,
        mut primed,
    } = held;
    let mut scratch = [poison];
    lend(
        &Lending {
            step: &Activate,
            table: &table,
            writable: false,
        },
        &mut object,
        &mut once,
        &mut primed,
        &mut scratch,
        &mut (),
    );
    Some(Active {
        held: Held {
            object,
            once,
            primed,
        },
        scratch,
    })
}

/// The activation of an instance.
#[derive(Clone, Copy)]
struct Activate;

impl Step<()> for Activate {
    ghost can = { λ _ _. ⊤ };

    ghost done = { λ _ table writable old new _ _. (p : List ℤ) (w : Option ℤ) (h : History) → IsTrue (is_primed p w)
        → writable ≡ false
        → AllLent table old
        → ScratchIsPoison w table old
        → KeepsWords p table (lasting table old) h
        → KeepsActive p table new h };

    fn perform(&self, mem: &mut Lent<'_>, _out: &mut ()) {
        Primed.alg_activate(mem);
    }
}

/// Gives a sample to an active instance: its history has the sample, nothing comes out, and the answer is `Done`.
pub fn give_sample(mem: &mut Lent<'_>, sample: i16, out: &mut Block) -> Status
    requires { out.old.items ≡ [] }
    ensures loans { SameLoans mem.old mem.new }
    ensures law { (p : List ℤ) (w : Option ℤ) (h : History) → IsTrue (is_primed p w)
        → mem.old.writable ≡ false
        → AllLent mem.old.table.now (lent_words mem.old)
        → KeepsActive p mem.old.table.now (lent_words mem.old) h
        → KeepsActive p mem.old.table.now (lent_words mem.new) (Sample sample ∷ h)
        × (out.new.items ≡ [])
        × (answer_of result ≡ Done) }
{
    give(Primed, mem, &Entry::Sample(sample), out)
}
