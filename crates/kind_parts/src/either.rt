//! A kind of either of two sets.
ghost use Rattle.std.specs.Prelude.{ℤ, List, Option, IsTrue};
ghost use Rattle.std.proofs.Common.{ap, refl};
ghost use Rattle.std.proofs.lemmas.Bool.{false≢true};
ghost use Rattle.kind_parts.specs.declared.either.Or.{Or};
ghost use Rattle.kind_parts.specs.declared.either.Or.TheVariants.{First, Second};
ghost use Rattle.kind_parts.specs.Either.{told, either_means, either_refines, either_named};

use ialg::{Block, Ctl, Ialg, Lent, Named, Params, Status, process_apart};
use mem_rec::MemTab;

/// A kind of either of two sets of kinds. Each call is that of the kind, and a name that both sets have is the first one's.
///
/// A set of one's own is a type: `Or<Voice, Or<Gain, Level>>` has the kinds of `Voice`, and two more.
#[derive(Clone, Copy, PartialEq, Eq, Debug)]
pub enum Or<A, B> {
    /// A kind of the first set.
    First(A),
    /// A kind of the second one.
    Second(B),
}

impl<A: Named, B: Named> Named for Or<A, B> {
    ghost named = { either_named A.named B.named };

    fn of_name(name: &[u8]) -> Option<Or<A, B>> {
        match A::of_name(name) {
            Some(kind) => Some(Or::First(kind)),
            None => match B::of_name(name) {
                Some(kind) => Some(Or::Second(kind)),
                None => None,
            },
        }
    }
}

impl<A: Ialg, B: Ialg> Ialg for Or<A, B> {
    ghost law = { record {
      meaning = either_means A.law.meaning B.law.meaning;
      bound = told A.law.bound B.law.bound;
      fill = told A.law.fill B.law.fill;
      idle_refines = either_refines A.law.idle_refines B.law.idle_refines;
      active_refines = either_refines A.law.active_refines B.law.active_refines;
    } };

    fn alg_num_alloc(&self) -> usize {
        match self {
            Or::First(kind) => kind.alg_num_alloc(),
            Or::Second(kind) => kind.alg_num_alloc(),
        }
    }

    fn alg_alloc(&self, p: &Params) -> Option<MemTab> {
        match self {
            Or::First(kind) => kind.alg_alloc(p),
            Or::Second(kind) => kind.alg_alloc(p),
        }
    }

    fn alg_init(&self, tab: &MemTab, p: &Params, mem: &mut Lent<'_>) {
        match self {
            Or::First(kind) => kind.alg_init(tab, p, mem),
            Or::Second(kind) => kind.alg_init(tab, p, mem),
        }
    }

    fn alg_activate(&self, mem: &mut Lent<'_>) {
        match self {
            Or::First(kind) => kind.alg_activate(mem),
            Or::Second(kind) => kind.alg_activate(mem),
        }
    }

    fn activate_and_process(&self, mem: &mut Lent<'_>, input: &[i16], out: &mut Block) {
        match self {
            Or::First(kind) => kind.activate_and_process(mem, input, out),
            Or::Second(kind) => kind.activate_and_process(mem, input, out),
        }
    }

    #[inline(always)]
    fn process(&self, mem: &mut Lent<'_>, input: &[i16], out: &mut Block) {
        match self {
            Or::First(kind) => kind.process(mem, input, out),
            Or::Second(kind) => process_apart(kind, mem, input, out),
        }
    }

    #[inline(always)]
    fn process_sample(&self, object: &[i16], once: &[i16], x: i16) -> Option<i16> {
        match self {
            Or::First(kind) => kind.process_sample(object, once, x),
            Or::Second(kind) => kind.process_sample(object, once, x),
        }
    }

    fn alg_deactivate(&self, mem: &mut Lent<'_>) {
        match self {
            Or::First(kind) => kind.alg_deactivate(mem),
            Or::Second(kind) => kind.alg_deactivate(mem),
        }
    }

    fn alg_moved(&self, tab: &MemTab, mem: &mut Lent<'_>) {
        match self {
            Or::First(kind) => kind.alg_moved(tab, mem),
            Or::Second(kind) => kind.alg_moved(tab, mem),
        }
    }

    fn accepts(&self, p: &Params, c: &Ctl) -> bool {
        match self {
            Or::First(kind) => kind.accepts(p, c),
            Or::Second(kind) => kind.accepts(p, c),
        }
    }

    fn alg_control(&self, mem: &mut Lent<'_>, c: &Ctl) -> Status {
        match self {
            Or::First(kind) => kind.alg_control(mem, c),
            Or::Second(kind) => kind.alg_control(mem, c),
        }
    }

    fn alg_free(&self, mem: &Lent<'_>) -> MemTab {
        match self {
            Or::First(kind) => kind.alg_free(mem),
            Or::Second(kind) => kind.alg_free(mem),
        }
    }

    ghost same = { elim [
      | First a ↦ elim [ First b ↦ λ e. ap First (A.same a b e) | Second b ↦ λ e. absurd (false≢true e) ]
      | Second a ↦ elim [ First b ↦ λ e. absurd (false≢true e) | Second b ↦ λ e. ap Second (B.same a b e) ]
    ] };

    ghost compared = { elim [
      | First a ↦ elim [ First b ↦ A.compared a b | Second b ↦ refl ]
      | Second a ↦ elim [ First b ↦ refl | Second b ↦ B.compared a b ]
    ] };

    ghost idle_words = { elim [ First a ↦ A.idle_words a | Second b ↦ B.idle_words b ] };

    ghost active_words = { elim [ First a ↦ A.active_words a | Second b ↦ B.active_words b ] };

    ghost idle_fill = { elim [ First a ↦ A.idle_fill a | Second b ↦ B.idle_fill b ] };

    ghost active_fill = { elim [ First a ↦ A.active_fill a | Second b ↦ B.active_fill b ] };
}

/// The law that a set of two sets keeps IALG's laws where both keep them, for all parameters and in each host. The call does nothing:
/// its contract is the law.
pub fn both_are_lawful<A: Ialg, B: Ialg>()
    ensures { ((a : A) (p : List ℤ) (w : Option ℤ) → IsTrue (A.law.meaning.lawful a p w))
        → ((b : B) (p : List ℤ) (w : Option ℤ) → IsTrue (B.law.meaning.lawful b p w))
        → (kind : Or A B) (p : List ℤ) (w : Option ℤ) → IsTrue (⟦<Or<A, B> as Ialg>⟧.law.meaning.lawful kind p w) }
{}
