//! Laws of the definitions: each call does nothing, and its contract is the law.
ghost use Rattle.std.specs.Prelude.{ℕ, ℤ, ◌<◌, List, Option, IsTrue, FitsSigned};
ghost use Rattle.std.specs.Int.{w16};
ghost use Rattle.alg_g711.specs.declared.companding.Law.{Law};
ghost use Rattle.alg_g711.specs.declared.kind.G711.{G711};
ghost use Rattle.alg_g711.specs.Intervals.{LiesInOne, IsMonotone, CodesComeBack};

use crate::{G711, INTERVALS};
use ialg::Ialg;

/// The law that each sample lies in exactly one interval.
pub fn intervals_divide_samples()
    ensures { (law : Law) (x : ℤ) → FitsSigned w16 x → LiesInOne law x }
{}

/// The law that decoding is monotone: a higher interval has a sample further from 0.
pub fn decoding_is_monotone()
    ensures { (law : Law) (low high : ℕ) → low < high → high < INTERVALS → IsMonotone law low high }
{}

/// The law that a code's sample has that code, but for mu-law's negative zero.
pub fn codes_come_back()
    ensures { CodesComeBack }
{}

/// The law that G.711 coders keep IALG's laws for all parameters, refused ones too, in a host of any poison word and in one of
/// none.
pub fn g711_is_lawful()
    ensures { (kind : G711) (p : List ℤ) (w : Option ℤ) → IsTrue (⟦<G711 as Ialg>⟧.law.meaning.lawful kind p w) }
{}
