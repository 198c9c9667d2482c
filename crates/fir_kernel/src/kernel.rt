//! The filter over plain words: a line of past samples and a block, the newest sample last.
ghost use Rattle.std.specs.Prelude.{◌≡◌, ◌<◌, ◌≤◌, ◌+◌, ◌*◌, length};
ghost use Rattle.ialg.specs.History.{word_at};
ghost use Rattle.fir_kernel.specs.Bounded.{NoneLouder};
ghost use Rattle.fir_kernel.specs.Sums.{AreOutputs, Reaches};

use crate::bounded::{bound, filter_bounded, output_bounded};
use crate::halves::{are_above_least, filter_halves};
use crate::in_order::filter_in_order;
use crate::{FEW_SAMPLES, MOST_COEFFICIENTS, SHORT_BLOCK};
use ialg::BLOCK_SAMPLES;

/// Runs the filter over the block in `line`, behind as many past samples as there are coefficients but one, for the
/// samples `first`, `first + step`, `first + 2 * step`, .. of the block, as many as there are outputs. Coefficients are
/// in Q15. Behind the block `line` has words of any value, so that a run of taps never ends past it.
pub fn filter(coefficients: &[i16], line: &[i16], first: usize, step: usize, out: &mut [i16])
    requires some { 1 ≤ length coefficients.now }
    requires few { length coefficients.now ≤ MOST_COEFFICIENTS }
    requires reach { Reaches first step (length out.old) MOST_COEFFICIENTS line.now }
    requires block { length out.old ≤ BLOCK_SAMPLES }
    ensures { AreOutputs coefficients.now line.now first step (length out.old) out.new }
{
    if out.len() <= FEW_SAMPLES {
        filter_within::<FEW_SAMPLES>(coefficients, line, first, step, out);
    } else if out.len() <= SHORT_BLOCK {
        filter_within::<SHORT_BLOCK>(coefficients, line, first, step, out);
    } else {
        filter_within::<BLOCK_SAMPLES>(coefficients, line, first, step, out);
    }
}

/// Runs the filter as [`filter`] does, for at most `N` outputs. Where they may saturate, their sums stand in arrays of so many, which are
/// cleared first.
fn filter_within<const N: usize>(
    coefficients: &[i16],
    line: &[i16],
    first: usize,
    step: usize,
    out: &mut [i16],
)
    requires some { 1 ≤ length coefficients.now }
    requires few { length coefficients.now ≤ MOST_COEFFICIENTS }
    requires reach { Reaches first step (length out.old) MOST_COEFFICIENTS line.now }
    requires block { length out.old ≤ N }
    requires arrays { N ≤ BLOCK_SAMPLES }
    ensures { AreOutputs coefficients.now line.now first step (length out.old) out.new }
{
    if out.is_empty() {
        return;
    }
    let last = first + step * (out.len() - 1);
    let (is_bounded, loudest) = bound(coefficients, &line[..last + coefficients.len()]);
    if is_bounded {
        if out.len() == 1 {
            out[0] = output_bounded(coefficients, line, first);
        } else {
            filter_bounded(coefficients, line, first, step, last, out);
        }
    } else {
        let reach = &line[first..last + coefficients.len()];
        filter_limited::<N>(coefficients, reach, step, loudest, out);
    }
}

/// Runs the filter as [`filter_within`] does, where sums may saturate. The line has the words that the outputs are made of, and no others:
/// all of it is looked through for -32768 where a coefficient is that.
fn filter_limited<const N: usize>(
    coefficients: &[i16],
    line: &[i16],
    step: usize,
    loudest: u16,
    out: &mut [i16],
)
    requires some { 1 ≤ length coefficients.now }
    requires few { length coefficients.now ≤ MOST_COEFFICIENTS }
    requires outputs { 1 ≤ length out.old }
    requires reach { Reaches 0 step (length out.old) (length coefficients.now) line.now }
    requires quiet { NoneLouder line.now loudest }
    requires block { length out.old ≤ N }
    requires arrays { N ≤ BLOCK_SAMPLES }
    ensures { AreOutputs coefficients.now line.now 0 step (length out.old) out.new }
{
    if out.len() > 1 && (are_above_least(coefficients) || are_above_least(line)) {
        filter_halves::<N>(coefficients, line, 0, step, loudest, out);
    } else {
        filter_in_order(coefficients, line, 0, step, out);
    }
}
