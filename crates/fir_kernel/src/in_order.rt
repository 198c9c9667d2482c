//! The filter by the operators themselves: of a single output whose sum may saturate, and of products for which halves aren't exact.
ghost use Rattle.std.specs.Prelude.{◌≡◌, ◌≤◌, ◌+◌, ◌-◌, ◌*◌, length};
ghost use Rattle.ialg.specs.History.{word_at};
ghost use Rattle.fir_kernel.specs.Sums.{l_mac_sum, AreOutputs, Reaches};

use basic_op::{l_mac, round};

/// Runs the filter one output after the other.
pub(crate) fn filter_in_order(
    coefficients: &[i16],
    line: &[i16],
    first: usize,
    step: usize,
    out: &mut [i16],
)
    requires some { 1 ≤ length coefficients.now }
    requires reach { Reaches first step (length out.old) (length coefficients.now) line.now }
    ensures { AreOutputs coefficients.now line.now first step (length out.old) out.new }
{
    for (i, output) in out.iter_mut().enumerate() {
        let at = first + step * i;
        *output = round(sum_in_order(coefficients, &line[at..at + coefficients.len()]));
    }
}

/// The sum of the products of the coefficients with a window of samples, of which the newest stands last: in order, and limited after each.
fn sum_in_order(coefficients: &[i16], window: &[i16]) -> i32
    requires { length window.now ≡ length coefficients.now }
    ensures { result ≡ l_mac_sum (word_at coefficients.now)
        (λ k. word_at window.now (length coefficients.now - 1 - k)) (length coefficients.now) }
{
    let mut sum = 0;
    for (k, coefficient) in coefficients.iter().enumerate() {
        sum = l_mac(sum, *coefficient, window[coefficients.len() - 1 - k]);
    }
    sum
}
