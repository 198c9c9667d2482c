//! Operators and filters over blocks of samples.
ghost use Rattle.std.specs.Prelude.{◌≡◌, ◌≢◌, length};
ghost use Rattle.basic_op.specs.Operators.{add_of, sub_of, mult_of, shl_of, shr_of};
ghost use Rattle.dsp_library.specs.Sums.{l_mac_sum, AreFiltered, AreOfOne, AreOfTwo, BothHave, CanFilter};
ghost use Rattle.dsp_library.specs.declared.TheConstants.{DONE, BAD_LENGTH};

use crate::{BAD_LENGTH, DONE};
use fir_kernel::{MOST_COEFFICIENTS, filter};
use ialg::BLOCK_SAMPLES;

/// Writes the sums.
fn add_all(a: &[i16], b: &[i16], out: &mut [i16])
    requires first { length a.now ≡ length out.old }
    requires second { length b.now ≡ length out.old }
    ensures sums { AreOfTwo add_of a.now b.now out.old out.new }
{
    for k in 0..a.len() {
        out[k] = basic_op::add(a[k], b[k]);
    }
}

/// Writes the differences.
fn sub_all(a: &[i16], b: &[i16], out: &mut [i16])
    requires first { length a.now ≡ length out.old }
    requires second { length b.now ≡ length out.old }
    ensures differences { AreOfTwo sub_of a.now b.now out.old out.new }
{
    for k in 0..a.len() {
        out[k] = basic_op::sub(a[k], b[k]);
    }
}

/// Writes the products.
fn mult_all(gain: i16, samples: &[i16], out: &mut [i16])
    requires { length samples.now ≡ length out.old }
    ensures products { AreOfOne mult_of samples.now gain out.old out.new }
{
    for k in 0..samples.len() {
        out[k] = basic_op::mult(samples[k], gain);
    }
}

/// Writes the samples, each shifted to the left.
fn shl_all(samples: &[i16], shift: i16, out: &mut [i16])
    requires { length samples.now ≡ length out.old }
    ensures shifted { AreOfOne shl_of samples.now shift out.old out.new }
{
    for k in 0..samples.len() {
        out[k] = basic_op::shl(samples[k], shift);
    }
}

/// Writes the samples, each shifted to the right.
fn shr_all(samples: &[i16], shift: i16, out: &mut [i16])
    requires { length samples.now ≡ length out.old }
    ensures shifted { AreOfOne shr_of samples.now shift out.old out.new }
{
    for k in 0..samples.len() {
        out[k] = basic_op::shr(samples[k], shift);
    }
}

/// The products of each two samples are added to `v`, one after another.
fn l_mac_all(v: i32, a: &[i16], b: &[i16]) -> i32
    requires { length a.now ≡ length b.now }
    ensures { result ≡ l_mac_sum v a.now b.now (length a.now) }
{
    let mut sum = v;
    for k in 0..a.len() {
        sum = basic_op::l_mac(sum, a[k], b[k]);
    }
    sum
}

/// Writes the sum of each two samples, saturated (G.191 `add`): `DONE`, or `BAD_LENGTH`, and then nothing is written.
#[unsafe(no_mangle)]
pub extern "C" fn rokdaum_proved_add_block(a: &[i16], b: &[i16], out: &mut [i16]) -> i32
    ensures length { ¬ BothHave (length out.old) a.now b.now → result ≡ BAD_LENGTH }
    ensures done { length a.now ≡ length out.old → length b.now ≡ length out.old → result ≡ DONE }
    ensures sums { result ≡ DONE → AreOfTwo add_of a.now b.now out.old out.new }
    ensures refused { result ≢ DONE → out.new ≡ out.old }
{
    if a.len() != out.len() || b.len() != out.len() {
        return BAD_LENGTH;
    }
    add_all(a, b, out);
    DONE
}

/// Writes the difference of each two samples, saturated (G.191 `sub`): `DONE`, or `BAD_LENGTH`, and then nothing is written.
#[unsafe(no_mangle)]
pub extern "C" fn rokdaum_proved_sub_block(a: &[i16], b: &[i16], out: &mut [i16]) -> i32
    ensures length { ¬ BothHave (length out.old) a.now b.now → result ≡ BAD_LENGTH }
    ensures done { length a.now ≡ length out.old → length b.now ≡ length out.old → result ≡ DONE }
    ensures differences { result ≡ DONE → AreOfTwo sub_of a.now b.now out.old out.new }
    ensures refused { result ≢ DONE → out.new ≡ out.old }
{
    if a.len() != out.len() || b.len() != out.len() {
        return BAD_LENGTH;
    }
    sub_all(a, b, out);
    DONE
}

/// Writes the product of each sample and a gain in Q15 (G.191 `mult`): `DONE`, or `BAD_LENGTH`, and then nothing is written.
#[unsafe(no_mangle)]
pub extern "C" fn rokdaum_proved_mult_block(gain: i16, samples: &[i16], out: &mut [i16]) -> i32
    ensures length { length samples.now ≢ length out.old → result ≡ BAD_LENGTH }
    ensures done { length samples.now ≡ length out.old → result ≡ DONE }
    ensures products { result ≡ DONE → AreOfOne mult_of samples.now gain out.old out.new }
    ensures refused { result ≢ DONE → out.new ≡ out.old }
{
    if samples.len() != out.len() {
        return BAD_LENGTH;
    }
    mult_all(gain, samples, out);
    DONE
}

/// Writes each sample shifted to the left, saturated, and to the right where `shift` is negative (G.191 `shl`): `DONE`, or `BAD_LENGTH`,
/// and then nothing is written.
#[unsafe(no_mangle)]
pub extern "C" fn rokdaum_proved_shl_block(samples: &[i16], shift: i16, out: &mut [i16]) -> i32
    ensures length { length samples.now ≢ length out.old → result ≡ BAD_LENGTH }
    ensures done { length samples.now ≡ length out.old → result ≡ DONE }
    ensures shifted { result ≡ DONE → AreOfOne shl_of samples.now shift out.old out.new }
    ensures refused { result ≢ DONE → out.new ≡ out.old }
{
    if samples.len() != out.len() {
        return BAD_LENGTH;
    }
    shl_all(samples, shift, out);
    DONE
}

/// Writes each sample shifted to the right, and to the left, saturated, where `shift` is negative (G.191 `shr`): `DONE`, or `BAD_LENGTH`,
/// and then nothing is written.
#[unsafe(no_mangle)]
pub extern "C" fn rokdaum_proved_shr_block(samples: &[i16], shift: i16, out: &mut [i16]) -> i32
    ensures length { length samples.now ≢ length out.old → result ≡ BAD_LENGTH }
    ensures done { length samples.now ≡ length out.old → result ≡ DONE }
    ensures shifted { result ≡ DONE → AreOfOne shr_of samples.now shift out.old out.new }
    ensures refused { result ≢ DONE → out.new ≡ out.old }
{
    if samples.len() != out.len() {
        return BAD_LENGTH;
    }
    shr_all(samples, shift, out);
    DONE
}

/// Writes `v` with the products of each two samples added to it, one after another, the first two first; each product is doubled and
/// saturated, and so is each sum (G.191 `L_mac`): `DONE`, or `BAD_LENGTH`, and then nothing is written.
#[unsafe(no_mangle)]
pub extern "C" fn rokdaum_proved_l_mac_block(v: i32, a: &[i16], b: &[i16], sum: &mut i32) -> i32
    ensures length { length a.now ≢ length b.now → result ≡ BAD_LENGTH }
    ensures done { length a.now ≡ length b.now → (result ≡ DONE) × (sum.new ≡ l_mac_sum v a.now b.now (length a.now)) }
    ensures refused { result ≢ DONE → sum.new ≡ sum.old }
{
    if a.len() != b.len() {
        return BAD_LENGTH;
    }
    *sum = l_mac_all(v, a, b);
    DONE
}

/// Writes the outputs of a FIR filter: `DONE`, or `BAD_LENGTH`, and then nothing is written. The coefficients are in Q15, that of the
/// newest sample first. `line` has what came before the block, as many samples as there are coefficients but one, then the block, and after
/// it as many as fill up 63 more than there are outputs; those aren't read for an output.
#[unsafe(no_mangle)]
pub extern "C" fn rokdaum_proved_fir(coefficients: &[i16], line: &[i16], out: &mut [i16]) -> i32
    ensures length { ¬ CanFilter coefficients.now line.now out.old → result ≡ BAD_LENGTH }
    ensures done { CanFilter coefficients.now line.now out.old → result ≡ DONE }
    ensures outputs { result ≡ DONE → AreFiltered coefficients.now line.now out.old out.new }
    ensures refused { result ≢ DONE → out.new ≡ out.old }
{
    if coefficients.is_empty()
        || coefficients.len() > MOST_COEFFICIENTS
        || out.len() > BLOCK_SAMPLES
        || line.len() < MOST_COEFFICIENTS - 1
        || line.len() - (MOST_COEFFICIENTS - 1) < out.len()
    {
        return BAD_LENGTH;
    }
    filter(coefficients, line, 0, 1, out);
    DONE
}
