//! Companding of one sample.
ghost use Rattle.std.specs.Prelude.{◌≡◌, ◌≤◌, ◌<◌, ◌+◌, ◌*◌, ◌/◌, ◌^◌};
ghost use Rattle.alg_g711.specs.Companding.{decoded, encoded, interval_of, lower_end, magnitude_of, middle_of, sample_of, turned};
ghost use Rattle.alg_g711.specs.Steps.{step_width};
ghost use Rattle.alg_g711.specs.Least.{HasBitsPast, IsLeast};
ghost use Rattle.alg_g711.specs.declared.companding.Law.TheVariants.{A, Mu};

use crate::{
    BIAS, EVEN_BITS, FINEST_A_STEP, GREATEST_MAGNITUDE, INTERVALS, SEGMENTS, SIGN_BIT, STEPS,
};

/// How many bits A-law's finest steps leave out of a magnitude.
const FINEST_A_BITS: u16 = 4;

/// How many bits mu-law's finest steps leave out of a magnitude.
const FINEST_MU_BITS: u16 = 1;

/// The bits of the number of a step in its segment.
const STEP_BITS: u32 = 4;

/// The two laws of G.711, 3.2.
#[derive(Clone, Copy, PartialEq, Eq, Debug)]
pub enum Law {
    /// A-law: tables 1a and 1b.
    A,
    /// Mu-law: tables 2a and 2b.
    Mu,
}

/// The code of a sample (G.711, 3.2), 0 to 255: the sign bit, and below it the number of the interval that holds
/// the magnitude, with the bits that the law turns. A-law's magnitudes have 15 bits here, and mu-law's 13.
#[inline]
pub fn encode(law: Law, x: i16) -> u8
    ensures { result ≡ encoded law x }
{
    code(law, x, interval(law, magnitude(law, x)))
}

/// The code of a sample, as [`encode`] makes it, for one that comes alone: its segment is looked for.
#[inline]
pub(crate) fn encode_alone(law: Law, x: i16) -> u8
    ensures { result ≡ encoded law x }
{
    code(law, x, interval_alone(law, magnitude(law, x)))
}

/// The code of a sample whose magnitude the interval of this number holds.
#[inline]
fn code(law: Law, x: i16, number: u16) -> u8
    requires number { number ≡ interval_of law (magnitude_of law x) }
    requires within { number < INTERVALS }
    ensures { result ≡ encoded law x }
{
    let sign = if x < 0 { 0 } else { SIGN_BIT };
    let bits = turn(law, number);
    (sign + bits) as u8
}

/// The sample of a code (G.711, 3.2): the middle of its interval.
pub fn decode(law: Law, code: u8) -> i16
    ensures { result ≡ decoded law code }
{
    let bits = u16::from(code);
    let number = turn(law, bits % SIGN_BIT);
    let n = middle_sample(law, number) as i16;
    if bits < SIGN_BIT { -n } else { n }
}

/// The magnitude of a sample that the law's intervals hold. That of a negative sample is that of -1 - x, so that no sample
/// has a magnitude of more than 15 bits.
#[inline]
fn magnitude(law: Law, x: i16) -> u16
    ensures value { result ≡ magnitude_of law x }
    ensures above { lower_end law 0 ≤ result }
    ensures below { result < lower_end law INTERVALS }
{
    let folded = if x < 0 { !x } else { x };
    let magnitude = folded.cast_unsigned();
    match law {
        Law::A => magnitude,
        Law::Mu => (magnitude / 4 + BIAS).min(GREATEST_MAGNITUDE),
    }
}

/// The number of the interval that holds the magnitude.
#[inline]
fn interval(law: Law, magnitude: u16) -> u16
    requires above { lower_end law 0 ≤ magnitude }
    requires below { magnitude < lower_end law INTERVALS }
    ensures number { result ≡ interval_of law magnitude }
    ensures within { result < INTERVALS }
{
    match law {
        Law::A => a_interval(magnitude),
        Law::Mu => mu_interval(magnitude),
    }
}

/// The number of the interval of A-law that holds the magnitude. The first segment is as fine as the second.
#[inline]
fn a_interval(magnitude: u16) -> u16
    requires { magnitude < 32768 }
    ensures number { result ≡ interval_of A magnitude }
    ensures within { result < INTERVALS }
{
    least_number(magnitude, FINEST_A_BITS)
}

/// The number of the interval of mu-law that holds the magnitude. The first steps lie below the bias, and no interval has them.
#[inline]
fn mu_interval(magnitude: u16) -> u16
    requires some { 32 ≤ magnitude }
    requires few { magnitude < 8192 }
    ensures number { result ≡ interval_of Mu magnitude }
    ensures within { result < INTERVALS }
{
    least_number(magnitude, FINEST_MU_BITS) - STEPS
}

/// The least of the numbers that the segments give: the steps before the segment, and the steps of its width that the magnitude
/// has. The magnitude's own segment gives the least, since in a finer one it has more steps, and before a coarser one there are more.
///
/// No segment is looked for, so the compiler makes the numbers of several samples at once.
#[inline]
fn least_number(magnitude: u16, finest: u16) -> u16
    requires magnitude { magnitude < 32768 }
    requires bits { finest < 8 }
    ensures { IsLeast result SEGMENTS (λ segment. STEPS * segment + magnitude / 2 ^ (finest + segment)) }
{
    let mut least = magnitude >> finest;
    for segment in 1..SEGMENTS {
        least = least.min(STEPS * segment + (magnitude >> (finest + segment)));
    }
    least
}

/// The number of the interval that holds the magnitude, as [`interval`] finds it, by the place of the magnitude's leading bit.
#[inline]
fn interval_alone(law: Law, magnitude: u16) -> u16
    requires above { lower_end law 0 ≤ magnitude }
    requires below { magnitude < lower_end law INTERVALS }
    ensures number { result ≡ interval_of law magnitude }
    ensures within { result < INTERVALS }
{
    match law {
        Law::A => a_interval_alone(magnitude),
        Law::Mu => mu_interval_alone(magnitude),
    }
}

/// The number of the interval of A-law that holds the magnitude. The first segment is as fine as the second.
#[inline]
fn a_interval_alone(magnitude: u16) -> u16
    requires { magnitude < 32768 }
    ensures number { result ≡ interval_of A magnitude }
    ensures within { result < INTERVALS }
{
    let past_first = magnitude.max(STEPS * FINEST_A_STEP);
    let bits = bits_left_out(past_first);
    STEPS * (bits - FINEST_A_BITS) + (magnitude >> bits)
}

/// The number of the interval of mu-law that holds the magnitude. The first steps lie below the bias, and no interval has them.
#[inline]
fn mu_interval_alone(magnitude: u16) -> u16
    requires some { 32 ≤ magnitude }
    requires few { magnitude < 8192 }
    ensures number { result ≡ interval_of Mu magnitude }
    ensures within { result < INTERVALS }
{
    let bits = bits_left_out(magnitude);
    let number = STEPS * (bits - FINEST_MU_BITS) + (magnitude >> bits);
    number - STEPS
}

/// How many bits the steps of a magnitude's segment leave out: those below its five leading ones.
#[inline]
fn bits_left_out(magnitude: u16) -> u16
    requires { STEPS ≤ magnitude }
    ensures { HasBitsPast magnitude result }
{
    (magnitude.ilog2() - STEP_BITS) as u16
}

/// The bits of a number as a code has them, and the other way round.
#[inline]
fn turn(law: Law, bits: u16) -> u16
    requires { bits < INTERVALS }
    ensures bits { result ≡ turned law bits }
    ensures fits { result < INTERVALS }
{
    match law {
        Law::A => bits ^ EVEN_BITS,
        Law::Mu => INTERVALS as u16 - 1 - bits,
    }
}

/// The magnitude of the sample in the middle of an interval.
fn middle_sample(law: Law, number: u16) -> u16
    requires { number < INTERVALS }
    ensures value { result ≡ sample_of law (middle_of law number) }
    ensures fits { result < 32768 }
{
    let width = step_width(law, number / STEPS);
    let middle = lower_end(law, number, width) + width / 2;
    match law {
        Law::A => middle,
        Law::Mu => 4 * (middle - BIAS),
    }
}

/// How wide the steps of a segment are.
fn step_width(law: Law, segment: u16) -> u16
    requires { segment < 8 }
    ensures width { result ≡ step_width law segment }
    ensures bounded { result ≤ 1024 }
{
    match law {
        Law::A => FINEST_A_STEP << segment.saturating_sub(1),
        Law::Mu => 2 << segment,
    }
}

/// Where an interval begins whose segment has steps of this width.
fn lower_end(law: Law, number: u16, width: u16) -> u16
    requires within { number < INTERVALS }
    requires width { width ≡ step_width law (number / STEPS) }
    ensures { result ≡ lower_end law number }
{
    let step = number % STEPS;
    if law == Law::A && number < STEPS {
        width * step
    } else {
        width * (STEPS + step)
    }
}
