//! The detector over plain words.
ghost use Rattle.std.specs.Prelude.{◌≡◌, ◌≤◌, ◌<◌, ◌+◌, ◌++◌, ◌∷◌, ℤ, List, [], length, pos, unsigned_abs};
ghost use Rattle.basic_op.specs.Operators.{add_of, extract_h_of, extract_l_of, sub_of};
ghost use Rattle.ialg.specs.History.{History, word_at};
ghost use Rattle.alg_dtmf.specs.Equation.{code_of, feedback_of, high_levels, level_of, low_levels, next_band, next_values, no_values, with_square};
ghost use Rattle.kind_parts.specs.Words.{joined};
ghost use Rattle.alg_dtmf.specs.Keeps.{frame_words, state_after, tuning_of, AreAboveLeast, IsTuned, Ran};

use crate::decision::{Levels, code};
use crate::{
    ENERGY_BITS, FACTOR_697, FACTOR_770, FACTOR_852, FACTOR_941, FACTOR_1209, FACTOR_1336,
    FACTOR_1477, FACTOR_1633, ONE, PARAMETERS, STATE_WORDS,
};
use basic_op::{
    add, extract_h, extract_l, half_mac, half_msu, half_mult, half_round_doubled, l_mac, l_msu,
    l_mult, l_shl, round, shr, sub,
};
use ialg::{BLOCK_SAMPLES, Block};
use kind_parts::join;

/// The two newest values of a tone.
type Values = (i16, i16);

/// The words of a band's values.
const BAND_WORDS: usize = 8;

/// The words of a frame's count and energy.
const HEAD_WORDS: usize = 3;

/// The two newest values of each tone of a band.
#[derive(Clone, Copy)]
pub(crate) struct Band {
    pub a: Values,
    pub b: Values,
    pub c: Values,
    pub d: Values,
}

impl Band {
    /// Without samples.
    const EMPTY: Band = Band {
        a: (0, 0),
        b: (0, 0),
        c: (0, 0),
        d: (0, 0),
    };

    /// Writes the values into the words.
    fn write(self, words: &mut [i16])
        requires { length words.old ≡ BAND_WORDS }
        ensures { words.new ≡ self.a.0 ∷ self.a.1 ∷ self.b.0 ∷ self.b.1 ∷ self.c.0 ∷ self.c.1 ∷ self.d.0 ∷ self.d.1 ∷ [] }
    {
        words.copy_from_slice(&[
            self.a.0, self.a.1, self.b.0, self.b.1, self.c.0, self.c.1, self.d.0, self.d.1,
        ]);
    }
}

/// The factors of a band's tones, in Q14.
#[derive(Clone, Copy)]
pub(crate) struct Factors {
    pub a: i16,
    pub b: i16,
    pub c: i16,
    pub d: i16,
}

/// How samples are scaled: by a factor in Q14 for the recursions, and by so many bits to the right for the energy.
#[derive(Clone, Copy)]
pub(crate) struct Scale {
    pub gain: i16,
    pub energy_bits: i16,
}

/// What a detector is made for: the factors of its tones, and how samples are scaled.
#[derive(Clone, Copy)]
pub(crate) struct Tuning {
    pub low: Factors,
    pub high: Factors,
    pub scale: Scale,
}

impl Tuning {
    /// For samples that are shifted to the right by so many bits for the recursions.
    pub(crate) fn of(shift: i16) -> Tuning
        ensures { result ≡ tuning_of shift }
    {
        Tuning {
            low: Factors {
                a: FACTOR_697,
                b: FACTOR_770,
                c: FACTOR_852,
                d: FACTOR_941,
            },
            high: Factors {
                a: FACTOR_1209,
                b: FACTOR_1336,
                c: FACTOR_1477,
                d: FACTOR_1633,
            },
            scale: Scale {
                gain: shr(ONE, shift),
                energy_bits: sub(shift, ENERGY_BITS),
            },
        }
    }
}

/// A frame so far: how many samples of it there are, their energy in Q31, and the values of its tones.
#[derive(Clone, Copy)]
struct Frame {
    samples: i16,
    energy: i32,
    low: Band,
    high: Band,
}

impl Frame {
    /// A frame without samples.
    const EMPTY: Frame = Frame {
        samples: 0,
        energy: 0,
        low: Band::EMPTY,
        high: Band::EMPTY,
    };

    /// The frame that these words have.
    fn read(words: &[i16]) -> Frame
        requires { length words.now ≡ STATE_WORDS }
        ensures samples { result.samples ≡ word_at words.now 0 }
        ensures energy { result.energy ≡ joined (word_at words.now 1) (word_at words.now 2) }
        ensures low_a { result.low.a ≡ (word_at words.now 3, word_at words.now 4) }
        ensures low_b { result.low.b ≡ (word_at words.now 5, word_at words.now 6) }
        ensures low_c { result.low.c ≡ (word_at words.now 7, word_at words.now 8) }
        ensures low_d { result.low.d ≡ (word_at words.now 9, word_at words.now 10) }
        ensures high_a { result.high.a ≡ (word_at words.now 11, word_at words.now 12) }
        ensures high_b { result.high.b ≡ (word_at words.now 13, word_at words.now 14) }
        ensures high_c { result.high.c ≡ (word_at words.now 15, word_at words.now 16) }
        ensures high_d { result.high.d ≡ (word_at words.now 17, word_at words.now 18) }
    {
        Frame {
            samples: words[0],
            energy: join(words[1], words[2]),
            low: Band {
                a: (words[3], words[4]),
                b: (words[5], words[6]),
                c: (words[7], words[8]),
                d: (words[9], words[10]),
            },
            high: Band {
                a: (words[11], words[12]),
                b: (words[13], words[14]),
                c: (words[15], words[16]),
                d: (words[17], words[18]),
            },
        }
    }

    /// Writes the frame into the words.
    fn write(self, words: &mut [i16])
        requires { length words.old ≡ STATE_WORDS }
        ensures { words.new ≡ frame_words self.samples self.energy self.low self.high }
    {
        let (head, values) = words.split_at_mut(HEAD_WORDS);
        let (low, high) = values.split_at_mut(BAND_WORDS);
        write_head(head, self.samples, self.energy);
        self.low.write(low);
        self.high.write(high);
    }

    /// The frame with one more sample.
    fn with(self, x: i16, scale: Scale, low: &Factors, high: &Factors) -> Frame
        requires gain { unsigned_abs scale.gain ≤ 32767 }
        requires low { AreAboveLeast low.now }
        requires high { AreAboveLeast high.now }
        ensures samples { result.samples ≡ add_of self.samples (pos 1) }
        ensures energy { result.energy ≡ with_square scale.energy_bits x self.energy }
        ensures low { result.low ≡ next_band low.now scale.gain x self.low }
        ensures high { result.high ≡ next_band high.now scale.gain x self.high }
    {
        let samples = add(self.samples, 1);
        let energy = add_square(scale.energy_bits, x, self.energy);
        let next_low = next_band(low, scale.gain, x, self.low);
        let next_high = next_band(high, scale.gain, x, self.high);
        Frame {
            samples,
            energy,
            low: next_low,
            high: next_high,
        }
    }

    /// The code of the digit in the frame, and -1 where there is none.
    fn code(self, p: &[i16]) -> i16
        requires { length p.now ≡ PARAMETERS }
        ensures { result ≡ code_of p.now self.energy (low_levels self.low) (high_levels self.high) }
    {
        code(
            p,
            self.energy,
            levels_below(self.low),
            levels_above(self.high),
        )
    }

    /// Gives the code of a frame that is full, and begins the next; another frame goes on.
    fn finish(self, p: &[i16], out: &mut Block) -> Frame
        requires seven { length p.now ≡ PARAMETERS }
        requires room { length out.old.items < BLOCK_SAMPLES }
        ensures bounded { length out.new.items ≤ length out.old.items + 1 }
        ensures full { self.samples ≡ word_at p.now 0
            → (result ≡ record { samples = pos 0; energy = pos 0; low = no_values; high = no_values })
            × (out.new.items ≡ out.old.items ++ code_of p.now self.energy (low_levels self.low) (high_levels self.high) ∷ []) }
        ensures unfinished { (self.samples ≡ word_at p.now 0 → ⊥) → (result ≡ self)
            × (out.new.items ≡ out.old.items) }
    {
        if self.samples == p[0] {
            out.push(self.code(p));
            Frame::EMPTY
        } else {
            self
        }
    }
}

/// Writes how many samples there are, and their energy.
fn write_head(words: &mut [i16], samples: i16, energy: i32)
    requires { length words.old ≡ HEAD_WORDS }
    ensures { words.new ≡ samples ∷ extract_h_of energy ∷ extract_l_of energy ∷ [] }
{
    words.copy_from_slice(&[samples, extract_h(energy), extract_l(energy)]);
}

/// The energy with the square of one more sample, shifted by so many bits.
fn add_square(bits: i16, x: i16, energy: i32) -> i32
    ensures { result ≡ with_square bits x energy }
{
    let shifted = shr(x, bits);
    l_mac(energy, shifted, shifted)
}

/// A factor in Q14 times a value in Q15, in Q15.
fn feedback(k: i16, v: i16) -> i16
    ensures { result ≡ feedback_of k v }
{
    round(l_shl(l_mult(k, v), 1))
}

/// The values of a tone at the sample `x`. The sum is in Q30, and in Q31 when it is doubled: it is summed by halves.
#[tactic(auto, unfolding(crate::specs::Equation::next_values))]
#[inline]
fn next(k: i16, gain: i16, x: i16, v: Values) -> Values
    requires factor { unsigned_abs k ≤ 32767 }
    requires gain { unsigned_abs gain ≤ 32767 }
    ensures { result ≡ next_values k gain x v }
{
    let fed_back = half_msu(half_mult(k, v.0), v.1, ONE);
    let sum = half_mac(fed_back, x, gain);
    (half_round_doubled(sum), v.0)
}

/// The values of a band's tones at the sample `x`.
#[tactic(auto, unfolding(crate::specs::Equation::next_band))]
fn next_band(k: &Factors, gain: i16, x: i16, v: Band) -> Band
    requires factors { AreAboveLeast k.now }
    requires gain { unsigned_abs gain ≤ 32767 }
    ensures { result ≡ next_band k.now gain x v }
{
    Band {
        a: next(k.a, gain, x, v.a),
        b: next(k.b, gain, x, v.b),
        c: next(k.c, gain, x, v.c),
        d: next(k.d, gain, x, v.d),
    }
}

/// The level of a tone with these newest values, in Q31.
#[tactic(auto, unfolding(crate::specs::Equation::level_of))]
fn level(k: i16, v: Values) -> i32
    ensures { result ≡ level_of k v }
{
    l_msu(l_mac(l_mult(v.0, v.0), v.1, v.1), feedback(k, v.0), v.1)
}

/// The levels of the low tones.
#[tactic(auto, unfolding(crate::specs::Equation::low_levels))]
fn levels_below(v: Band) -> Levels
    ensures { result ≡ low_levels v }
{
    Levels {
        a: level(FACTOR_697, v.a),
        b: level(FACTOR_770, v.b),
        c: level(FACTOR_852, v.c),
        d: level(FACTOR_941, v.d),
    }
}

/// The levels of the high tones.
#[tactic(auto, unfolding(crate::specs::Equation::high_levels))]
fn levels_above(v: Band) -> Levels
    ensures { result ≡ high_levels v }
{
    Levels {
        a: level(FACTOR_1209, v.a),
        b: level(FACTOR_1336, v.b),
        c: level(FACTOR_1477, v.c),
        d: level(FACTOR_1633, v.d),
    }
}

/// Runs the detector over a block; `state` has the frame so far before and after.
///
/// It is a call of its own: where the compiler knows the factors, it drops some tones' limits, and doesn't compute the tones side by side
/// any more.
#[inline(never)]
pub(crate) fn detect(
    tuning: &Tuning,
    parameters: &[i16],
    state: &mut [i16],
    input: &[i16],
    out: &mut Block,
)
    requires tuned { tuning.now ≡ tuning_of (word_at parameters.now 1) }
    requires seven { length parameters.now ≡ PARAMETERS }
    requires few { length state.old ≡ STATE_WORDS }
    requires within { length input.now ≤ BLOCK_SAMPLES }
    requires empty { out.old.items ≡ [] }
    ensures bounded { length out.new.items ≤ length input.now }
    ensures law { (p : List ℤ) (h : History) → IsTuned p → parameters.now ≡ p → state.old ≡ state_after p h
        → Ran p h input.now state.new out.new.items }
{
    let scale = tuning.scale;
    let mut frame = Frame::read(state);
    for x in input {
        frame = frame
            .with(*x, scale, &tuning.low, &tuning.high)
            .finish(parameters, out);
    }
    frame.write(state);
}
