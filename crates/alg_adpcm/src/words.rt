//! A coder's state as words.
ghost use Rattle.std.specs.Prelude.{◌≡◌, length};
ghost use Rattle.alg_adpcm.specs.Words.{pole_words, scale_words, words_of, zero_words};

use crate::STATE_WORDS;
use adpcm_kernel::{Poles, Scale, State, Zeros};
use basic_op::{extract_h, extract_l};
use kind_parts::join;

/// The words of the zeros.
const ZERO_WORDS: usize = 12;

/// The words of the poles.
const POLE_WORDS: usize = 7;

/// The words of the scale factor.
const SCALE_WORDS: usize = 6;

/// Writes the zeros into the words.
fn write_zeros(z: &Zeros, words: &mut [i16])
    requires { length words.old ≡ ZERO_WORDS }
    ensures { words.new ≡ zero_words z.now }
{
    words.copy_from_slice(&[
        z.b1, z.b2, z.b3, z.b4, z.b5, z.b6, z.dq1, z.dq2, z.dq3, z.dq4, z.dq5, z.dq6,
    ]);
}

/// Writes the poles into the words.
fn write_poles(p: &Poles, words: &mut [i16])
    requires { length words.old ≡ POLE_WORDS }
    ensures { words.new ≡ pole_words p.now }
{
    words.copy_from_slice(&[p.a1, p.a2, p.sr1, p.sr2, p.pk1, p.pk2, p.td]);
}

/// Writes the scale factor into the words.
fn write_scale(s: &Scale, words: &mut [i16])
    requires { length words.old ≡ SCALE_WORDS }
    ensures { words.new ≡ scale_words s.now }
{
    words.copy_from_slice(&[s.yu, extract_h(s.yl), extract_l(s.yl), s.dms, s.dml, s.ap]);
}

/// Writes the state into the words.
pub(crate) fn write(s: &State, words: &mut [i16])
    requires { length words.old ≡ STATE_WORDS }
    ensures { words.new ≡ words_of s.now }
{
    let (zeros, others) = words.split_at_mut(ZERO_WORDS);
    let (poles, scale) = others.split_at_mut(POLE_WORDS);
    write_zeros(&s.zeros, zeros);
    write_poles(&s.poles, poles);
    write_scale(&s.scale, scale);
}

/// The zeros that these words have.
fn read_zeros(words: &[i16]) -> Zeros
    requires { length words.now ≡ ZERO_WORDS }
    ensures { (z : Zeros) → words.now ≡ zero_words z → result ≡ z }
{
    Zeros {
        b1: words[0],
        b2: words[1],
        b3: words[2],
        b4: words[3],
        b5: words[4],
        b6: words[5],
        dq1: words[6],
        dq2: words[7],
        dq3: words[8],
        dq4: words[9],
        dq5: words[10],
        dq6: words[11],
    }
}

/// The poles that these words have.
fn read_poles(words: &[i16]) -> Poles
    requires { length words.now ≡ POLE_WORDS }
    ensures { (p : Poles) → words.now ≡ pole_words p → result ≡ p }
{
    Poles {
        a1: words[0],
        a2: words[1],
        sr1: words[2],
        sr2: words[3],
        pk1: words[4],
        pk2: words[5],
        td: words[6],
    }
}

/// The scale factor that these words have.
fn read_scale(words: &[i16]) -> Scale
    requires { length words.now ≡ SCALE_WORDS }
    ensures { (s : Scale) → words.now ≡ scale_words s → result ≡ s }
{
    Scale {
        yu: words[0],
        yl: join(words[1], words[2]),
        dms: words[3],
        dml: words[4],
        ap: words[5],
    }
}

/// The state that these words have.
pub(crate) fn read(words: &[i16]) -> State
    requires { length words.now ≡ STATE_WORDS }
    ensures { (s : State) → words.now ≡ words_of s → result ≡ s }
{
    let (zeros, others) = words.split_at(ZERO_WORDS);
    let (poles, scale) = others.split_at(POLE_WORDS);
    State {
        zeros: read_zeros(zeros),
        poles: read_poles(poles),
        scale: read_scale(scale),
    }
}
