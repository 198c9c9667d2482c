//! Companding of blocks, over plain words.
ghost use Rattle.std.specs.Prelude.{◌≡◌, ◌<◌, ◌%◌, ℕ, length, pos, FitsSigned};
ghost use Rattle.std.specs.List.{All};
ghost use Rattle.std.specs.Int.{w16, cast_unsigned};
ghost use Rattle.ialg.specs.History.{word_at};
ghost use Rattle.alg_g711.specs.Companding.{encoded, samples_of_codes};

use crate::CODES;
use crate::companding::{Law, encode};
use crate::tables::{A_SAMPLES, MU_SAMPLES};

/// How many codes are looked up in a run.
const RUN: usize = 32;

/// Writes the codes of the samples, each in the lower octet of its word.
pub(crate) fn encode_words(law: Law, samples: &[i16], codes: &mut [i16])
    requires { length codes.old ≡ length samples.now }
    ensures codes { (k : ℕ) → k < length samples.now → word_at codes.new k ≡ pos (encoded law (word_at samples.now k)) }
    ensures read { All (FitsSigned w16) samples.now }
{
    for k in 0..samples.len() {
        codes[k] = i16::from(encode(law, samples[k]));
    }
}

/// Writes the samples of the codes in the lower octets of the words, by the samples of all codes.
///
/// Runs of a fixed length go first: LLVM writes out such a run, so that no word of it costs a step of a loop. A run is cut off, so
/// that its words stand at fixed distances from where it begins, which takes less time than an index.
pub(crate) fn decode_words(table: &[i16], codes: &[i16], samples: &mut [i16])
    requires all { length table.now ≡ CODES }
    requires room { length samples.old ≡ length codes.now }
    ensures samples { (k : ℕ) → k < length codes.now
        → word_at samples.new k ≡ word_at table.now (cast_unsigned w16 (word_at codes.now k) % CODES) }
    ensures read { All (FitsSigned w16) codes.now }
{
    if codes.len() < RUN {
        look_up(table, codes, samples);
        return;
    }
    let (run, more) = codes.split_at(RUN);
    let (first, rest) = samples.split_at_mut(RUN);
    // Of a copy the compiler reads several codes at a time, since none is written between.
    let mut read = [0; RUN];
    read.copy_from_slice(run);
    look_up(table, &read, first);
    decode_words(table, more, rest);
}

/// The sample of the code in the lower octet of a word, by the samples of all codes.
#[inline]
pub(crate) fn sample_of(table: &[i16], code: i16) -> i16
    requires { length table.now ≡ CODES }
    ensures { result ≡ word_at table.now (cast_unsigned w16 code % CODES) }
{
    table[code.cast_unsigned() as usize % CODES]
}

/// Writes the samples of the codes, one after another.
#[inline]
fn look_up(table: &[i16], codes: &[i16], samples: &mut [i16])
    requires all { length table.now ≡ CODES }
    requires room { length samples.old ≡ length codes.now }
    ensures samples { (k : ℕ) → k < length codes.now
        → word_at samples.new k ≡ word_at table.now (cast_unsigned w16 (word_at codes.now k) % CODES) }
    ensures read { All (FitsSigned w16) codes.now }
{
    for k in 0..codes.len() {
        samples[k] = sample_of(table, codes[k]);
    }
}

/// The samples of all codes of a law, in the codes' order.
fn all_samples(law: Law) -> &'static [i16]
    ensures samples { result.now ≡ samples_of_codes law }
    ensures count { length result.now ≡ CODES }
{
    match law {
        Law::A => &A_SAMPLES,
        Law::Mu => &MU_SAMPLES,
    }
}

/// Writes the samples of all codes of a law, where there is room for them and no more.
pub(crate) fn write_samples(law: Law, table: &mut [i16])
    ensures { length table.old ≡ CODES → table.new ≡ samples_of_codes law }
{
    if table.len() == CODES {
        table.copy_from_slice(all_samples(law));
    }
}
