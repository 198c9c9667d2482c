//! Companding of blocks (ITU-T G.711).
ghost use Rattle.std.specs.Prelude.{◌≡◌, ◌≢◌, None, length};
ghost use Rattle.dsp_library.specs.Laws.{law_numbered, AreDecoded, AreEncoded, DecodesBy, EncodesBy, RefusesLengths, TakesLengths};
ghost use Rattle.dsp_library.specs.declared.TheConstants.{DONE, BAD_LAW};

use crate::{BAD_LAW, BAD_LENGTH, DONE};
use alg_g711::{Law, decode, encode};

/// The law of a number.
fn law_by(number: u32) -> Option<Law>
    ensures { result ≡ law_numbered number }
{
    match number {
        0 => Some(Law::A),
        1 => Some(Law::Mu),
        _ => None,
    }
}

/// Writes the codes of the samples.
fn encode_all(law: Law, samples: &[i16], codes: &mut [u8])
    requires { length codes.old ≡ length samples.now }
    ensures codes { AreEncoded law samples.now codes.new }
    ensures length { length codes.new ≡ length codes.old }
{
    for k in 0..samples.len() {
        codes[k] = encode(law, samples[k]);
    }
}

/// Writes the samples of the codes.
fn decode_all(law: Law, codes: &[u8], samples: &mut [i16])
    requires { length samples.old ≡ length codes.now }
    ensures samples { AreDecoded law codes.now samples.new }
    ensures length { length samples.new ≡ length samples.old }
{
    for k in 0..codes.len() {
        samples[k] = decode(law, codes[k]);
    }
}

/// Writes the code of each sample: `DONE`, or `BAD_LAW` or `BAD_LENGTH`, and then nothing is written.
#[unsafe(no_mangle)]
pub extern "C" fn rokdaum_proved_g711_encode(law: u32, samples: &[i16], codes: &mut [u8]) -> i32
    ensures bad_law { law_numbered law ≡ None → result ≡ BAD_LAW }
    ensures bad_length { RefusesLengths law result (length codes.old) (length samples.now) }
    ensures done { TakesLengths law result (length codes.old) (length samples.now) }
    ensures codes { EncodesBy law result samples.now codes.new }
    ensures refused { result ≢ DONE → codes.new ≡ codes.old }
{
    let Some(law) = law_by(law) else {
        return BAD_LAW;
    };
    if codes.len() != samples.len() {
        return BAD_LENGTH;
    }
    encode_all(law, samples, codes);
    DONE
}

/// Writes the sample of each code: `DONE`, or `BAD_LAW` or `BAD_LENGTH`, and then nothing is written.
#[unsafe(no_mangle)]
pub extern "C" fn rokdaum_proved_g711_decode(law: u32, codes: &[u8], samples: &mut [i16]) -> i32
    ensures bad_law { law_numbered law ≡ None → result ≡ BAD_LAW }
    ensures bad_length { RefusesLengths law result (length samples.old) (length codes.now) }
    ensures done { TakesLengths law result (length samples.old) (length codes.now) }
    ensures samples { DecodesBy law result codes.now samples.new }
    ensures refused { result ≢ DONE → samples.new ≡ samples.old }
{
    let Some(law) = law_by(law) else {
        return BAD_LAW;
    };
    if samples.len() != codes.len() {
        return BAD_LENGTH;
    }
    decode_all(law, codes, samples);
    DONE
}
