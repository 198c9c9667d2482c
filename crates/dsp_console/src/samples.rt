//! Samples as octets.
ghost use Rattle.std.specs.Prelude.{◌≡◌, ◌*◌, length};
ghost use Rattle.voice_script.specs.declared.octets.TheConstants.{WORD_OCTETS};
ghost use Rattle.voice_script.specs.declared.width.Width.TheVariants.{Octet};
ghost use Rattle.voice_script.specs.Widths.{octet_count};
ghost use Rattle.console_spec.specs.Samples.{samples_of, octets_of, samples_at, octets_at};

use byteorder::{ByteOrder, LittleEndian};
use voice_script::{WORD_OCTETS, Width};

/// Reads the samples of the octets, which a port of this width carries.
pub(crate) fn read_samples(width: Width, octets: &[u8], samples: &mut [i16])
    requires { length octets.now ≡ octet_count width (length samples.old) }
    ensures { samples.new ≡ samples_at width octets.now }
{
    match width {
        Width::Word => read_words(octets, samples),
        Width::Octet => read_octets(octets, samples),
    }
}

/// Writes the octets of the samples, as a port of this width carries them.
pub(crate) fn write_samples(width: Width, samples: &[i16], octets: &mut [u8])
    requires { length octets.old ≡ octet_count width (length samples.now) }
    ensures { octets.new ≡ octets_at width samples.now }
{
    match width {
        Width::Word => write_words(samples, octets),
        Width::Octet => write_low_octets(samples, octets),
    }
}

/// Samples from bytes, the low byte first.
fn read_words(octets: &[u8], samples: &mut [i16])
    requires { length octets.now ≡ WORD_OCTETS * length samples.old }
    ensures { samples.new ≡ samples_of octets.now }
{
    LittleEndian::read_i16_into(octets, samples);
}

/// Samples as bytes, the low byte first.
fn write_words(samples: &[i16], octets: &mut [u8])
    requires { length octets.old ≡ WORD_OCTETS * length samples.now }
    ensures { octets.new ≡ octets_of samples.now }
{
    LittleEndian::write_i16_into(samples, octets);
}

/// Each octet is a sample, 0 to 255.
fn read_octets(octets: &[u8], samples: &mut [i16])
    requires { length octets.now ≡ length samples.old }
    ensures { samples.new ≡ samples_at Octet octets.now }
{
    for k in 0..octets.len() {
        samples[k] = i16::from(octets[k]);
    }
}

/// The low eight bits of each sample.
fn write_low_octets(samples: &[i16], octets: &mut [u8])
    requires { length octets.old ≡ length samples.now }
    ensures { octets.new ≡ octets_at Octet samples.now }
{
    for k in 0..samples.len() {
        octets[k] = (samples[k].cast_unsigned() % 256) as u8;
    }
}
