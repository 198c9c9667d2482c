//! How ports carry samples.
ghost use Rattle.std.specs.Prelude.{◌≡◌, ◌≤◌};
ghost use Rattle.ialg.specs.declared.TheConstants.{BLOCK_SAMPLES};
ghost use Rattle.voice_script.specs.declared.octets.TheConstants.{BLOCK_OCTETS};
ghost use Rattle.voice_script.specs.Widths.{octet_count, width_at, widths_in, widths_of};

use crate::octets::WORD_OCTETS;

/// What a port carries a sample as.
#[derive(Clone, Copy, PartialEq, Eq)]
pub enum Width {
    /// Two octets, the low one first.
    Word,
    /// One octet, the low eight bits.
    Octet,
}

impl Width {
    /// The octets of so many samples.
    pub fn octets_of(self, samples: usize) -> usize
        requires few { samples ≤ BLOCK_SAMPLES }
        ensures count { result ≡ octet_count self samples }
        ensures bounded { result ≤ BLOCK_OCTETS }
    {
        match self {
            Width::Word => WORD_OCTETS * samples,
            Width::Octet => samples,
        }
    }
}

/// The widths of the ports of each channel.
#[derive(Clone, Copy, PartialEq, Eq)]
pub struct PortWidths {
    in8: u16,
    out8: u16,
}

impl PortWidths {
    /// The input of channel c carries octets where bit c of `in8` is set, its output where bit c of `out8` is, and else words.
    pub fn of_masks(in8: u16, out8: u16) -> PortWidths
        ensures { widths_in result ≡ widths_of in8 out8 }
    {
        PortWidths { in8, out8 }
    }

    /// What the channel's input carries a sample as.
    pub fn input(&self, channel: u8) -> Width
        ensures { result ≡ (widths_in self.now).input channel }
    {
        width_by(self.in8, channel)
    }

    /// What the channel's output carries a sample as.
    pub fn output(&self, channel: u8) -> Width
        ensures { result ≡ (widths_in self.now).output channel }
    {
        width_by(self.out8, channel)
    }
}

/// The width that a mask gives the channel's port. A mask has no bits for channels of 16 and more.
fn width_by(mask: u16, channel: u8) -> Width
    ensures { result ≡ width_at mask channel }
{
    if u32::from(channel) < u16::BITS && (mask >> channel) % 2 == 1 {
        Width::Octet
    } else {
        Width::Word
    }
}
