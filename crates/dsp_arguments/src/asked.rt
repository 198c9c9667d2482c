//! What a command line asks of the program.
use arrayvec::ArrayVec;
use clap::Error;
use host_map::Sizes;
use port_files::PORT_PAIRS;

/// What a command line asks: the paths of the script and of the ports, and the options.
#[derive(Drop)]
pub struct Arguments<'a> {
    pub script: &'a str,
    /// In words of 16 bits, as they are given, whether a space can have so many or not.
    pub sizes: Sizes,
    /// What new and resting memory is filled with, if with anything.
    pub poison: Option<i16>,
    /// Whose inputs are octet ports: the bit of each such channel is set.
    pub in8: u16,
    /// Whose outputs are octet ports.
    pub out8: u16,
    /// Whether the standard error is told why a line was refused or a file failed.
    pub explain: bool,
    /// Each channel's input and output, from channel 0.
    pub ports: ArrayVec<(&'a str, &'a str), PORT_PAIRS>,
}

/// A program, as its help and its version have it.
#[derive(Clone, Copy, PartialEq, Eq, Debug)]
pub struct About {
    /// What the program is called.
    pub name: &'static str,
    /// How it is called with its arguments.
    pub usage: &'static str,
    /// What it does, with its kinds.
    pub about: &'static str,
}

/// The console over the five kinds.
pub const CONSOLE: About = About {
    name: "dsp_console",
    usage: "dsp_console [OPTIONS] <SCRIPT> <IN OUT> [IN OUT]...",
    about: "Serves a script of commands over files of 16-bit samples, by instances of the kinds fir, decim, biquad, tone and g711.",
};

/// Why a command line isn't taken.
#[derive(Debug, Drop)]
pub enum ArgFault {
    /// `clap` has refused it, shows its help, or found no memory.
    Clap(Error),
    /// The ports aren't in pairs, or there are too few or too many.
    Ports,
}
