//! Octets of a script, for a terminal.
use std::fmt::{self, Display, Formatter};

/// The most octets of a line that are shown.
const SHOWN_OCTETS: usize = 72;

/// Octets of which each that isn't a printing character of ASCII is written as `\xHH`, and of which no more than a line of a terminal is
/// written.
#[derive(Clone, Copy)]
pub struct Shown<'a>(pub &'a [u8]);

impl Display for Shown<'_> {
    fn fmt<W: fmt::Write>(&self, f: &mut Formatter<W>) -> fmt::Result {
        let octets = self.0;
        let count = octets.len().min(SHOWN_OCTETS);
        for octet in &octets[..count] {
            if (b' '..=b'~').contains(octet) {
                f.write_char(char::from(*octet))?;
            } else {
                write!(f, "\\x{octet:02x}")?;
            }
        }
        if count < octets.len() {
            f.write_str("..")?;
        }
        Ok(())
    }
}
