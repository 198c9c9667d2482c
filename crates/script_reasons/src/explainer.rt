//! Why lines were refused, said on the standard error while they are read and replied to.
use crate::reasons::Reason;
use crate::shown::Shown;
use crate::unanswered::Unanswered;
use arrayvec::ArrayVec;
use octet_ports::LINE_FEED;

/// The most octets of a reply that are kept: no refusal has more.
const KEPT_OCTETS: usize = 16;

/// Tells of each refused line why. It sees what is read of SCRIPT and what is replied.
#[derive(Drop)]
pub struct Explainer<'e, R> {
    rt: &'e R,
    /// The path of SCRIPT.
    script: &'e str,
    channels: u8,
    lines: Unanswered,
    /// The first octets of the reply that isn't whole yet.
    reply: ArrayVec<u8, KEPT_OCTETS>,
}

impl<'e, R: Eprint> Explainer<'e, R> {
    /// Nothing was read and replied yet of the script at this path, over so many channels.
    pub fn new(rt: &'e R, script: &'e str, channels: u8) -> Self {
        Explainer {
            rt,
            script,
            channels,
            lines: Unanswered::new(),
            reply: ArrayVec::new(),
        }
    }

    /// Takes octets of SCRIPT that were read.
    pub fn read(&mut self, octets: &[u8]) {
        self.lines.read(octets);
    }

    /// Takes octets of the replies that were put.
    pub fn put(&mut self, octets: &[u8]) {
        for octet in octets {
            if *octet == LINE_FEED {
                self.end_reply();
            } else {
                let _fits = self.reply.try_push(*octet);
            }
        }
    }

    /// Tells why the line of the reply was refused, if it was.
    fn end_reply(&mut self) {
        let reply = self.reply.as_slice();
        if let Some(line) = self.lines.next()
            && let Some(reason) = Reason::of(line.octets, reply, self.channels)
        {
            let (number, text, reply) = (line.number, Shown(line.octets), Shown(reply));
            let _ = eprintln!(self.rt; "{}:{number}: {text}: {reply}: {reason}", self.script);
        }
        self.reply.clear();
    }
}
