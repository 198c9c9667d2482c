//! Scripts over two pairs of ports, with all that they write in its order.
use dsp_console::{Fault, Sizes, Summary};

/// What a run uses.
#[derive(Clone, Copy, PartialEq)]
pub(crate) enum Port {
    Script,
    FirstInput,
    SecondInput,
    FirstOutput,
    SecondOutput,
    Replies,
}

impl Port {
    /// How a run ends where it fails.
    pub(crate) fn fault(self) -> Fault {
        match self {
            Port::Script | Port::FirstInput | Port::SecondInput => Fault::Read,
            Port::FirstOutput | Port::SecondOutput | Port::Replies => Fault::Write,
        }
    }
}

pub(crate) const PORTS: [Port; 6] = [
    Port::Script,
    Port::FirstInput,
    Port::SecondInput,
    Port::FirstOutput,
    Port::SecondOutput,
    Port::Replies,
];

/// A script, the octets of its inputs, what it writes, which is all octets of all ports in their one order, and how it ends.
#[derive(Drop)]
pub(crate) struct Row {
    pub(crate) sizes: Sizes,
    pub(crate) script: &'static [u8],
    pub(crate) inputs: [&'static [u8]; 2],
    pub(crate) written: &'static [(Port, &'static [u8])],
    pub(crate) summary: Summary,
}

/// One filter, fed once.
pub(crate) const ONE_FEED: Row = Row {
    sizes: Sizes {
        daram: 65_536,
        saram: 65_536,
        external: 65_536,
    },
    script: b"create 0 fir 0 16384\nchain 0 0\nfeed 0 2\n",
    inputs: [b"\x01\x00\xff\xff", b""],
    written: &[
        (Port::Replies, b"ok\nok\n"),
        (Port::FirstOutput, b"\x01\x00\x00\x00"),
        (Port::Replies, b"ok 2\n"),
    ],
    summary: Summary { refused: 0 },
};

/// Two filters of one group by turns, each fed by its own channel, in a space that has room for one scratch block.
pub(crate) const BY_TURNS: Row = Row {
    sizes: Sizes {
        daram: 1_028,
        saram: 65_536,
        external: 65_536,
    },
    script: b"create 0 fir 0 16384 16384\ncreate 1 fir 0 16384 16384\nchain 0 0\nchain 1 1\nfeed 0 1\nfeed 1 1\nfeed 0 1\nfeed 1 1\nstat 0\nmap daram\nrelease 0\nrelease 0\nstat 0\n",
    inputs: [b"\x02\x00\x04\x00", b"\x0a\x00\x14\x00"],
    written: &[
        (Port::Replies, b"ok\nok\nok\nok\n"),
        (Port::FirstOutput, b"\x01\x00"),
        (Port::Replies, b"ok 1\n"),
        (Port::SecondOutput, b"\x05\x00"),
        (Port::Replies, b"ok 1\n"),
        (Port::FirstOutput, b"\x03\x00"),
        (Port::Replies, b"ok 1\n"),
        (Port::SecondOutput, b"\x0f\x00"),
        (
            Port::Replies,
            b"ok 1\nok 1 4\nok g0@0+1028\nok 1\nok 0\nok - 4\n",
        ),
    ],
    summary: Summary { refused: 0 },
};

/// A scratch block is replaced by a greater one, and then slides down with what it holds: the member that is active stays so.
pub(crate) const A_SLIDE: Row = Row {
    sizes: Sizes {
        daram: 2_072,
        saram: 65_536,
        external: 65_536,
    },
    script: b"create 0 fir 0 16384 16384\nchain 0 0\nfeed 0 1\ncreate 1 fir 0 1 0 0 0 0 0 0 0 0\nmap daram\nfeed 0 1\nstat 0\ncompact daram\nmap daram\nfeed 0 1\nstat 0\nchain 1 1\nfeed 1 1\n",
    inputs: [b"\x02\x00\x04\x00\x06\x00", b"\x00\x80"],
    written: &[
        (Port::Replies, b"ok\nok\n"),
        (Port::FirstOutput, b"\x01\x00"),
        (Port::Replies, b"ok 1\nok\nok g0@1040+1032\n"),
        (Port::FirstOutput, b"\x03\x00"),
        (Port::Replies, b"ok 1\nok 0 2\nok 1\nok g0@0+1032\n"),
        (Port::FirstOutput, b"\x05\x00"),
        (Port::Replies, b"ok 1\nok 0 2\nok\n"),
        (Port::SecondOutput, b"\xff\xff"),
        (Port::Replies, b"ok 1\n"),
    ],
    summary: Summary { refused: 0 },
};

/// Refused lines before and behind a feed, the last one for want of samples.
pub(crate) const REFUSED_LINES: Row = Row {
    sizes: Sizes {
        daram: 65_536,
        saram: 65_536,
        external: 65_536,
    },
    script: b"create 0 fir 0 16384\nflute\nchain 0 0\nfeed 0 2\nunchain 0\nchain 1 0\nfeed 1 9\n",
    inputs: [b"\x01\x00\xff\xff", b"\x0a\x00\x14"],
    written: &[
        (Port::Replies, b"ok\nno 2 syntax\nok\n"),
        (Port::FirstOutput, b"\x01\x00\x00\x00"),
        (Port::Replies, b"ok 2\nok\nok\nno 10 short\n"),
    ],
    summary: Summary { refused: 2 },
};
