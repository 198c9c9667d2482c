//! Lines and replies, with what they have to give written by hand.
ghost use Rattle.std.specs.Prelude.{option_map};
ghost use Rattle.voice_script.specs.Rows.{low_or_high};

use ialg::{Named, Params, Refusal};
use std::process::Abort;
use voice_script::{Command, FEED_SAMPLES, Reply, parse, reply_text};

/// A kind: `low` or `high`.
#[derive(Clone, Copy)]
struct Pitch(u8);

impl Named for Pitch {
    ghost named = { λ name. option_map (λ n. record { 0 = n }) (low_or_high name) };

    fn of_name(name: &[u8]) -> Option<Pitch> {
        if name == b"low".as_slice() {
            Some(Pitch(1))
        } else if name == b"high".as_slice() {
            Some(Pitch(2))
        } else {
            None
        }
    }
}

#[test]
fn parses_a_creation(rt: HostRuntime) {
    let mut room = Params::new();
    let is_creation = match parse(b"\tcreate  3 high 4 00005 -32768 \r", &mut room) {
        Ok(
            Some(
                Command::Create {
                    instance: 3,
                    kind: Pitch(2),
                    group: 4,
                    parameters,
                },
            ),
        ) => parameters.as_slice() == [5, -32_768].as_slice(),
        _ => false,
    };
    assert!(rt; is_creation);
}

#[test]
fn parses_a_chain(rt: HostRuntime) {
    let mut room = Params::new();
    let is_chain = match parse::<Pitch>(b"chain 7 255 0", &mut room) {
        Ok(
            Some(
                Command::Chain {
                    channel: 7,
                    members,
                },
            ),
        ) => members.as_slice() == [255, 0].as_slice(),
        _ => false,
    };
    assert!(rt; is_chain);
}

#[test]
fn parses_a_feed(rt: HostRuntime) {
    let mut room = Params::new();
    let is_feed = match parse::<Pitch>(b"feed -0 1024", &mut room) {
        Ok(
            Some(
                Command::Feed {
                    channel: 0,
                    samples,
                },
            ),
        ) => samples.number() == FEED_SAMPLES,
        _ => false,
    };
    assert!(rt; is_feed);
}

#[test]
fn tells_each_reply(rt: HostRuntime) {
    for (reply, text, is_refusal) in &[
        (Reply::Done, b"ok\n".as_slice(), false),
        (Reply::Count(0), b"ok 0\n", false),
        (Reply::Count(1), b"ok 1\n", false),
        (Reply::Count(u32::MAX), b"ok 4294967295\n", false),
        (Reply::No(Refusal::Long), b"no 1 long\n", true),
        (Reply::No(Refusal::Short), b"no 10 short\n", true),
        (Reply::Flag(true), b"ok 1\n", false),
        (Reply::Flag(false), b"ok 0\n", false),
    ] {
        assert!(rt; reply_text(reply).as_slice() == *text && reply.is_refusal() == *is_refusal);
    }
}
