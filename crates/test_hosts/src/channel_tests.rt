//! Channels of trial kinds, by numbers.

use crate::channel_calls::Call::{Chain, Create, Feed, FeedSample, Release, Stat};
use crate::channel_calls::make;
use crate::cut_feeds::feed_in_two;
use host_map::Sizes;
use ialg::Block;
use std::alloc::Global;
use std::process::Abort;
use test_doubles::{Or, SCRIBBLER, Trial};
use voice_channel::{CHANNELS, Channels, Host};
use voice_set::Voice;

const FIR: Trial = Trial {
    kind: Or::First(Voice::Fir),
};

const DECIM: Trial = Trial {
    kind: Or::First(Voice::Decim),
};

const G711: Trial = Trial {
    kind: Or::First(Voice::G711),
};

// The mean of a sample and the one before it.
const MEAN: [i16; 2] = [16_384, 16_384];

// A decimator by 2, of such means.
const BY_TWO: [i16; 3] = [2, 16_384, 16_384];

/// So many new channels, over a host of so many words of `daram`.
fn channels(
    rt: &impl Abort,
    alloc: Global,
    daram: u32,
    poison: Option<i16>,
    count: u8,
) -> Channels<Trial> {
    let sizes = Sizes {
        daram,
        saram: 1_024,
        external: 1_024,
    };
    let host = Host::new(alloc, sizes, poison).expect(rt, "memory");
    assert!(rt; 1 <= count && usize::from(count) <= CHANNELS);
    Channels::new(host, count)
}

/// An active decoder tells what a code gives, and nobody else does: not an idle one, nor an encoder, a filter, or one of two members.
#[test]
fn an_active_decoder_tells_what_a_code_gives(rt: HostRuntime) {
    let calls = [
        Create(0, G711, 0, &[1, 1], Ok(())),
        Create(1, G711, 1, &[1, 0], Ok(())),
        Create(2, FIR, 2, &MEAN, Ok(())),
        Create(3, G711, 0, &[1, 1], Ok(())),
        Create(4, G711, 3, &[0, 1], Ok(())),
        Chain(0, &[0], Ok(())),
        Chain(1, &[1], Ok(())),
        Chain(2, &[2], Ok(())),
        Chain(3, &[3, 4], Ok(())),
        FeedSample(0, 0, None, &[-32_124]),
        FeedSample(0, 0, Some(-32_124), &[]),
        FeedSample(0, 0x0180, Some(32_124), &[]),
        FeedSample(0, -1, Some(0), &[]),
        Stat(0, Ok((Some(0), 1))),
        FeedSample(1, 0, None, &[255]),
        FeedSample(1, 0, None, &[255]),
        FeedSample(2, 2, None, &[1]),
        FeedSample(2, 2, None, &[2]),
        FeedSample(3, 255, None, &[-5_504]),
        FeedSample(3, 255, None, &[-5_504]),
        FeedSample(0, 0, None, &[-32_124]),
        FeedSample(0, 0, Some(-32_124), &[]),
        Stat(0, Ok((Some(0), 3))),
        Release(0, Ok(true)),
        FeedSample(0, 0, None, &[-32_124]),
    ];
    let mut channels = channels(&rt, rt.alloc(), 1_028, None, 5);
    make(&rt, &mut channels, &calls);
    channels.close();
}

#[test]
fn a_scribbler_between_two_filters_spoils_neither(rt: HostRuntime) {
    let calls = [
        Create(0, FIR, 0, &MEAN, Ok(())),
        Create(1, SCRIBBLER, 0, &[0, 1_028, 16], Ok(())),
        Create(2, FIR, 0, &MEAN, Ok(())),
        Chain(0, &[0, 1, 2], Ok(())),
        Feed(0, &[4], &[1]),
        Feed(0, &[8], &[4]),
        Stat(0, Ok((Some(2), 6))),
    ];
    for poison in [None, Some(0), Some(21_845), Some(-1)] {
        let mut channels = channels(&rt, rt.alloc(), 1_028, poison, 1);
        make(&rt, &mut channels, &calls);
        channels.close();
    }
}

#[test]
fn a_cut_does_not_show(rt: HostRuntime) {
    let mut channels = channels(&rt, rt.alloc(), 4_096, None, 2);
    let calls = [
        Create(0, DECIM, 0, &BY_TWO, Ok(())),
        Create(1, FIR, 0, &MEAN, Ok(())),
        Create(2, DECIM, 0, &BY_TWO, Ok(())),
        Create(3, FIR, 0, &MEAN, Ok(())),
        Chain(0, &[0, 1], Ok(())),
        Chain(1, &[2, 3], Ok(())),
        Feed(0, &[2, 4, 6, 8, 10], &[2, 5]),
    ];
    make(&rt, &mut channels, &calls);
    let mut early = Block::new();
    let mut late = Block::new();
    assert!(rt; channels.ready(1).is_ok());
    feed_in_two(
        &mut channels,
        1,
        &[2],
        &[4, 6, 8, 10],
        &mut early,
        &mut late,
    );
    assert!(rt; early.is_empty() && late.as_slice() == [2, 5].as_slice());
    channels.close();
}
