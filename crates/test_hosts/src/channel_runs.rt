//! Two runs in which a decimator and a filter are given the same: over hosts of other sizes and poison words, under other numbers, in
//! another channel, beside a kind that keeps no law in their group, and with their samples cut otherwise.

use crate::channel_calls::Call::{Chain, Create, Feed};
use crate::channel_calls::make;
use crate::two_channels::feed_both;
use host_map::Sizes;
use std::process::Abort;
use test_doubles::{Or, SCRIBBLER, Trial};
use voice_channel::{Channels, Host};
use voice_set::Voice;

const FIR: Trial = Trial {
    kind: Or::First(Voice::Fir),
};

const DECIM: Trial = Trial {
    kind: Or::First(Voice::Decim),
};

// A decimator by 2, and the mean of a sample and the one before it.
const BY_TWO: [i16; 3] = [2, 16_384, 16_384];

const MEAN: [i16; 2] = [16_384, 16_384];

/// A host of these sizes, with external memory for all.
fn sizes(daram: u32, saram: u32) -> Sizes {
    Sizes {
        daram,
        saram,
        external: 2_048,
    }
}

/// The decimator and the filter, numbered in their order, in a channel of their own.
fn channel_alone<R: Abort + AllocGlobal>(rt: &R) -> Channels<Trial> {
    let host = Host::new(rt.alloc(), sizes(4_096, 1_024), None).expect(rt, "memory");
    let mut channels = Channels::new(host, 1);
    let calls = [
        Create(0, DECIM, 0, &BY_TWO, Ok(())),
        Create(1, FIR, 0, &MEAN, Ok(())),
        Chain(0, &[0, 1], Ok(())),
    ];
    make(rt, &mut channels, &calls);
    channels
}

/// The same as 5 and 7 in channel 3 of a host with a poison word, beside a kind in their group that keeps no law.
fn channel_beside_a_scribbler<R: Abort + AllocGlobal>(rt: &R) -> Channels<Trial> {
    let host = Host::new(rt.alloc(), sizes(2_048, 512), Some(-1)).expect(rt, "memory");
    let mut channels = Channels::new(host, 4);
    let calls = [
        Create(9, SCRIBBLER, 0, &[0, 1_028, 16], Ok(())),
        Create(7, FIR, 0, &MEAN, Ok(())),
        Create(5, DECIM, 0, &BY_TWO, Ok(())),
        Chain(3, &[5, 7], Ok(())),
        Chain(0, &[9], Ok(())),
        Feed(0, &[30, -30], &[30, -30]),
    ];
    make(rt, &mut channels, &calls);
    channels
}

#[test]
fn channels_that_are_given_the_same_agree(rt: HostRuntime) {
    let mut one = channel_alone(&rt);
    let mut other = channel_beside_a_scribbler(&rt);
    assert!(rt; one.ready(0).is_ok() && other.ready(3).is_ok());
    let outputs = feed_both(
        &mut one,
        0,
        &[2],
        &[4, 6, 8, 10],
        &mut other,
        3,
        &[2, 4, 6, 8, 10],
    );
    let given = [&outputs.early, &outputs.late, &outputs.whole].map(|block| block.as_slice());
    assert!(rt; given == [[].as_slice(), &[2, 5], &[2, 5]]);
    one.close();
    other.close();
}
