//! The worked rows of the decimator, and its outputs beside the filter's.
use crate::instance::Row::{Ask, Feed, Free, Get, Move, Record, Reset, Start};
use crate::instance::{Instance, assert_rows, record};
use alg_fir::{Decim, Fir};
use ialg::{BLOCK_SAMPLES, Block, Filter};
use mem_rec::{Attr, Space, TABLE_RECORDS};
use std::process::Abort;

/// The bases of the object, the kept words, the constants and the ring.
const BASES: [u16; TABLE_RECORDS] = [0, 8, 24, 16];

/// Each second mean of two samples.
const HALVER: [i16; 3] = [2, 16384, 16384];

#[test]
fn each_second_output_is_given(rt: HostRuntime) {
    assert_rows(
        &rt,
        Decim,
        BASES,
        &[
            Start(&HALVER),
            Record(0, &[2, 8, 24, 16]),
            Record(2, &HALVER),
            Feed(&[2, 4, 6], &[3]),
            Get(&[1]),
            Feed(&[8], &[7]),
        ],
    );
}

#[test]
fn a_reset_clears_the_phase(rt: HostRuntime) {
    assert_rows(
        &rt,
        Decim,
        BASES,
        &[
            Start(&HALVER),
            Feed(&[2, 4, 6], &[3]),
            Reset,
            Feed(&[10], &[]),
            Feed(&[4], &[7]),
        ],
    );
}

#[test]
fn moved_and_freed(rt: HostRuntime) {
    assert_rows(
        &rt,
        Decim,
        BASES,
        &[
            Start(&[1, 16384, 16384]),
            Feed(&[2, 4], &[1, 3]),
            Move(2, 40),
            Record(0, &[2, 8, 40, 16]),
            Feed(&[6], &[5]),
            Free,
        ],
    );
}

/// The parameters of a decimator by `factor`, of 64 coefficients whose sums saturate over loud samples.
fn loud_parameters(factor: i16) -> [i16; 65] {
    let mut p = [0; 65];
    let mut value: i16 = 12345;
    for word in p.iter_mut() {
        *word = value;
        value = value.wrapping_mul(25173).wrapping_add(13849);
    }
    p[0] = factor;
    p
}

/// Loud samples, each different from the one before.
fn loud_samples() -> [i16; BLOCK_SAMPLES] {
    let mut samples = [0; BLOCK_SAMPLES];
    let mut value: i16 = 1;
    for word in samples.iter_mut() {
        *word = value;
        value = value.wrapping_mul(17).wrapping_add(12007);
    }
    samples
}

/// Each of the outputs that is the `factor`-th one behind the last of these; `number` have come since that.
fn thinned(outputs: &[i16], factor: i16, number: &mut i16) -> Block {
    let mut block = Block::new();
    for value in outputs {
        *number = number.wrapping_add(1);
        if *number == factor && block.len() < BLOCK_SAMPLES {
            block.push(*value);
            *number = 0;
        }
    }
    block
}

/// Feeds blocks of several sizes to a decimator by `factor` and to the filter, and compares the outputs.
fn assert_thinned(rt: &impl Abort, factor: i16) {
    let (p, samples) = (loud_parameters(factor), loud_samples());
    let mut decimator = Instance::new(Decim, BASES);
    assert!(rt; decimator.holds(rt, Start(&p)));
    let (mut kept, mut ring) = ([0; 127], [0; 1_087]);
    Fir::start(&p[1..], &mut kept);
    Fir::restore(&kept, &mut ring);
    let mut number = 0;
    for count in [1_024, 100, 7, 1, 255, 1_024, 64] {
        let input = &samples[..BLOCK_SAMPLES.min(count)];
        let mut outputs = Block::new();
        Fir::run(&kept, &mut ring, input, &mut outputs);
        let wanted = thinned(outputs.as_slice(), factor, &mut number);
        assert!(rt; outputs.len() == count && decimator.holds(rt, Feed(input, wanted.as_slice())));
    }
}

#[test]
fn the_outputs_are_each_mth_of_the_filter(rt: HostRuntime) {
    for factor in [1, 3, 16] {
        assert_thinned(&rt, factor);
    }
}

#[test]
fn decimator_tables_by_their_numbers(rt: HostRuntime) {
    let object = record(4, 4, Space::External, Attr::Persist);
    let kept = |size| record(size, 4, Space::Saram, Attr::Persist);
    let constants = |size| record(size, 8, Space::External, Attr::WriteOnce);
    let ring = |size| record(size, 16, Space::Daram, Attr::Scratch);
    assert_rows(
        &rt,
        Decim,
        BASES,
        &[
            Ask(&[1; 2], &[object, kept(1), constants(2), ring(1_024)]),
            Ask(&[1; 3], &[object, kept(2), constants(3), ring(1_025)]),
            Ask(&[1; 65], &[object, kept(64), constants(65), ring(1_087)]),
        ],
    );
}
