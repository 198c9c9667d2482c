//! The worked rows of the FIR, and the words of its ring.
use crate::instance::Row::{Ask, Feed, Free, Get, Move, Record, RefuseSet, Reset, Set, Start};
use crate::instance::{POISON, assert_rows, record};
use alg_fir::Fir;
use ialg::{BLOCK_SAMPLES, Block, Filter};
use mem_rec::{Attr, Space, TABLE_RECORDS};

/// The bases of the object, the kept words and the ring.
const BASES: [u16; TABLE_RECORDS] = [0, 8, 16, 0];

/// The mean of two samples.
const MEAN: [i16; 2] = [16384, 16384];

#[test]
fn a_block_and_its_cuts_give_the_same(rt: HostRuntime) {
    assert_rows(
        &rt,
        Fir,
        BASES,
        &[
            Start(&MEAN),
            Record(0, &[1, 8, 16, 0]),
            Feed(&[2, 4, 6], &[1, 3, 5]),
            Start(&MEAN),
            Feed(&[2], &[1]),
            Feed(&[4, 6], &[3, 5]),
        ],
    );
}

#[test]
fn sums_are_limited_in_order(rt: HostRuntime) {
    assert_rows(
        &rt,
        Fir,
        BASES,
        &[
            Start(&[-32768]),
            Feed(&[-32768], &[32767]),
            Start(&[32767, 32767, -32768]),
            Feed(&[32767, 32767, 32767], &[32766, 32767, 1]),
        ],
    );
}

#[test]
fn controls_and_moves_between_samples(rt: HostRuntime) {
    assert_rows(
        &rt,
        Fir,
        BASES,
        &[
            Start(&MEAN),
            Feed(&[2], &[1]),
            RefuseSet(&[7]),
            Set(&[8192, 16384]),
            Move(1, 24),
            Feed(&[4], &[2]),
            Get(&[8192, 16384]),
            Reset,
            Feed(&[6], &[2]),
            Free,
        ],
    );
}

/// The samples 0, 1, 2, .. of a block.
fn different_samples() -> [i16; BLOCK_SAMPLES] {
    let mut samples = [0; BLOCK_SAMPLES];
    let mut sample: i16 = 0;
    for word in samples.iter_mut() {
        *word = sample;
        sample = sample.wrapping_add(1);
    }
    samples
}

/// How many words of a ring these samples change, after a whole block of different ones.
fn changes_by<const SAMPLES: usize>(samples: &[i16; SAMPLES]) -> usize {
    let (mut kept, mut ring) = ([POISON; 127], [POISON; 1_087]);
    Fir::start(&[1; 64], &mut kept);
    Fir::restore(&kept, &mut ring);
    let mut out = Block::new();
    Fir::run(&kept, &mut ring, &different_samples(), &mut out);
    let before = ring;
    if SAMPLES <= BLOCK_SAMPLES {
        out.clear();
        Fir::run(&kept, &mut ring, samples, &mut out);
    }
    before
        .iter()
        .zip(ring.iter())
        .filter(|(old, new)| old != new)
        .count()
}

#[test]
fn one_more_sample_changes_two_words_of_the_ring(rt: HostRuntime) {
    assert!(rt; [1, 2].contains(&changes_by(&[-7])));
}

/// The second block goes around the ring's end, so that past samples and block don't stand there in a row.
#[test]
fn a_block_around_the_rings_end_shifts_no_past_sample(rt: HostRuntime) {
    assert!(rt; [600, 601].contains(&changes_by(&[-7; 600])));
}

#[test]
fn tables_by_their_numbers(rt: HostRuntime) {
    let object = record(4, 4, Space::External, Attr::Persist);
    let kept = |size| record(size, 4, Space::Saram, Attr::Persist);
    let ring = |size| record(size, 16, Space::Daram, Attr::Scratch);
    assert_rows(
        &rt,
        Fir,
        BASES,
        &[
            Ask(&[1], &[object, kept(1), ring(1_024)]),
            Ask(&[1; 2], &[object, kept(3), ring(1_025)]),
            Ask(&[1; 64], &[object, kept(127), ring(1_087)]),
        ],
    );
}
