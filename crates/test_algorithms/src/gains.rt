//! The worked rows of gains.
use crate::instance::Row::{Ask, Feed, Get, Refuse, RefuseSet, Set, Start};
use crate::instance::{Row, assert_rows, filter_records};
use alg_gain::Gain;
use mem_rec::TABLE_RECORDS;
use std::process::Abort;

/// The bases of the object, the kept words and the running words.
const BASES: [u16; TABLE_RECORDS] = [0, 4, 8, 0];

/// Asserts the rows of an amplifier.
fn assert_gains(rt: &impl Abort, rows: &[Row<'_>]) {
    assert_rows(rt, Gain::new(), BASES, rows);
}

#[test]
fn samples_are_rounded_and_limited(rt: HostRuntime) {
    assert_gains(
        &rt,
        &[
            // 1.0
            Start(&[4096]),
            Feed(&[1000, -32768, 32767], &[1000, -32768, 32767]),
            // 1.5: half of an odd sample is rounded upwards
            Start(&[6144]),
            Feed(&[1, -1, 3, 30000], &[2, -1, 5, 32767]),
            // -8.0
            Start(&[-32768]),
            Feed(&[1, 4096, -4096, -32768], &[-8, -32768, 32767, 32767]),
            // 1 / 4096
            Start(&[1]),
            Feed(&[2047, 2048, -2048, -2049], &[0, 1, 0, -1]),
        ],
    );
}

#[test]
fn a_set_is_in_force_from_the_next_sample(rt: HostRuntime) {
    assert_gains(
        &rt,
        &[
            Start(&[4096]),
            Feed(&[100, 100], &[100, 100]),
            RefuseSet(&[1, 2]),
            Set(&[8192]),
            Feed(&[100], &[200]),
            Get(&[8192]),
        ],
    );
}

#[test]
fn the_parameter_is_one_word(rt: HostRuntime) {
    let records = filter_records(1, 1);
    assert_gains(
        &rt,
        &[Refuse(&[]), Ask(&[4096], &records), Refuse(&[4096, 0])],
    );
}
