//! The worked rows of the biquad.
use crate::instance::Row::{Ask, Feed, Get, Reset, Set, Start};
use crate::instance::{assert_rows, record};
use alg_biquad::{Biquad, COEFFICIENTS};
use mem_rec::{Attr, Space, TABLE_RECORDS};

/// The bases of the object, the kept words and the running words.
const BASES: [u16; TABLE_RECORDS] = [0, 8, 16, 0];

/// Each output is halved and fed back.
const HALVING: [i16; COEFFICIENTS] = [16384, 0, 0, -8192, 0];

#[test]
fn outputs_are_fed_back(rt: HostRuntime) {
    assert_rows(
        &rt,
        Biquad,
        BASES,
        &[
            Start(&HALVING),
            Feed(&[100, 0, 0, 0], &[100, 50, 25, 13]),
            Start(&HALVING),
            Feed(&[100, 0], &[100, 50]),
            Feed(&[0, 0], &[25, 13]),
        ],
    );
}

#[test]
fn each_coefficient_has_its_place(rt: HostRuntime) {
    assert_rows(
        &rt,
        Biquad,
        BASES,
        &[
            Start(&[0, 16384, 8192, 0, -8192]),
            Feed(&[100, 0, 0, 0, 0], &[0, 100, 50, 50, 25]),
        ],
    );
}

#[test]
fn outputs_are_rounded_and_limited(rt: HostRuntime) {
    assert_rows(
        &rt,
        Biquad,
        BASES,
        &[
            Start(&HALVING),
            Feed(&[-100, 0, 0, 0], &[-100, -50, -25, -12]),
            Start(&[32767, 0, 0, 0, 0]),
            Feed(&[32767, -32768], &[32767, -32768]),
        ],
    );
}

#[test]
fn a_reset_forgets_samples_and_outputs(rt: HostRuntime) {
    assert_rows(
        &rt,
        Biquad,
        BASES,
        &[
            Start(&HALVING),
            Feed(&[100, 0], &[100, 50]),
            Reset,
            Feed(&[0, 64], &[0, 64]),
            Get(&HALVING),
        ],
    );
}

#[test]
fn a_set_keeps_samples_and_outputs(rt: HostRuntime) {
    assert_rows(
        &rt,
        Biquad,
        BASES,
        &[
            Start(&[8192, 0, 0, 0, 0]),
            Feed(&[100, 40], &[50, 20]),
            Set(&[0, 8192, 16384, -8192, -16384]),
            // 40 / 2 + 100 + 20 / 2 + 50
            Feed(&[0], &[180]),
            Get(&[0, 8192, 16384, -8192, -16384]),
        ],
    );
}

#[test]
fn the_table_by_its_numbers(rt: HostRuntime) {
    let records = [
        record(4, 4, Space::External, Attr::Persist),
        record(9, 4, Space::Saram, Attr::Persist),
        record(4, 4, Space::Daram, Attr::Scratch),
    ];
    assert_rows(&rt, Biquad, BASES, &[Ask(&[0; 5], &records)]);
}
