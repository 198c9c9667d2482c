//! The worked rows of the tone detector.
use crate::instance::Row::{Ask, Feed, Get, Reset, Set, Start};
use crate::instance::{assert_rows, record};
use alg_tone::{PARAMETERS, Tone};
use mem_rec::{Attr, Space, TABLE_RECORDS};

/// The bases of the object, the kept words and the running words.
const BASES: [u16; TABLE_RECORDS] = [0, 8, 16, 0];

/// Frames of four samples, with the factor 0.
const FOURS: [i16; PARAMETERS] = [0, 4, 0];

#[test]
fn a_frame_gives_its_level_at_its_end(rt: HostRuntime) {
    assert_rows(
        &rt,
        Tone,
        BASES,
        &[
            Start(&FOURS),
            Feed(&[1000, 0, -1000], &[]),
            Feed(&[0], &[122]),
            // the next frame begins anew
            Feed(&[0, 0, 0, 1000], &[30]),
            Start(&FOURS),
            Feed(&[1000, 0, -1000, 0, 0, 0, 0, 1000], &[122, 30]),
        ],
    );
}

#[test]
fn the_level_has_the_last_factor(rt: HostRuntime) {
    assert_rows(
        &rt,
        Tone,
        BASES,
        &[
            Start(&FOURS),
            Feed(&[1000, 0, 0], &[]),
            Set(&[16384]),
            Get(&[3]),
            Feed(&[1000], &[30]),
            Start(&FOURS),
            Feed(&[1000, 0, 0, 1000], &[61]),
            // v = 1000, 2000: (2000 * 2000 + 1000 * 1000 - 2000 * 1000) * 2 / 65536
            Start(&[0, 2, 0]),
            Feed(&[1000], &[]),
            Set(&[16384]),
            Feed(&[1000], &[91]),
        ],
    );
}

#[test]
fn a_reset_begins_a_frame(rt: HostRuntime) {
    assert_rows(
        &rt,
        Tone,
        BASES,
        &[
            Start(&FOURS),
            Feed(&[1000, 0, 0], &[]),
            Reset,
            Get(&[0]),
            Feed(&[1000, 0, -1000, 0], &[122]),
        ],
    );
}

#[test]
fn samples_are_shifted(rt: HostRuntime) {
    assert_rows(
        &rt,
        Tone,
        BASES,
        &[
            Start(&[0, 4, 1]),
            Feed(&[2000, 1, -2000, 0], &[122]),
            // v = 256 in a frame of its own: 256 * 256 * 2 / 65536
            Start(&[32767, 1, 2]),
            Feed(&[1024, 1027, -1], &[2, 2, 0]),
        ],
    );
}

#[test]
fn values_and_levels_are_limited(rt: HostRuntime) {
    assert_rows(
        &rt,
        Tone,
        BASES,
        &[
            // v = 32767, 32767: each square, doubled, is 2147352578, and their sum is limited to 2147483647
            Start(&[0, 2, 0]),
            Feed(&[32767, 32767], &[32767]),
            Start(&[0, 2, 0]),
            Feed(&[-32768, -32768], &[32767]),
            // v = 32767, 0, and -32768 - 32767, which is limited to -32768
            Start(&[0, 3, 0]),
            Feed(&[32767, 0, -32768], &[32767]),
            // v = -32768, 0, and 32767 + 32768, which is limited to 32767: 32767 * 32767 * 2 / 65536
            Start(&[0, 3, 0]),
            Feed(&[-32768, 0, 32767], &[32766]),
        ],
    );
}

#[test]
fn get_counts_the_samples_of_the_frame(rt: HostRuntime) {
    // v = 9, 9, 0, 0: the frame's level is 0
    assert_rows(
        &rt,
        Tone,
        BASES,
        &[
            Start(&FOURS),
            Feed(&[9], &[]),
            Get(&[1]),
            Feed(&[9], &[]),
            Get(&[2]),
            Feed(&[9], &[]),
            Get(&[3]),
            Feed(&[9], &[0]),
            Get(&[0]),
            Feed(&[9], &[]),
            Get(&[1]),
        ],
    );
}

#[test]
fn the_table_by_its_numbers(rt: HostRuntime) {
    let records = [
        record(4, 4, Space::External, Attr::Persist),
        record(6, 4, Space::Saram, Attr::Persist),
        record(3, 4, Space::Daram, Attr::Scratch),
    ];
    assert_rows(&rt, Tone, BASES, &[Ask(&FOURS, &records)]);
}
