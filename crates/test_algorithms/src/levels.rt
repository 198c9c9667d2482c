//! The worked rows of meters of energy.
use crate::instance::Row::{Ask, Feed, Get, Refuse, RefuseSet, Reset, Start};
use crate::instance::{Row, assert_rows, filter_records};
use alg_level::Level;
use mem_rec::TABLE_RECORDS;
use std::process::Abort;

/// The bases of the object, the kept words and the running words.
const BASES: [u16; TABLE_RECORDS] = [0, 4, 12, 0];

/// Asserts the rows of a level meter.
fn assert_levels(rt: &impl Abort, rows: &[Row<'_>]) {
    assert_rows(rt, Level::new(), BASES, rows);
}

#[test]
fn a_frame_gives_its_energy_at_its_end(rt: HostRuntime) {
    assert_levels(
        &rt,
        &[
            Start(&[4, 0]),
            Feed(&[1000, 0, -1000], &[]),
            Get(&[3]),
            // (1000 * 1000 + 1000 * 1000) * 2 / 65536
            Feed(&[0, 0, 0, 0, 1000], &[61, 30]),
            Get(&[0]),
        ],
    );
}

#[test]
fn the_lower_word_of_the_energy_is_kept(rt: HostRuntime) {
    // 181 * 181 * 2 is 65522, 14 less than 65536, and twice that 131044; 182 * 182 * 2 is 66248
    assert_levels(
        &rt,
        &[
            Start(&[2, 0]),
            Feed(&[181], &[]),
            Feed(&[181, 182], &[1]),
            Feed(&[0], &[1]),
        ],
    );
}

#[test]
fn energies_are_limited_and_samples_shifted(rt: HostRuntime) {
    assert_levels(
        &rt,
        &[
            Start(&[3, 0]),
            Feed(&[32767, -32768, 32767], &[32767]),
            // 256 * 256 * 2 / 65536, and -1 is still -1
            Start(&[1, 2]),
            Feed(&[1024, 1027, -1], &[2, 2, 0]),
        ],
    );
}

#[test]
fn a_reset_begins_a_frame(rt: HostRuntime) {
    assert_levels(
        &rt,
        &[
            Start(&[4, 0]),
            Feed(&[1000, 0, 0], &[]),
            Reset,
            Feed(&[0, 0, 0, 1000], &[30]),
        ],
    );
}

#[test]
fn parameters_and_controls(rt: HostRuntime) {
    let records = filter_records(5, 3);
    assert_levels(
        &rt,
        &[
            Refuse(&[0, 0]),
            Refuse(&[1025, 0]),
            Refuse(&[-1, 0]),
            Refuse(&[1, -1]),
            Refuse(&[1, 16]),
            Ask(&[1, 0], &records),
            Ask(&[1024, 15], &records),
            Refuse(&[1]),
            Refuse(&[1, 0, 0]),
            Start(&[4, 0]),
            RefuseSet(&[4, 0]),
            Reset,
            Get(&[0]),
        ],
    );
}
