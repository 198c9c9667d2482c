//! What no clause says: vectors from outside, and all codes and samples against intervals that are listed from the rule in
//! another form than the code's.
use crate::instance::Row::{Ask, Feed, Free, Move, Record, Start};
use crate::instance::{assert_rows, record};
use alg_g711::{G711, Law, decode, encode};
use mem_rec::{Attr, Space, TABLE_RECORDS};
use std::process::Abort;

/// The bases of the object and of a decoder's samples; an encoder has none.
const BASES: [u16; TABLE_RECORDS] = [0, 16, 0, 0];

/// The parameters of the coders: a law, and a direction.
const A_ENCODER: [i16; 2] = [0, 0];

const A_DECODER: [i16; 2] = [0, 1];

const MU_ENCODER: [i16; 2] = [1, 0];

const MU_DECODER: [i16; 2] = [1, 1];

#[test]
fn encoders_give_codes(rt: HostRuntime) {
    assert_rows(
        &rt,
        G711,
        BASES,
        &[
            Start(&A_ENCODER),
            Feed(&[0, -1], &[213, 85]),
            Start(&MU_ENCODER),
            Feed(&[0, -1, 32767, -32768], &[255, 127, 128, 0]),
        ],
    );
}

#[test]
fn decoders_give_samples(rt: HostRuntime) {
    assert_rows(
        &rt,
        G711,
        BASES,
        &[
            Start(&A_DECODER),
            Feed(&[170, 42, 213, 85], &[32256, -32256, 8, -8]),
            Start(&MU_DECODER),
            Feed(&[128, 0, 255, 127], &[32124, -32124, 0, 0]),
        ],
    );
}

/// Runs of codes and the rest behind them, in the order of a block.
#[test]
fn a_block_is_decoded_to_its_end(rt: HostRuntime) {
    let (mut codes, mut samples) = ([0; 250], [0; 250]);
    for k in 0..250u8 {
        codes[usize::from(k)] = i16::from(k);
        samples[usize::from(k)] = decode(Law::A, k);
    }
    assert_rows(
        &rt,
        G711,
        BASES,
        &[Start(&A_DECODER), Feed(&codes, &samples)],
    );
}

#[test]
fn a_decoder_ignores_the_upper_octet(rt: HostRuntime) {
    assert_rows(
        &rt,
        G711,
        BASES,
        &[
            Start(&MU_DECODER),
            Feed(&[0x7f80, -1, -256], &[32124, 0, -32124]),
        ],
    );
}

#[test]
fn a_decoder_is_moved_and_freed(rt: HostRuntime) {
    assert_rows(
        &rt,
        G711,
        BASES,
        &[
            Start(&A_DECODER),
            Record(0, &[6, 16, 0, 0]),
            Move(1, 65_528),
            Record(0, &[6, -8, 0, 0]),
            Feed(&[170], &[32256]),
            Free,
        ],
    );
}

#[test]
fn tables_by_their_numbers(rt: HostRuntime) {
    let object = record(4, 4, Space::External, Attr::Persist);
    let samples = record(256, 8, Space::External, Attr::WriteOnce);
    assert_rows(
        &rt,
        G711,
        BASES,
        &[
            Ask(&A_ENCODER, &[object]),
            Ask(&A_DECODER, &[object, samples]),
            Ask(&MU_ENCODER, &[object]),
            Ask(&MU_DECODER, &[object, samples]),
        ],
    );
}

/// How wide the steps of each segment are in samples, by the standard's tables 1a and 2a.
const A_WIDTHS: [i32; 8] = [16, 16, 32, 64, 128, 256, 512, 1024];

const MU_WIDTHS: [i32; 8] = [8, 16, 32, 64, 128, 256, 512, 1024];

/// The code of the samples in an interval that aren't negative: by the standard's tables, with A-law's even bits turned.
fn positive_code(law: Law, number: u8) -> u8 {
    match law {
        Law::A => (number % 128 | 0x80) ^ 0x55,
        Law::Mu => !(number % 128),
    }
}

/// Encodes all samples in order of their magnitudes, while the intervals are gone through one after the other from `start`
/// on.
fn assert_codes(rt: &impl Abort, law: Law, widths: [i32; 8], start: i32) {
    let mut number = 0u8;
    let mut end = start.saturating_add(widths[0]);
    for n in 0..=i16::MAX {
        if i32::from(n) == end && number < 127 {
            number += 1;
            end = end.saturating_add(widths[usize::from(number / 16 % 8)]);
        }
        let code = positive_code(law, number);
        assert!(rt;
            encode(law, n) == code && encode(law, !n) == code % 128,
            "of {n} or its negative"
        );
    }
    assert!(rt; number == 127);
}

/// Decodes all codes in order of their intervals, the first of which begins at `start`.
fn assert_middles(rt: &impl Abort, law: Law, widths: [i32; 8], start: i32) {
    let mut end = start;
    for number in 0..128u8 {
        let width = widths[usize::from(number / 16)];
        end = end.saturating_add(width);
        let middle = end.saturating_sub(width / 2);
        let code = positive_code(law, number);
        let samples = [decode(law, code), decode(law, code % 128)];
        assert!(rt;
            samples.map(i32::from) == [middle, middle.saturating_neg()],
            "of {code}"
        );
    }
}

#[test]
fn a_law_of_all_samples(rt: HostRuntime) {
    assert_codes(&rt, Law::A, A_WIDTHS, 0);
}

#[test]
fn mu_law_of_all_samples(rt: HostRuntime) {
    assert_codes(&rt, Law::Mu, MU_WIDTHS, -4);
}

#[test]
fn all_codes_of_both_laws(rt: HostRuntime) {
    assert_middles(&rt, Law::A, A_WIDTHS, 0);
    assert_middles(&rt, Law::Mu, MU_WIDTHS, -4);
}
