//! Each operator at its limits and at the values that its rounding or saturation turns on. The expected values are
//! worked by hand from the standard's definitions.
use crate::pairs::assert_pairs;
use basic_op::{
    abs_s, add, div_s, extract_h, extract_l, l_abs, l_add, l_deposit_h, l_deposit_l, l_mac, l_msu,
    l_mult, l_negate, l_shl, l_shr, l_sub, mult, mult_r, negate, norm_l, norm_s, round, shl, shr,
    sub,
};

#[test]
fn sums_and_signs_of_16_bits(rt: HostRuntime) {
    assert_pairs(
        &rt,
        &[
            (add(32767, 1), 32767),
            (add(-32768, -1), -32768),
            (add(-20000, 30000), 10000),
            (sub(-32768, 1), -32768),
            (sub(32767, -1), 32767),
            (sub(5, 7), -2),
            (negate(-32768), 32767),
            (negate(5), -5),
            (abs_s(-32768), 32767),
            (abs_s(-7), 7),
        ],
    );
}

#[test]
fn sums_and_signs_of_32_bits(rt: HostRuntime) {
    assert_pairs(
        &rt,
        &[
            (l_add(2_147_483_647, 1), 2_147_483_647),
            (l_add(-2_147_483_648, -1), -2_147_483_648),
            (l_add(-5, 3), -2),
            (l_sub(-2_147_483_648, 1), -2_147_483_648),
            (l_sub(0, -2_147_483_648), 2_147_483_647),
            (l_negate(-2_147_483_648), 2_147_483_647),
            (l_negate(7), -7),
            (l_abs(-2_147_483_648), 2_147_483_647),
            (l_abs(-7), 7),
        ],
    );
}

#[test]
fn products(rt: HostRuntime) {
    assert_pairs(
        &rt,
        &[
            (mult(-32768, -32768), 32767),
            (mult(-1, 1), -1),
            (mult(16384, 16384), 8192),
            (mult_r(-1, 1), 0),
            (mult_r(16384, 1), 1),
            (mult_r(-32768, -32768), 32767),
        ],
    );
    assert_pairs(
        &rt,
        &[
            (l_mult(-32768, -32768), 2_147_483_647),
            (l_mult(3, -5), -30),
            (l_mac(2_147_483_647, 1, 1), 2_147_483_647),
            (l_mac(-10, 3, 2), 2),
            // The product saturates before it is added.
            (l_mac(-1, -32768, -32768), 2_147_483_646),
            (l_msu(-2_147_483_648, 1, 1), -2_147_483_648),
            (l_msu(10, 3, 2), -2),
            (l_msu(0, -32768, -32768), -2_147_483_647),
        ],
    );
}

#[test]
fn shifts_of_16_bits(rt: HostRuntime) {
    assert_pairs(
        &rt,
        &[
            (shl(1, 15), 32767),
            (shl(-1, 15), -32768),
            (shl(-3, -1), -2),
            (shl(0, 32767), 0),
            (shl(-5, 2), -20),
            (shl(-1, -32768), -1),
            (shr(-1, 40), -1),
            (shr(1, -15), 32767),
            (shr(100, 3), 12),
            (shr(-1, -32768), -32768),
        ],
    );
}

#[test]
fn shifts_of_32_bits(rt: HostRuntime) {
    assert_pairs(
        &rt,
        &[
            (l_shl(1, 31), 2_147_483_647),
            (l_shl(-1, 31), -2_147_483_648),
            (l_shl(-3, -1), -2),
            (l_shl(0, 32767), 0),
            (l_shr(-5, 1), -3),
            (l_shr(1, -31), 2_147_483_647),
            (l_shr(-3, -2), -12),
            (l_shr(2_147_483_647, 32767), 0),
        ],
    );
}

#[test]
fn between_the_widths(rt: HostRuntime) {
    assert_pairs(
        &rt,
        &[
            (extract_h(-1), -1),
            (extract_h(0x1234_5678), 0x1234),
            (extract_l(32768), -32768),
            (extract_l(-32769), 32767),
            (round(32767), 0),
            (round(32768), 1),
            (round(2_147_483_647), 32767),
            (round(-32769), -1),
        ],
    );
    assert_pairs(
        &rt,
        &[
            (l_deposit_h(-1), -65536),
            (l_deposit_h(1), 65536),
            (l_deposit_l(-1), -1),
        ],
    );
}

#[test]
fn norms_and_quotients(rt: HostRuntime) {
    assert_pairs(
        &rt,
        &[
            (norm_s(0), 0),
            (norm_s(-1), 15),
            (norm_s(1), 14),
            (norm_s(-2), 14),
            (norm_s(-16384), 1),
            (norm_s(-32768), 0),
            (norm_l(0), 0),
            (norm_l(-1), 31),
            (norm_l(1), 30),
            (norm_l(-1_073_741_825), 0),
            (div_s(1, 3), 10922),
            (div_s(5, 5), 32767),
            (div_s(0, 7), 0),
        ],
    );
}
