//! What is told of a frame by its levels.
ghost use Rattle.std.specs.Prelude.{◌≡◌, ◌&&◌, int_le, length};
ghost use Rattle.alg_dtmf.specs.Equation.{code_by, code_of, is_pair, normal_of, stands_out, tone_of};

use crate::{NO_DIGIT, PARAMETERS, PLACE_BITS, SHARE_BITS};
use basic_op::{add, extract_h, l_mult, l_shl, mult, norm_l, shl};

/// A tone of a band: its place, and its level.
#[derive(Clone, Copy)]
pub struct Tone {
    pub place: i16,
    pub level: i32,
}

/// The levels of the four tones of a band.
#[derive(Clone, Copy)]
pub(crate) struct Levels {
    pub a: i32,
    pub b: i32,
    pub c: i32,
    pub d: i32,
}

/// The upper word, after so many doublings.
#[tactic(auto, unfolding(crate::specs::Equation::normal_of))]
fn normal(shift: i16, v: i32) -> i16
    ensures { result ≡ normal_of shift v }
{
    extract_h(l_shl(v, shift))
}

/// Whether a word is at most another.
fn is_at_most(a: i16, b: i16) -> bool
    ensures { result ≡ int_le a b }
{
    a <= b
}

/// Whether three others of its band are at most so much of it.
#[tactic(auto, unfolding(crate::specs::Equation::stands_out))]
fn is_strongest(dominance: i16, shift: i16, v: i32, a: i32, b: i32, c: i32) -> bool
    ensures { result ≡ stands_out dominance shift v a b c }
{
    let v = normal(shift, v);
    let most = mult(v, dominance);
    let a = normal(shift, a);
    let first = is_at_most(a, most);
    let b = normal(shift, b);
    let second = is_at_most(b, most);
    let c = normal(shift, c);
    let third = is_at_most(c, most);
    let two = both(first, second);
    both(two, third)
}

/// Whether both are so.
fn both(a: bool, b: bool) -> bool
    ensures { result ≡ (a && b) }
{
    a && b
}

/// The tone of a band that stands out.
#[tactic(auto, unfolding(crate::specs::Equation::tone_of))]
fn strongest(dominance: i16, shift: i16, v: Levels) -> Option<Tone>
    ensures { result ≡ tone_of dominance shift v }
{
    if is_strongest(dominance, shift, v.a, v.b, v.c, v.d) {
        Some(Tone {
            place: 0,
            level: v.a,
        })
    } else if is_strongest(dominance, shift, v.b, v.a, v.c, v.d) {
        Some(Tone {
            place: 1,
            level: v.b,
        })
    } else if is_strongest(dominance, shift, v.c, v.a, v.b, v.d) {
        Some(Tone {
            place: 2,
            level: v.c,
        })
    } else if is_strongest(dominance, shift, v.d, v.a, v.b, v.c) {
        Some(Tone {
            place: 3,
            level: v.d,
        })
    } else {
        None
    }
}

/// Whether these levels of a low and a high tone are a digit's.
#[tactic(auto, unfolding(crate::specs::Equation::is_pair))]
fn is_digit(p: &[i16], shift: i16, energy: i32, low: i32, high: i32) -> bool
    requires { length p.now ≡ PARAMETERS }
    ensures { result ≡ is_pair p.now shift energy low high }
{
    let least = l_mult(p[2], p[2]);
    let l = normal(shift, low);
    let h = normal(shift, high);
    let whole = mult(shl(p[0], SHARE_BITS), normal(shift, energy));
    let low_is_loud = reaches(low, least);
    let high_is_loud = reaches(high, least);
    let loud = both(low_is_loud, high_is_loud);
    let least_high = mult(l, p[3]);
    let high_is_level = is_at_most(least_high, h);
    let least_low = mult(h, p[4]);
    let low_is_level = is_at_most(least_low, l);
    let level = both(high_is_level, low_is_level);
    let share = mult(p[6], whole);
    let alone = is_at_most(share, add(l, h));
    let two = both(loud, level);
    both(two, alone)
}

/// Whether a level reaches the least one.
fn reaches(level: i32, least: i32) -> bool
    ensures { result ≡ int_le least level }
{
    least <= level
}

/// The code of the digit in a frame with these levels, and -1 where there is none.
#[tactic(auto, unfolding(crate::specs::Equation::code_of))]
pub(crate) fn code(p: &[i16], energy: i32, low: Levels, high: Levels) -> i16
    requires { length p.now ≡ PARAMETERS }
    ensures { result ≡ code_of p.now energy low high }
{
    let shift = norm_l(energy);
    let l = strongest(p[5], shift, low);
    let h = strongest(p[5], shift, high);
    code_of_tones(p, shift, energy, l, h)
}

/// The code of these tones of the two bands.
#[tactic(auto, unfolding(crate::specs::Equation::code_by))]
fn code_of_tones(p: &[i16], shift: i16, energy: i32, low: Option<Tone>, high: Option<Tone>) -> i16
    requires { length p.now ≡ PARAMETERS }
    ensures { result ≡ code_by p.now shift energy low high }
{
    match (low, high) {
        (Some(l), Some(h)) => {
            if is_digit(p, shift, energy, l.level, h.level) {
                add(shl(l.place, PLACE_BITS), h.place)
            } else {
                NO_DIGIT
            }
        }
        (Some(_), None) | (None, _) => NO_DIGIT,
    }
}
