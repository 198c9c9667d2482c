//! What a sample makes of a generator's state.
ghost use Rattle.std.specs.Prelude.{◌≡◌, ◌&&◌, length};
ghost use Rattle.alg_signal.specs.Tones.{cadence_named, given, is_over, moved, next_tones, next_value, opened, taken, words_of};

use crate::{ONE, STATE_WORDS};
use basic_op::{add, l_msu, l_mult, l_shl, negate, round};

/// What is to sound: of each tone the factor in Q14 and the second sample in Q15, how many samples of a cycle sound and how many don't, and
/// how many cycles there are, 0 for no end.
#[derive(Clone, Copy, PartialEq, Eq, Debug)]
pub struct Cadence {
    pub k1: i16,
    pub s1: i16,
    pub k2: i16,
    pub s2: i16,
    pub on: i16,
    pub off: i16,
    pub count: i16,
}

/// The two newest values of each tone, the place in the cycle, and how many cycles there were.
#[derive(Clone, Copy)]
pub struct Tones {
    pub a1: i16,
    pub a2: i16,
    pub b1: i16,
    pub b2: i16,
    pub place: i16,
    pub done: i16,
}

/// The cadence that these parameters name.
pub(crate) fn by_parameters(p: &[i16]) -> Option<Cadence>
    ensures { result ≡ cadence_named p.now }
{
    let [k1, s1, k2, s2, on, off, count] = p else {
        return None;
    };
    Some(Cadence {
        k1: *k1,
        s1: *s1,
        k2: *k2,
        s2: *s2,
        on: *on,
        off: *off,
        count: *count,
    })
}

/// The next value of a tone.
#[tactic(auto, unfolding(crate::specs::Tones::next_value))]
fn next_value(k: i16, v1: i16, v2: i16) -> i16
    ensures { result ≡ next_value k v1 v2 }
{
    round(l_shl(l_msu(l_mult(k, v1), v2, ONE), 1))
}

/// Whether both are so.
#[inline]
fn both(a: bool, b: bool) -> bool
    ensures { result ≡ (a && b) }
{
    a && b
}

/// Whether all cycles were run.
fn is_over(p: &Cadence, t: &Tones) -> bool
    ensures { result ≡ is_over p.now t.now }
{
    let ends = 0 < p.count;
    let run = p.count <= t.done;
    both(ends, run)
}

/// The state at a sample: a cycle begins with the values of the parameters.
#[tactic(auto, unfolding(crate::specs::Tones::opened))]
fn opened(p: &Cadence, t: &Tones) -> Tones
    ensures { result ≡ opened p.now t.now }
{
    if 0 < t.place {
        *t
    } else {
        Tones {
            a1: 0,
            a2: negate(p.s1),
            b1: 0,
            b2: negate(p.s2),
            place: t.place,
            done: t.done,
        }
    }
}

/// The state a sample on, in its cycle.
#[tactic(auto, unfolding(crate::specs::Tones::moved))]
fn moved(p: &Cadence, t: &Tones) -> Tones
    ensures { result ≡ moved p.now t.now }
{
    let a1 = next_value(p.k1, t.a1, t.a2);
    let b1 = next_value(p.k2, t.b1, t.b2);
    let place = add(t.place, 1);
    Tones {
        a1,
        a2: t.a1,
        b1,
        b2: t.b1,
        place,
        done: t.done,
    }
}

/// The state behind a sample.
#[tactic(auto, unfolding(crate::specs::Tones::next_tones))]
fn next_tones(p: &Cadence, t: &Tones) -> Tones
    ensures { result ≡ next_tones p.now t.now }
{
    if is_over(p, t) {
        return *t;
    }
    let next = moved(p, t);
    if next.place < add(p.on, p.off) {
        next
    } else {
        let done = add(t.done, 1);
        Tones {
            a1: 0,
            a2: 0,
            b1: 0,
            b2: 0,
            place: 0,
            done,
        }
    }
}

/// What a sample gives: the tones while they sound, and itself while they don't.
#[tactic(auto, unfolding(crate::specs::Tones::given))]
fn given(p: &Cadence, t: &Tones, x: i16) -> i16
    ensures { result ≡ given p.now t.now x }
{
    if is_over(p, t) {
        x
    } else if t.place < p.on {
        add(t.a1, t.b1)
    } else {
        x
    }
}

/// Takes a sample: the state behind it, and what it gives.
#[tactic(auto, unfolding(crate::specs::Tones::taken))]
pub fn take(p: Cadence, x: i16, t: &Tones) -> (Tones, i16)
    ensures { result ≡ taken p x t.now }
{
    let now = opened(&p, t);
    let next = next_tones(&p, &now);
    let word = given(&p, &now, x);
    (next, word)
}

impl Tones {
    /// Before the first sample.
    pub const INITIAL: Tones = Tones {
        a1: 0,
        a2: 0,
        b1: 0,
        b2: 0,
        place: 0,
        done: 0,
    };
}

/// Writes the state into the words.
pub(crate) fn write(t: &Tones, words: &mut [i16])
    requires { length words.old ≡ STATE_WORDS }
    ensures { words.new ≡ words_of t.now }
{
    words.copy_from_slice(&[t.a1, t.a2, t.b1, t.b2, t.place, t.done]);
}

/// The state that these words have.
pub(crate) fn read(words: &[i16]) -> Tones
    requires { length words.now ≡ STATE_WORDS }
    ensures { (t : Tones) → words.now ≡ words_of t → result ≡ t }
{
    Tones {
        a1: words[0],
        a2: words[1],
        b1: words[2],
        b2: words[3],
        place: words[4],
        done: words[5],
    }
}
