//! What a group's scratch words have behind the deactivation of a member: the poison word, where the host has one, and else what they had.

use crate::host_calls::parameters;
use alg_host::Host;
use host_map::Sizes;
use ialg::{Block, Ctl, Status};
use std::alloc::Global;
use std::process::Abort;
use test_doubles::{Or, Primed, SCRIBBLE, Scribbler};

const SIZES: Sizes = Sizes {
    daram: 64,
    saram: 64,
    external: 64,
};

// A primed instance tells its scratch word first, and never writes it.
const PRIMED: Or<Primed, Scribbler> = Or::First(Primed);

const SCRIBBLER: Or<Primed, Scribbler> = Or::Second(Scribbler);

// The scribbler's scratch record: one word of `daram`.
const ONE_WORD: [i16; 3] = [0, 1, 4];

/// The scratch word that a primed instance finds, in a host of this poison word or of none, when a scribbler that shares it was active
/// before.
fn scratch_word(rt: &impl Abort, alloc: Global, poison: Option<i16>) -> i16 {
    let mut host = Host::new(alloc, SIZES, poison).expect(rt, "memory");
    let primed = parameters(&[0, 0]).expect(rt, "two words");
    let scribbler = parameters(&ONE_WORD).expect(rt, "three words");
    assert!(rt; host.create(0, PRIMED, 0, &primed).is_ok());
    assert!(rt; host.create(1, SCRIBBLER, 0, &scribbler).is_ok());
    assert!(rt; host.living(1));
    host.process(1, &[1], &mut Block::new());
    let word = match host.control(0, &Ctl::Get) {
        Ok(Status::Words(words)) => words.first().copied(),
        _ => None,
    };
    host.close();
    word.expect(rt, "a word")
}

#[test]
fn scratch_words_are_poisoned_behind_a_deactivation(rt: HostRuntime) {
    let word = scratch_word(&rt, rt.alloc(), Some(77));
    assert!(&rt; word == 77);
}

#[test]
fn without_a_poison_word_scratch_words_stay(rt: HostRuntime) {
    let word = scratch_word(&rt, rt.alloc(), None);
    assert!(&rt; word == SCRIBBLE);
}
