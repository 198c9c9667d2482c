//! What no clause of a primed instance says: that starts succeed, the words of its records, and its calls one after the other.
ghost use Rattle.std.specs.Prelude.{⊤};

use ialg::{Block, Ctl, Ialg, Lending, Lent, PARAMETER_WORDS, Status, Step, Words, copied, lend};
use mem_rec::MemTab;
use std::process::Abort;
use test_doubles::{
    Active, Held, PRIMED_RECORDS, Primed, activate_in_poison, give_sample, start_in_poison,
    start_with_fill,
};

const POISON: i16 = 21845;

const STARTED: Held = Held {
    object: [9, 4, 0, 0],
    once: [7],
    primed: [POISON],
};

/// These words as parameters.
fn words(rt: &impl Abort, values: &[i16]) -> Words {
    assert!(rt; values.len() <= PARAMETER_WORDS);
    copied(values)
}

/// The records with the write-once record at `once`, and the other at `primed`.
fn table(rt: &impl Abort, once: u16, primed: u16) -> MemTab {
    let table = Primed
        .alg_alloc(&words(rt, &[POISON, 7]))
        .expect(rt, "a table");
    assert!(rt; table.len() == PRIMED_RECORDS);
    let table = table.with_base(1, once);
    assert!(rt; table.len() == PRIMED_RECORDS);
    table.with_base(2, primed)
}

/// A move to the table that the records are lent by, a sample, and then a `get`.
#[derive(Clone, Copy)]
struct MoveAndAsk;

/// What these calls gave.
#[derive(Drop)]
struct Given {
    sampled: Status,
    status: Status,
    freed: Option<MemTab>,
}

impl Step<Given> for MoveAndAsk {
    ghost can = { λ _ _. ⊤ };

    ghost done = { λ _ _ _ _ _ _ _. ⊤ };

    fn perform(&self, mem: &mut Lent<'_>, given: &mut Given) {
        let table = mem.table();
        Primed.alg_moved(table, mem);
        Primed.alg_activate(mem);
        given.sampled = give_sample(mem, 1, &mut Block::new());
        given.status = Primed.alg_control(mem, &Ctl::Get);
        Primed.alg_deactivate(mem);
        given.freed = Some(Primed.alg_free(mem));
    }
}

#[test]
fn starts_leave_the_words(rt: HostRuntime) {
    assert!(rt; start_in_poison(POISON, 7) == Some(STARTED));
    assert!(rt; start_with_fill(POISON, 7) == Some(STARTED));
    let active = Active {
        held: STARTED,
        scratch: [POISON],
    };
    assert!(rt; activate_in_poison(POISON, 7) == Some(active));
}

#[test]
fn moved_and_asked(rt: HostRuntime) {
    let Active {
        mut held,
        mut scratch,
    } = activate_in_poison(POISON, 7).expect(&rt, "a start");
    let there = table(&rt, 64, 32);
    let mut given = Given {
        sampled: Status::Words(words(&rt, &[])),
        status: Status::Done,
        freed: None,
    };
    lend(
        &Lending {
            step: &MoveAndAsk,
            table: &there,
            writable: false,
        },
        &mut held.object,
        &mut held.once,
        &mut held.primed,
        &mut scratch,
        &mut given,
    );
    let told = Status::Words(words(&rt, &[POISON, POISON, 7]));
    assert!(rt; held.object == [9, 64, 32, 0]);
    assert!(rt; given.sampled == Status::Done && given.status == told);
    let freed = given.freed.expect(&rt, "a table");
    assert!(rt; freed.records() == there.records());
}
