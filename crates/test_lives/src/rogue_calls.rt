//! What each rogue does to the words that are lent to it, call by call.
ghost use Rattle.std.specs.Prelude.{◌≡◌, [], ⊤};

use ialg::{Block, Ctl, Ialg, Lending, Lent, Named, Params, Step, lend};
use mem_rec::{Attr, LEAST_ALIGNMENT, MemRec, MemTab, Space};
use std::process::Abort;
use test_doubles::rogue_records::{
    KEPT, KEPT_WORDS, OBJECT, SCRATCH, SCRATCH_ALIGNMENT, SCRATCH_WORDS, record_of,
};
use test_doubles::{Mixed, Or, Rogue};
use voice_set::Voice;

// The records, by their numbers.
const _: () = prove!(KEPT_WORDS == 8);

const _: () = prove!(SCRATCH_WORDS == 260);

const _: () = prove!(SCRATCH_ALIGNMENT == 16);

/// A call of an instance.
#[derive(Clone, Copy, PartialEq, Eq, Debug)]
enum Call {
    Init,
    Activate,
    Process,
    Deactivate,
    Moved,
    Control,
}

/// All calls that may write.
const CALLS: [Call; 6] = [
    Call::Init,
    Call::Activate,
    Call::Process,
    Call::Deactivate,
    Call::Moved,
    Call::Control,
];

/// A call of a kind.
#[derive(Clone, Copy)]
struct Called {
    kind: Rogue,
    call: Call,
}

impl Step<Block> for Called {
    ghost can = { λ _ out. out.items ≡ [] };

    ghost done = { λ _ _ _ _ _ _ _. ⊤ };

    fn perform(&self, mem: &mut Lent<'_>, out: &mut Block) {
        let table = mem.table();
        match self.call {
            Call::Init => self.kind.alg_init(table, &Params::new(), mem),
            Call::Activate => self.kind.alg_activate(mem),
            Call::Process => self.kind.process(mem, &[7, 8, 9], out),
            Call::Deactivate => self.kind.alg_deactivate(mem),
            Call::Moved => self.kind.alg_moved(table, mem),
            Call::Control => {
                let _done = self.kind.alg_control(mem, &Ctl::Get);
            }
        }
    }
}

/// Asks an instance for its records, and whether they are untrue.
#[derive(Clone, Copy)]
struct Freed {
    kind: Rogue,
}

impl Step<bool> for Freed {
    ghost can = { λ _ _. ⊤ };

    ghost done = { λ _ _ _ _ _ _ _. ⊤ };

    fn perform(&self, mem: &mut Lent<'_>, out: &mut bool) {
        *out = self.kind.alg_free(mem).records() != mem.table().records();
    }
}

/// The words of a rogue's records.
#[derive(Clone, Copy, PartialEq, Eq)]
struct Memory {
    object: [i16; 4],
    kept: [i16; 8],
    scratch: [i16; 260],
}

/// Before each call every word is 5.
const BEFORE: Memory = Memory {
    object: [5; 4],
    kept: [5; 8],
    scratch: [5; 260],
};

/// A rogue's records, with bases that nobody forges.
fn placed_table(kind: Rogue) -> Option<MemTab> {
    let table = kind.alg_alloc(&Params::new())?;
    if table.len() != 3 || kind.alg_num_alloc() != 3 {
        return None;
    }
    Some(table.with_base(0, 100).with_base(1, 208).with_base(2, 304))
}

/// The words after a call, and what it gave out.
fn after(kind: Rogue, call: Call) -> Option<(Memory, Block)> {
    let table = placed_table(kind)?;
    let mut memory = BEFORE;
    let mut out = Block::new();
    lend(
        &Lending {
            step: &Called { kind, call },
            table: &table,
            writable: call == Call::Init,
        },
        &mut memory.object,
        &mut memory.kept,
        &mut memory.scratch,
        &mut [],
        &mut out,
    );
    Some((memory, out))
}

/// Whether the words after a call are these. `process` gives these samples, and no other call gives any.
fn leaves(kind: Rogue, call: Call, wanted: &Memory, given: &[i16]) -> bool {
    let given = if call == Call::Process { given } else { &[] };
    match after(kind, call) {
        Some((memory, out)) => memory == *wanted && out.as_slice() == given,
        None => false,
    }
}

#[test]
fn a_scribbler_writes_over_all_in_every_call(rt: HostRuntime) {
    let scribbled = Memory {
        object: [0x5b5b; 4],
        kept: [0x5b5b; 8],
        scratch: [0x5b5b; 260],
    };
    for call in CALLS {
        assert!(rt; leaves(Rogue::Scribble, call, &scribbled, &[7, 8, 9]));
    }
}

#[test]
fn a_clinger_touches_one_word_in_one_call(rt: HostRuntime) {
    for call in CALLS {
        let mut wanted = BEFORE;
        if call == Call::Process {
            wanted.scratch[0] = 9;
        }
        assert!(rt; leaves(Rogue::Clinger, call, &wanted, &[5, 7, 8]));
    }
}

/// Where records of others stand beside a forger's in a host: the object at 4 of external, the kept words at 4 of saram, the scratch words
/// at 1,040 of daram. The first six are those of the filters between which one stands in the row of whole runs.
const OTHERS: [(Space, u16); 10] = [
    (Space::Daram, 0),
    (Space::Daram, 1_312),
    (Space::Saram, 0),
    (Space::Saram, 12),
    (Space::External, 0),
    (Space::External, 8),
    (Space::Daram, 65_532),
    (Space::Saram, 65_532),
    (Space::External, 65_532),
    (Space::Saram, 30_000),
];

/// A rogue's records at their places in that host, and behind them a record of another one.
fn table_beside(kind: Rogue, space: Space, base: u16) -> Option<MemTab> {
    let asked = kind.alg_alloc(&Params::new())?;
    MemTab::make(&[
        MemRec {
            base: 4,
            ..record_of(&asked, OBJECT)?
        },
        MemRec {
            base: 4,
            ..record_of(&asked, KEPT)?
        },
        MemRec {
            base: 1_040,
            ..record_of(&asked, SCRATCH)?
        },
        MemRec {
            size: 4,
            align: LEAST_ALIGNMENT,
            space,
            attr: Attr::Persist,
            base,
        },
    ])
}

/// Whether a record of another one, lent beside the kind's own for once, is read and written in the call.
fn goes_by(kind: Rogue, call: Call, space: Space, base: u16) -> Option<bool> {
    let table = table_beside(kind, space, base)?;
    let mut memory = BEFORE;
    let mut words = [5; 4];
    let mut out = Block::new();
    lend(
        &Lending {
            step: &Called { kind, call },
            table: &table,
            writable: call == Call::Init,
        },
        &mut memory.object,
        &mut memory.kept,
        &mut memory.scratch,
        &mut words,
        &mut out,
    );
    Some(words == [6; 4])
}

/// A base of another one reaches nothing where its record isn't lent. Here it is, so that what is tried shows.
#[test]
fn a_forger_tries_the_bases_of_others_in_every_call(rt: HostRuntime) {
    for call in CALLS {
        for (space, base) in OTHERS {
            let forger = goes_by(Rogue::Forger, call, space, base);
            let clinger = goes_by(Rogue::Clinger, call, space, base);
            assert!(rt; (forger, clinger) == (Some(true), Some(false)));
        }
    }
}

/// The object is left with the last forged base. Its own records it reads and writes too, where a base is one of them.
#[test]
fn a_forger_goes_by_forged_bases_in_every_call(rt: HostRuntime) {
    let forged = Memory {
        object: [-1; 4],
        kept: [6; 8],
        scratch: [6; 260],
    };
    for call in CALLS {
        assert!(rt; leaves(Rogue::Forger, call, &forged, &[7, 8, 9]));
    }
}

#[test]
fn a_babbler_counts_in_its_kept_words(rt: HostRuntime) {
    for call in CALLS {
        let mut wanted = BEFORE;
        match call {
            Call::Init => wanted.kept = [0; 8],
            Call::Process => wanted.kept[0] = 6,
            _ => {}
        }
        assert!(rt; leaves(Rogue::Babbler, call, &wanted, &[7]));
    }
}

/// Whether a rogue that is asked for its records says untrue ones. None where it has written a word.
fn says_untrue(kind: Rogue) -> Option<bool> {
    let table = placed_table(kind)?;
    let mut memory = BEFORE;
    let mut untrue = false;
    lend(
        &Lending {
            step: &Freed { kind },
            table: &table,
            writable: false,
        },
        &mut memory.object,
        &mut memory.kept,
        &mut [],
        &mut [],
        &mut untrue,
    );
    if memory == BEFORE { Some(untrue) } else { None }
}

#[test]
fn a_forger_alone_says_untrue_records(rt: HostRuntime) {
    for (kind, untrue) in [
        (Rogue::Scribble, false),
        (Rogue::Clinger, false),
        (Rogue::Forger, true),
        (Rogue::Babbler, false),
    ] {
        assert!(rt; says_untrue(kind) == Some(untrue));
    }
}

#[test]
fn nine_names_name_a_kind_each(rt: HostRuntime) {
    for (name, kind) in [
        (b"scribble".as_slice(), Some(Or::Second(Rogue::Scribble))),
        (b"clinger", Some(Or::Second(Rogue::Clinger))),
        (b"forger", Some(Or::Second(Rogue::Forger))),
        (b"babbler", Some(Or::Second(Rogue::Babbler))),
        (b"fir", Some(Or::First(Voice::Fir))),
        (b"decim", Some(Or::First(Voice::Decim))),
        (b"biquad", Some(Or::First(Voice::Biquad))),
        (b"tone", Some(Or::First(Voice::Tone))),
        (b"g711", Some(Or::First(Voice::G711))),
        (b"scribbler", None),
        (b"", None),
    ] {
        assert!(rt; Mixed::of_name(name) == kind);
    }
}
