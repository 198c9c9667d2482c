//! Which replies tell of which samples.
ghost use Rattle.std.specs.Prelude.{◌≡◌, ◌<◌, ◌≤◌, ◌↔◌, ◌++◌, ◌∷◌, [], false, length, All, Any, IfOk, IsTrue};
ghost use Rattle.octet_ports.specs.Marks.{IsTaken};

use crate::waiting::Waiting;
use std::alloc::{AllocError, Global};
use std::io::Write;
use std::marker::Model;

/// The most marks of a journal.
pub const MARKS: usize = 1024;

const _: () = prove!(MARKS == 1 << 10);

/// Samples came to an output: the replies behind them tell of them.
#[derive(Clone, Copy, Default)]
pub(crate) struct Mark {
    /// The output's number.
    pub(crate) output: usize,
    /// How many octets of what waits for the output it must take, so that it has these samples.
    pub(crate) least: usize,
    /// How many octets of the replies stand before any that tells of them.
    pub(crate) before: usize,
}

/// Marks, up to [`MARKS`] of them. Their room is asked for once, and to let go of them writes nothing.
#[derive(Drop)]
pub struct Marks {
    list: Vec<Mark>,
}

impl Model for Marks {
    ghost use Rattle.std.specs.Prelude.{◌≡◌};
    ghost use Rattle.std.specs.Vec.{vec_capacity};
    ghost use Rattle.octet_ports.specs.declared.marks.TheConstants.{MARKS};
    ghost use Rattle.octet_ports.specs.MarkLists.{MarkList};

    ghost Value = { MarkList };

    ghost view = { λ m. record { items = m.list.items } };

    ghost invariant = { λ m. vec_capacity m.list ≡ MARKS };
}

impl Marks {
    /// Room for the marks of a journal, of which there are none yet.
    pub fn new(alloc: Global) -> Result<Marks, AllocError>
        ensures none { IfOk result (λ marks. marks.items ≡ []) }
    {
        let list = Vec::with_capacity(alloc, MARKS)?;
        Ok(Marks { list })
    }

    /// Whether there is no room for a mark more.
    pub(crate) fn is_full(&self) -> bool
        ensures room { result ≡ false → length self.now.items < MARKS }
    {
        self.list.len() >= MARKS
    }

    /// Takes a mark more.
    pub(crate) fn push(&mut self, mark: Mark)
        requires room { length self.old.items < MARKS }
        ensures items { self.new.items ≡ self.old.items ++ mark ∷ [] }
    {
        self.list.push_reserved(mark);
    }

    /// The marks, in order.
    pub(crate) fn as_slice(&self) -> &[Mark]
        ensures value { result.now ≡ self.now.items }
    {
        self.list.as_slice()
    }

    /// Lets go of all marks.
    pub(crate) fn clear(&mut self)
        ensures none { self.new.items ≡ [] }
    {
        self.list.clear();
    }
}

/// Whether the mark's output took the mark's samples when it was last passed on.
fn is_taken<W: Write>(mark: &Mark, outputs: &Vec<Waiting<W>>) -> bool
    ensures { IsTrue result ↔ IsTaken outputs.now.items mark.now }
{
    match outputs.get(mark.output) {
        Some(output) => mark.least <= output.taken(),
        None => false,
    }
}

/// How many octets of the replies, of which so many wait, tell of no samples but such as the outputs took when they were last
/// passed on: those before the first that tells of others.
pub(crate) fn true_octets<W: Write>(
    marks: &[Mark],
    outputs: &Vec<Waiting<W>>,
    replies: usize,
) -> usize
    ensures within { result ≤ replies }
    ensures sure { All (λ mark. mark.before < result → IsTaken outputs.now.items mark) marks.now }
    ensures most { result < replies → Any (λ mark. (mark.before ≡ result) × ¬ IsTaken outputs.now.items mark) marks.now }
{
    let mut count = replies;
    for mark in marks {
        if !is_taken(mark, outputs) {
            count = count.min(mark.before);
        }
    }
    count
}
