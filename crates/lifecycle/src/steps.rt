//! The calls of an algorithm as steps for which its records are lent.
ghost use Rattle.std.specs.Prelude.{◌≡◌, ℕ, ℤ, ◌≤◌, Bool, List, [], length};
ghost use Rattle.ialg.specs.declared.TheConstants.{BLOCK_SAMPLES};
ghost use Rattle.ialg.specs.Views.{control_of, answer_of};
ghost use Rattle.lifecycle.specs.Laws.{StaysOnce, Started, Activated, HasRun, ActivatedAndRan, Controlled, Deactivated, Moved, Freed};

use ialg::{Block, Ctl, Ialg, Lent, Params, Status, Step};
use mem_rec::MemTab;

/// algInit.
#[derive(Drop)]
pub(crate) struct Init<'a, M> {
    pub(crate) kind: M,
    pub(crate) params: &'a Params,
}

impl<M: Ialg> Step<()> for Init<'_, M> {
    ghost can = { λ s o. Unit {0} };

    ghost done = { λ s rs writable old new o n. Started M.law s.kind s.params.now.items rs writable old new };

    fn perform(&self, mem: &mut Lent<'_>, _out: &mut ()) {
        let table = mem.table();
        self.kind.alg_init(table, self.params, mem);
    }
}

/// algActivate.
#[derive(Drop)]
pub(crate) struct Activate<M> {
    pub(crate) kind: M,
}

impl<M: Ialg> Step<()> for Activate<M> {
    ghost can = { λ s o. Unit {0} };

    ghost done = { λ s rs writable old new o n. StaysOnce rs writable old new × Activated M.law s.kind rs writable old new };

    fn perform(&self, mem: &mut Lent<'_>, _out: &mut ()) {
        self.kind.alg_activate(mem);
    }
}

/// A block of samples.
#[derive(Drop)]
pub(crate) struct Process<'a, M> {
    pub(crate) kind: M,
    pub(crate) input: &'a [i16],
}

impl<M: Ialg> Step<Block> for Process<'_, M> {
    ghost can = { λ s o. (o.items ≡ []) × (1 ≤ length s.input.now) × (length s.input.now ≤ BLOCK_SAMPLES) };

    ghost done = { λ s rs writable old new o n. StaysOnce rs writable old new × HasRun M.law s.kind s.input.now rs writable old new n.items
        × (length n.items ≤ length s.input.now) };

    #[inline(always)]
    fn perform(&self, mem: &mut Lent<'_>, out: &mut Block) {
        self.kind.process(mem, self.input, out);
    }
}

/// algActivate, and then a block of samples, for which the records are lent once.
#[derive(Drop)]
pub(crate) struct ActivateAndProcess<'a, M> {
    pub(crate) kind: M,
    pub(crate) input: &'a [i16],
}

impl<M: Ialg> Step<Block> for ActivateAndProcess<'_, M> {
    ghost can = { λ s o. (o.items ≡ []) × (1 ≤ length s.input.now) × (length s.input.now ≤ BLOCK_SAMPLES) };

    ghost done = { λ s rs writable old new o n. StaysOnce rs writable old new × ActivatedAndRan M.law s.kind s.input.now rs writable old new n.items
        × (length n.items ≤ length s.input.now) };

    #[inline(always)]
    fn perform(&self, mem: &mut Lent<'_>, out: &mut Block) {
        self.kind.activate_and_process(mem, self.input, out);
    }
}

/// algControl.
#[derive(Drop)]
pub(crate) struct Command<'a, M> {
    pub(crate) kind: M,
    pub(crate) control: &'a Ctl,
}

impl<M: Ialg> Step<Status> for Command<'_, M> {
    ghost can = { λ s o. Unit {0} };

    ghost done = { λ s rs writable old new o n. StaysOnce rs writable old new
        × Controlled M.law s.kind (control_of s.control.now) rs writable old new (answer_of n) };

    fn perform(&self, mem: &mut Lent<'_>, out: &mut Status) {
        *out = self.kind.alg_control(mem, self.control);
    }
}

/// algDeactivate.
#[derive(Drop)]
pub(crate) struct Deactivate<M> {
    pub(crate) kind: M,
}

impl<M: Ialg> Step<()> for Deactivate<M> {
    ghost can = { λ s o. Unit {0} };

    ghost done = { λ s rs writable old new o n. StaysOnce rs writable old new × Deactivated M.law s.kind rs writable old new };

    fn perform(&self, mem: &mut Lent<'_>, _out: &mut ()) {
        self.kind.alg_deactivate(mem);
    }
}

/// algMoved.
#[derive(Drop)]
pub(crate) struct Move<M> {
    pub(crate) kind: M,
}

impl<M: Ialg> Step<()> for Move<M> {
    ghost can = { λ s o. Unit {0} };

    ghost done = { λ s rs writable old new o n. StaysOnce rs writable old new × Moved M.law s.kind rs writable old new };

    fn perform(&self, mem: &mut Lent<'_>, _out: &mut ()) {
        let table = mem.table();
        self.kind.alg_moved(table, mem);
    }
}

/// algFree, which answers the records that the instance holds.
#[derive(Drop)]
pub(crate) struct Free<M> {
    pub(crate) kind: M,
}

impl<M: Ialg> Step<MemTab> for Free<M> {
    ghost can = { λ s o. Unit {0} };

    ghost done = { λ s rs writable old new o n. (new ≡ old) × Freed M.law s.kind rs writable old n };

    fn perform(&self, mem: &mut Lent<'_>, out: &mut MemTab) {
        *out = self.kind.alg_free(mem);
    }
}
