//! A host in miniature.
ghost use Rattle.std.specs.Prelude.{◌≡◌, ◌≤◌, [], length};
ghost use Rattle.ialg.specs.declared.TheConstants.{BLOCK_SAMPLES};
ghost use Rattle.ialg.specs.Loans.{SameLoans};
ghost use Rattle.test_diary.specs.Turns.{TakesTurn, IsToldOnce, HasTurnInDiary};

use crate::Diary;
use ialg::{Block, Ialg, Lent};
use mem_rec::MemTab;

/// Activates an instance of any kind, gives it a block of samples, and deactivates it.
pub fn take_turn<M: Ialg>(kind: M, mem: &mut Lent<'_>, input: &[i16], out: &mut Block)
    requires empty { out.old.items ≡ [] }
    requires some { 1 ≤ length input.now }
    requires within { length input.now ≤ BLOCK_SAMPLES }
    ensures loans { SameLoans mem.old mem.new }
    ensures law { TakesTurn M.law kind input.now mem.old mem.new }
{
    kind.alg_activate(mem);
    kind.process(mem, input, out);
    kind.alg_deactivate(mem);
}

/// Calls algMoved of an idle instance of any kind, once.
pub fn tell<M: Ialg>(kind: M, tab: &MemTab, mem: &mut Lent<'_>)
    ensures loans { SameLoans mem.old mem.new }
    ensures law { IsToldOnce M.law kind tab.now mem.old mem.new }
{
    kind.alg_moved(tab, mem);
}

/// The same turn of a diary: its three calls are the newest that it has.
pub fn take_diary_turn(mem: &mut Lent<'_>, input: &[i16], out: &mut Block)
    requires empty { out.old.items ≡ [] }
    requires some { 1 ≤ length input.now }
    requires within { length input.now ≤ BLOCK_SAMPLES }
    ensures loans { SameLoans mem.old mem.new }
    ensures diary { HasTurnInDiary mem.old mem.new }
{
    take_turn(Diary, mem, input, out);
}
