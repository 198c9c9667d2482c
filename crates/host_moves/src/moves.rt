//! Moves: the next block of a space is slid down to its packed place, and whoever has records in it is told.
ghost use Rattle.std.specs.Prelude.{◌≡◌, ◌<◌, length, true, false, is_some, IsSome};
ghost use Rattle.record_loans.specs.Pieces.{piece_at};
ghost use Rattle.mem_rec.specs.declared.TheConstants.{GROUPS};
ghost use Rattle.host_shared.specs.Locations.{shared_at};
ghost use Rattle.host_map.specs.declared.placed.Owner.{Owner};
ghost use Rattle.host_moves.specs.Moves.{has_next, FirstArePacked, IsNextAlign, IsNextIndex, IsNextOf, Moved};
ghost use Rattle.host_table.specs.Steps.{AreConsistent};
ghost use Rattle.host_moves.specs.Standing.{MapAgrees};
ghost use Rattle.host_moves.specs.Waiting.{piece_owned};

use crate::blocks::{put_block, take_block};
use crate::order::in_order;
use crate::records::take_own;
use crate::told::{call_moved_of_sharers, tell};
use host_map::Owner;
use host_shared::{put_moved, sees, take_to_move};
use host_spaces::Spaces;
use host_table::{Tables, call_moved_in_group};
use ialg::Ialg;
use mem_rec::Space;
use space_raw::end_none;

/// Moves a record that an instance has for its own.
#[inline(always)]
fn move_own<M: Ialg>(
    tables: &mut Tables<M>,
    spaces: &mut Spaces,
    space: Space,
    i: u8,
    k: u8,
    index: usize,
)
    requires ok { AreConsistent tables.old }
    requires standing { MapAgrees tables.old spaces.old }
    requires next { IsNextOf spaces.old space (Owner.Record i k) }
    requires index { IsNextIndex spaces.old space index }
    requires own { IsSome (piece_owned tables.old.instances i k) }
    requires unshared { is_some (piece_at (shared_at tables.old.sharing i) k) ≡ false }
    ensures { Moved M.law space tables.old spaces.old tables.new spaces.new }
{
    let piece = take_own(&mut tables.instances, i, k as usize);
    let moved = spaces.make_move(space, piece, index);
    in_order(spaces);
    tell(tables, i, Some((k as usize, moved)));
}

/// Moves a write-once record that instance `i` owns, and calls algMoved of every instance that shares it.
#[inline(always)]
fn move_once<M: Ialg>(
    tables: &mut Tables<M>,
    spaces: &mut Spaces,
    space: Space,
    i: u8,
    k: u8,
    index: usize,
)
    requires ok { AreConsistent tables.old }
    requires standing { MapAgrees tables.old spaces.old }
    requires next { IsNextOf spaces.old space (Owner.Record i k) }
    requires index { IsNextIndex spaces.old space index }
    requires number { i < length tables.old.sharing }
    requires shared { IsSome (piece_at (shared_at tables.old.sharing i) k) }
    ensures { Moved M.law space tables.old spaces.old tables.new spaces.new }
{
    let piece = take_to_move(&mut tables.sharing, i as usize, k as usize);
    let moved = spaces.make_move(space, piece, index);
    in_order(spaces);
    put_moved(&mut tables.sharing, i as usize, k as usize, moved);
    call_moved_of_sharers(tables, i, k as usize);
}

/// Moves the block of a group.
#[inline(never)]
fn move_block<M: Ialg>(
    tables: &mut Tables<M>,
    spaces: &mut Spaces,
    space: Space,
    g: u8,
    align: u32,
    index: usize,
)
    requires ok { AreConsistent tables.old }
    requires standing { MapAgrees tables.old spaces.old }
    requires number { g < GROUPS }
    requires next { IsNextOf spaces.old space (Owner.Scratch g) }
    requires index { IsNextIndex spaces.old space index }
    requires align { IsNextAlign spaces.old space align }
    ensures { Moved M.law space tables.old spaces.old tables.new spaces.new }
{
    match take_block(&mut tables.groups, g, space) {
        Some(piece) => {
            let moved = spaces.make_move(space, piece, index);
            in_order(spaces);
            let old = put_block(&mut tables.groups, g, space, moved, align);
            end_none(old);
            call_moved_in_group(tables, g);
        }
        None => unreachable!(),
    }
}

/// Makes the next move of a space: its first block that isn't at its packed place is slid down to it, with its words, and each instance
/// that has words in it is told, in ascending number: its owner, and all that share the record with it, or each member of its group. Says
/// whether a block moved. So many of the first blocks as `packed` says are known to be at their packed places, and it says so of the moved
/// ones too.
#[inline(always)]
pub fn make_next_move<M: Ialg>(
    tables: &mut Tables<M>,
    spaces: &mut Spaces,
    space: Space,
    packed: &mut usize,
) -> bool
    requires ok { AreConsistent tables.old }
    requires standing { MapAgrees tables.old spaces.old }
    requires front { FirstArePacked packed.old spaces.old space }
    ensures answer { result ≡ has_next spaces.old space }
    ensures moved { result ≡ true → Moved M.law space tables.old spaces.old tables.new spaces.new }
    ensures packed { result ≡ false → (tables.new ≡ tables.old) × (spaces.new ≡ spaces.old) }
    ensures front { FirstArePacked packed.new spaces.new space }
{
    let Some(block) = spaces.next_move_behind(space, packed) else {
        return false;
    };
    // it is the last of those that are packed once it has moved
    let index = *packed - 1;
    match block.owner {
        Owner::Record(i, k) => {
            if sees(&tables.sharing, i as usize, k as usize) {
                move_once(tables, spaces, space, i, k, index);
            } else {
                move_own(tables, spaces, space, i, k, index);
            }
        }
        Owner::Scratch(g) => move_block(tables, spaces, space, g, block.align, index),
    }
    true
}
