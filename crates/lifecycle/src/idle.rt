//! Idle instances.
ghost use Rattle.std.specs.Prelude.{◌≡◌, ◌≤◌, [], length, Some, IsSome};
ghost use Rattle.ialg.specs.Views.{control_of};
ghost use Rattle.record_loans.specs.Pieces.{piece_at};
ghost use Rattle.host_shared.specs.Locations.{shared_at};
ghost use Rattle.host_shared.specs.Owners.{OnlyItsPiecesChange};
ghost use Rattle.lifecycle.specs.Moves.{CanRestore, without_piece};
ghost use Rattle.lifecycle.specs.States.{SaysWhetherAccepted};
ghost use Rattle.lifecycle.specs.Keeping.{Ends};
ghost use Rattle.lifecycle.specs.Turns.{ActivatedSharing, ActivatedAndRanSharing, CanBegin, CanBeLent, CanBeLentAgain, CanBeRead, FreedSharing, IdleFollows, WasStarted};

use crate::Active;
use crate::instance::{Instance, restore};
use crate::performing::{Place, perform, perform_at_rest, settle};
use crate::steps::{Activate, ActivateAndProcess, Free, Init, Move};
use host_shared::Locations;
use ialg::{BLOCK_SAMPLES, Block, Ctl, Ialg, Params, copied};
use mem_rec::MemTab;
use record_loans::Pieces;
use scratch_group::{Group, LentTable};
use space_raw::Piece;

/// An idle instance. Its own pieces and those of its write-once records keep its history.
pub struct Idle<M> {
    pub instance: Instance<M>,
}

impl<M: Ialg> Idle<M> {
    /// An instance that owns these pieces and keeps a copy of the parameters: [`start`](Idle::start) has to follow.
    #[inline(always)]
    pub fn new(kind: M, params: &Params, table: MemTab, own: Pieces) -> Idle<M>
        ensures { result.instance ≡ record { kind = kind; params = params.now; table = table; own = own } }
    {
        Idle {
            instance: Instance {
                kind,
                params: copied(params.as_slice()),
                table: LentTable::of(table),
                own,
            },
        }
    }

    /// Starts the instance of this number, in place: it goes by the places of its pieces and of its group's blocks from now on, and its
    /// write-once records may be written this once.
    pub fn start(&mut self, sharing: &mut Vec<Locations>, i: u8, group: &Group)
        requires { CanBegin self.old.instance sharing.old.items i group.now }
        ensures started { WasStarted M.law i self.old self.new sharing.old.items sharing.new.items group.now }
        ensures lent { CanBeLent self.new.instance sharing.new.items i group.now }
    {
        settle(
            &mut self.instance.table,
            &self.instance.own,
            sharing,
            i as usize,
            group,
        );
        let step = Init {
            kind: self.instance.kind,
            params: &self.instance.params,
        };
        let place = Place {
            number: i as usize,
            table: &self.instance.table,
        };
        let writable = true;
        perform_at_rest(
            &step,
            &place,
            writable,
            &mut self.instance.own,
            sharing,
            &mut (),
        );
    }

    /// Prepares the scratch records, which are lent to the instance of this number from now on: it is the active member of its group, which
    /// had none. [`into_active`](Idle::into_active) has to follow.
    pub fn activate(&mut self, sharing: &mut Vec<Locations>, i: u8, group: &mut Group)
        requires lent { CanBeLent self.old.instance sharing.old.items i group.old }
        ensures seen { OnlyItsPiecesChange i sharing.old.items sharing.new.items }
        ensures did { ActivatedSharing M.law i self.old self.new sharing.old.items sharing.new.items group.old group.new }
        ensures lent { CanBeLent self.new.instance sharing.new.items i group.new }
    {
        let step = Activate {
            kind: self.instance.kind,
        };
        let place = Place {
            number: i as usize,
            table: &self.instance.table,
        };
        perform(
            &step,
            &place,
            &mut self.instance.own,
            sharing,
            group,
            &mut (),
        );
        group.set_active(Some(i));
    }

    /// Prepares the scratch records, as [`activate`](Idle::activate) does, gives the instance a block of samples, and puts what they
    /// give into `out`. The records are lent once for both. [`into_active`](Idle::into_active) has to follow.
    #[inline(always)]
    pub fn activate_and_run(
        &mut self,
        sharing: &mut Vec<Locations>,
        i: u8,
        group: &mut Group,
        input: &[i16],
        out: &mut Block,
    )
        requires lent { CanBeLent self.old.instance sharing.old.items i group.old }
        requires empty { out.old.items ≡ [] }
        requires some { 1 ≤ length input.now }
        requires within { length input.now ≤ BLOCK_SAMPLES }
        ensures seen { OnlyItsPiecesChange i sharing.old.items sharing.new.items }
        ensures did { ActivatedAndRanSharing M.law i input.now out.new.items self.old self.new sharing.old.items sharing.new.items group.old group.new }
        ensures lent { CanBeLent self.new.instance sharing.new.items i group.new }
    {
        let step = ActivateAndProcess {
            kind: self.instance.kind,
            input,
        };
        let place = Place {
            number: i as usize,
            table: &self.instance.table,
        };
        perform(&step, &place, &mut self.instance.own, sharing, group, out);
        group.set_active(Some(i));
    }

    /// The instance as an active one, once it is [activated](Idle::activate).
    pub fn into_active(self) -> Active<M>
        ensures { result.instance ≡ self.instance }
    {
        let Idle { instance } = self;
        Active { instance }
    }

    /// Whether the instance takes the control.
    pub fn accepts(&self, c: &Ctl) -> bool
        ensures { SaysWhetherAccepted M.law.meaning self.now.instance (control_of c.now) result }
    {
        self.instance.kind.accepts(&self.instance.params, c)
    }

    /// The records that the instance of this number holds, as its kind answers.
    pub fn freed(&mut self, sharing: &mut Vec<Locations>, i: u8) -> MemTab
        requires lent { CanBeRead self.old.instance sharing.old.items i }
        ensures seen { OnlyItsPiecesChange i sharing.old.items sharing.new.items }
        ensures did { FreedSharing i self.old self.new sharing.old.items sharing.new.items }
        ensures lent { CanBeRead self.new.instance sharing.new.items i }
        ensures table { Ends M.law self.old.instance (shared_at sharing.old.items i) result }
    {
        let step = Free {
            kind: self.instance.kind,
        };
        let place = Place {
            number: i as usize,
            table: &self.instance.table,
        };
        let mut told = self.instance.table.table().copied();
        let writable = false;
        perform_at_rest(
            &step,
            &place,
            writable,
            &mut self.instance.own,
            sharing,
            &mut told,
        );
        told
    }

    /// Ends the instance, and gives its pieces back, whatever its kind is.
    pub fn finish(self) -> Pieces
        ensures { result ≡ self.instance.own }
    {
        let Idle { instance } = self;
        let Instance {
            kind: _,
            params: _,
            table: _,
            own: pieces,
        } = instance;
        pieces
    }

    /// Takes out the piece of record `k`, to be moved: [`moved`](Idle::moved) has to follow.
    pub fn detach(&mut self, k: usize) -> Piece
        requires { IsSome (piece_at self.old.instance.own k) }
        ensures piece { piece_at self.old.instance.own k ≡ Some result }
        ensures left { self.new.instance ≡ without_piece self.old.instance k }
    {
        self.instance.own.take_out(k)
    }

    /// Goes by the places as they are now, with the piece that was taken out, if one was.
    pub fn moved(
        &mut self,
        back: Option<(usize, Piece)>,
        sharing: &mut Vec<Locations>,
        i: usize,
        group: &Group,
    )
        requires back { CanRestore back self.old.instance.own }
        requires lent { CanBeLentAgain self.old.instance back sharing.old.items i group.now }
        ensures seen { OnlyItsPiecesChange i sharing.old.items sharing.new.items }
        ensures did { IdleFollows M.law back i self.old sharing.old.items self.new sharing.new.items group.now }
        ensures lent { CanBeLent self.new.instance sharing.new.items i group.now }
    {
        restore(&mut self.instance.own, back);
        settle(
            &mut self.instance.table,
            &self.instance.own,
            sharing,
            i,
            group,
        );
        let step = Move {
            kind: self.instance.kind,
        };
        let place = Place {
            number: i,
            table: &self.instance.table,
        };
        let writable = false;
        perform_at_rest(
            &step,
            &place,
            writable,
            &mut self.instance.own,
            sharing,
            &mut (),
        );
    }
}
