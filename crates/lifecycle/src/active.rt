//! Active instances.
ghost use Rattle.std.specs.Prelude.{◌≡◌, ◌≤◌, [], length, Some, IfSome, IsSome};
ghost use Rattle.ialg.specs.Views.{control_of, answer_of};
ghost use Rattle.scratch_group.specs.Readers.{IsReader};
ghost use Rattle.record_loans.specs.Loans.{ReaderFits};
ghost use Rattle.record_loans.specs.Pieces.{only_second, piece_at};
ghost use Rattle.host_shared.specs.Locations.{shared_at};
ghost use Rattle.host_shared.specs.Owners.{OnlyItsPiecesChange};
ghost use Rattle.lifecycle.specs.Moves.{CanRestore, without_piece};
ghost use Rattle.lifecycle.specs.States.{SaysWhetherAccepted};
ghost use Rattle.lifecycle.specs.Keeping.{TellsOutput};
ghost use Rattle.lifecycle.specs.Turns.{ActiveFollowsSharing, CanBeLent, CanBeLentAgain, CanBeRead, ControlledSharing, DeactivatedSharing, RanSharing};

use crate::Idle;
use crate::instance::{Instance, restore};
use crate::performing::{Place, perform, settle};
use crate::steps::{Command, Deactivate, Move, Process};
use host_shared::{Location, Locations, owner};
use ialg::{BLOCK_SAMPLES, Block, Ctl, Ialg, Status};
use record_loans::{ONCE, ReaderSizes, first_words};
use scratch_group::{Group, Loan};
use space_raw::Piece;

/// An active instance. Its own pieces and those of its write-once records keep its history together with the blocks of its
/// group.
pub struct Active<M> {
    pub instance: Instance<M>,
}

impl<M: Ialg> Active<M> {
    /// Gives the instance of this number a block of samples, and puts what they give into `out`.
    #[inline(always)]
    pub fn run(
        &mut self,
        sharing: &mut Vec<Locations>,
        i: u8,
        group: &mut Group,
        input: &[i16],
        out: &mut Block,
    )
        requires lent { CanBeLent self.old.instance sharing.old.items i group.old }
        requires empty { out.old.items ≡ [] }
        requires some { 1 ≤ length input.now }
        requires within { length input.now ≤ BLOCK_SAMPLES }
        ensures seen { OnlyItsPiecesChange i sharing.old.items sharing.new.items }
        ensures did { RanSharing M.law i input.now out.new.items self.old self.new sharing.old.items sharing.new.items group.old group.new }
        ensures lent { CanBeLent self.new.instance sharing.new.items i group.new }
    {
        let step = Process {
            kind: self.instance.kind,
            input,
        };
        let place = Place {
            number: i as usize,
            table: &self.instance.table,
        };
        perform(&step, &place, &mut self.instance.own, sharing, group, out);
    }

    /// What the instance of this number gives for the one sample `x`, where it is a reader whose kind tells it by the words of its records
    /// alone, as [`process_sample`](Ialg::process_sample) does: it has taken the sample then. None: it has to be [run](Active::run).
    #[inline(always)]
    pub fn process_sample(&self, sharing: &Vec<Locations>, i: u8, x: i16) -> Option<i16>
        requires lent { CanBeRead self.now.instance sharing.now.items i }
        ensures told { IfSome result (TellsOutput M.law self.now.instance (shared_at sharing.now.items i) x) }
    {
        let Loan::Reader(sizes) = self.instance.table.loan() else {
            return None;
        };
        let at_owner = owner(sharing, i as usize, ONCE);
        match &sharing[at_owner].s1 {
            Location::Here(once) => self.tell(sizes, once, x),
            Location::At(_owner) => unreachable!(),
        }
    }

    /// What a reader gives for the one sample `x`, where its kind tells it by the words of its records.
    #[inline(always)]
    fn tell(&self, sizes: ReaderSizes, once: &Option<Piece>, x: i16) -> Option<i16>
        requires reader { IsReader self.now.instance.table sizes }
        requires fit { ReaderFits sizes self.now.instance.own once.now }
        ensures told { IfSome result (TellsOutput M.law self.now.instance (only_second once.now) x) }
    {
        // without a piece to read there is nothing to tell a sample by
        if once.is_none() {
            return None;
        }
        let object = first_words(&self.instance.own.p0, sizes.object);
        let words = first_words(once, sizes.once);
        self.instance.kind.process_sample(object, words, x)
    }

    /// Whether the instance takes the control.
    pub fn accepts(&self, c: &Ctl) -> bool
        ensures { SaysWhetherAccepted M.law.meaning self.now.instance (control_of c.now) result }
    {
        self.instance.kind.accepts(&self.instance.params, c)
    }

    /// Gives the instance of this number a control that it accepts.
    pub fn control(
        &mut self,
        sharing: &mut Vec<Locations>,
        i: u8,
        group: &mut Group,
        c: &Ctl,
    ) -> Status
        requires lent { CanBeLent self.old.instance sharing.old.items i group.old }
        ensures seen { OnlyItsPiecesChange i sharing.old.items sharing.new.items }
        ensures did { ControlledSharing M.law i (control_of c.now) (answer_of result) self.old self.new sharing.old.items sharing.new.items group.old
            group.new }
        ensures lent { CanBeLent self.new.instance sharing.new.items i group.new }
    {
        let step = Command {
            kind: self.instance.kind,
            control: c,
        };
        let place = Place {
            number: i as usize,
            table: &self.instance.table,
        };
        let mut answer = Status::Done;
        perform(
            &step,
            &place,
            &mut self.instance.own,
            sharing,
            group,
            &mut answer,
        );
        answer
    }

    /// Saves what has to last of the scratch records, which are lent to the instance of this number no longer: its group has no active
    /// member then, and in a host of a poison word its blocks are filled with it. [`into_idle`](Active::into_idle) has to follow.
    #[inline(always)]
    pub fn deactivate(
        &mut self,
        sharing: &mut Vec<Locations>,
        i: u8,
        group: &mut Group,
        poison: Option<i16>,
    )
        requires lent { CanBeLent self.old.instance sharing.old.items i group.old }
        ensures seen { OnlyItsPiecesChange i sharing.old.items sharing.new.items }
        ensures did { DeactivatedSharing M.law poison i self.old self.new sharing.old.items sharing.new.items group.old group.new }
        ensures lent { CanBeLent self.new.instance sharing.new.items i group.new }
    {
        let step = Deactivate {
            kind: self.instance.kind,
        };
        let place = Place {
            number: i as usize,
            table: &self.instance.table,
        };
        perform(
            &step,
            &place,
            &mut self.instance.own,
            sharing,
            group,
            &mut (),
        );
        group.set_active(None);
        if let Some(word) = poison {
            group.fill(word);
        }
    }

    /// The instance as an idle one, once it is [deactivated](Active::deactivate).
    pub fn into_idle(self) -> Idle<M>
        ensures { result.instance ≡ self.instance }
    {
        let Active { instance } = self;
        Idle { instance }
    }

    /// Takes out the piece of record `k`, to be moved: [`moved`](Active::moved) has to follow.
    pub fn detach(&mut self, k: usize) -> Piece
        requires { IsSome (piece_at self.old.instance.own k) }
        ensures piece { piece_at self.old.instance.own k ≡ Some result }
        ensures left { self.new.instance ≡ without_piece self.old.instance k }
    {
        self.instance.own.take_out(k)
    }

    /// Goes by the places as they are now, with the piece that was taken out, if one was. The instance, of this number, stays active.
    pub fn moved(
        &mut self,
        back: Option<(usize, Piece)>,
        sharing: &mut Vec<Locations>,
        i: usize,
        group: &mut Group,
    )
        requires back { CanRestore back self.old.instance.own }
        requires lent { CanBeLentAgain self.old.instance back sharing.old.items i group.old }
        ensures seen { OnlyItsPiecesChange i sharing.old.items sharing.new.items }
        ensures did { ActiveFollowsSharing M.law back i self.old sharing.old.items self.new sharing.new.items group.old group.new }
        ensures lent { CanBeLent self.new.instance sharing.new.items i group.new }
    {
        restore(&mut self.instance.own, back);
        settle(
            &mut self.instance.table,
            &self.instance.own,
            sharing,
            i,
            group,
        );
        let step = Move {
            kind: self.instance.kind,
        };
        let place = Place {
            number: i,
            table: &self.instance.table,
        };
        perform(
            &step,
            &place,
            &mut self.instance.own,
            sharing,
            group,
            &mut (),
        );
    }
}
