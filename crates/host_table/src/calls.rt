//! What an active instance is given.
ghost use Rattle.std.specs.Prelude.{◌≡◌, ◌≤◌, ℤ, [], length, Option, None, IsSome, IfSome, IfNone, OnSome, is_some};
ghost use Rattle.ialg.specs.Views.{control_of, answer_of};
ghost use Rattle.ialg.specs.Log.Called.{Activate};
ghost use Rattle.host_table.specs.Table.{slot_at, group_of, activity_at, newly_active_in, IsActiveAt, IsIdleAt};
ghost use Rattle.host_table.specs.Steps.{Ready, Stays, called_at, given, GivesOut, AnswersTo, AreConsistent, ActivatesAndControls, ActivatesAndFeeds, SaysWhetherTaken, TellsOutput};
ghost use Rattle.host_table.specs.Turns.{AnswersInAnyHost, GivesOutInAnyHost, ObeysInAnyHost, StepsInAnyHost};

use crate::member::make_active;
use crate::tables::Tables;
use ialg::{BLOCK_SAMPLES, Block, Ctl, Ialg, Status};
use lifecycle::Inst;

impl<M: Ialg> Tables<M> {
    /// Gives the active instance a block of samples.
    fn run(&mut self, i: u8, input: &[i16], out: &mut Block)
        requires active { IsActiveAt self.old.instances i }
        requires ok { AreConsistent self.old }
        requires empty { out.old.items ≡ [] }
        requires some { 1 ≤ length input.now }
        requires within { length input.now ≤ BLOCK_SAMPLES }
        ensures step { StepsInAnyHost M.law self.old self.new (activity_at self.old.groups) (given i input.now) }
        ensures bounded { length out.new.items ≤ length input.now }
        ensures output { (w : Option ℤ) → GivesOut M.law w self.old i input.now out.new.items }
    {
        match &mut self.instances[i as usize] {
            Some(member) => {
                let group = &mut self.groups[member.group as usize];
                match &mut member.inst {
                    Inst::Running(active) => {
                        active.run(&mut self.sharing, i, group, input, out);
                    }
                    Inst::Idling(_) => unreachable!(),
                }
            }
            None => unreachable!(),
        }
    }

    /// Activates the instance, whose group has no active member, and gives it a block of samples.
    fn activate_and_run(&mut self, i: u8, g: u8, input: &[i16], out: &mut Block)
        requires living { IsSome (slot_at self.old.instances i) }
        requires group { g ≡ group_of (slot_at self.old.instances i) }
        requires idle { IsIdleAt self.old.instances i }
        requires resting { (activity_at self.old.groups g).active ≡ None }
        requires ok { AreConsistent self.old }
        requires empty { out.old.items ≡ [] }
        requires some { 1 ≤ length input.now }
        requires within { length input.now ≤ BLOCK_SAMPLES }
        ensures step { StepsInAnyHost M.law self.old self.new (newly_active_in self.old.groups g i)
            (λ histories. given i input.now (called_at i Activate histories)) }
        ensures bounded { length out.new.items ≤ length input.now }
        ensures output { GivesOutInAnyHost M.law self.old i input.now out.new.items }
    {
        match &mut self.instances[i as usize] {
            Some(member) => match &mut member.inst {
                Inst::Idling(idle) => {
                    idle.activate_and_run(
                        &mut self.sharing,
                        i,
                        &mut self.groups[g as usize],
                        input,
                        out,
                    );
                    make_active(&mut self.instances, i);
                }
                Inst::Running(_) => unreachable!(),
            },
            None => unreachable!(),
        }
    }

    /// Gives the active instance a control that it accepts.
    fn control_active(&mut self, i: u8, c: &Ctl) -> Status
        requires active { IsActiveAt self.old.instances i }
        requires ok { AreConsistent self.old }
        ensures step { ObeysInAnyHost M.law i (control_of c.now) self.old self.new }
        ensures status { AnswersInAnyHost M.law self.old i (control_of c.now) (answer_of result) }
    {
        match &mut self.instances[i as usize] {
            Some(member) => {
                let group = &mut self.groups[member.group as usize];
                match &mut member.inst {
                    Inst::Running(active) => { active.control(&mut self.sharing, i, group, c) }
                    Inst::Idling(_) => unreachable!(),
                }
            }
            None => unreachable!(),
        }
    }

    /// Whether the instance takes the control.
    fn accepts(&self, i: u8, c: &Ctl) -> bool
        requires living { IsSome (slot_at self.now.instances i) }
        ensures { (w : Option ℤ) → SaysWhetherTaken M.law w self.now i (control_of c.now) result }
    {
        match &self.instances[i as usize] {
            Some(member) => match &member.inst {
                Inst::Idling(idle) => idle.accepts(c),
                Inst::Running(active) => active.accepts(c),
            },
            None => unreachable!(),
        }
    }

    /// Gives the instance a block of samples. It is activated first, unless it is active; another active member of its group is
    /// deactivated before.
    pub fn process(&mut self, poison: Option<i16>, i: u8, input: &[i16], out: &mut Block)
        requires living { IsSome (slot_at self.old.instances i) }
        requires ready { Ready poison self.old }
        requires empty { out.old.items ≡ [] }
        requires some { 1 ≤ length input.now }
        requires within { length input.now ≤ BLOCK_SAMPLES }
        ensures step { ActivatesAndFeeds M.law poison i input.now self.old self.new }
        ensures bounded { length out.new.items ≤ length input.now }
        ensures output { GivesOut M.law poison self.old i input.now out.new.items }
    {
        let Some(g) = self.idle_in(i) else {
            self.run(i, input, out);
            return;
        };
        let _deactivated = self.deactivate_in(poison, g);
        self.activate_and_run(i, g, input, out);
    }

    /// What the instance gives for the one sample `x`, where it is active and that is told by reading its records alone, as
    /// [`Ialg::process_sample`] does: it has taken the sample then, as [`process`](Tables::process) would have given it. None: it has to be
    /// given the sample.
    ///
    /// Inlined, since it is less work than a call.
    #[inline(always)]
    pub fn process_sample(&self, i: u8, x: i16) -> Option<i16>
        requires ok { AreConsistent self.now }
        ensures told { IfSome result (TellsOutput M.law self.now i x) }
    {
        match self.instances.get(i as usize) {
            Some(Some(member)) => match &member.inst {
                Inst::Running(active) => active.process_sample(&self.sharing, i, x),
                Inst::Idling(_) => None,
            },
            _ => None,
        }
    }

    /// Gives the instance a control, activated as for a block. None where its kind doesn't take the control: then nothing has happened.
    pub fn control(&mut self, poison: Option<i16>, i: u8, c: &Ctl) -> Option<Status>
        requires living { IsSome (slot_at self.old.instances i) }
        requires ready { Ready poison self.old }
        ensures stays { Stays poison self.old self.new }
        ensures taken { SaysWhetherTaken M.law poison self.old i (control_of c.now) (is_some result) }
        ensures refused { IfNone result (self.new ≡ self.old) }
        ensures step { OnSome result (ActivatesAndControls M.law poison i (control_of c.now) self.old self.new) }
        ensures status { IfSome result (λ answer. AnswersTo M.law poison self.old i (control_of c.now) (answer_of answer)) }
    {
        if !self.accepts(i, c) {
            return None;
        }
        self.activate(poison, i);
        Some(self.control_active(i, c))
    }
}
