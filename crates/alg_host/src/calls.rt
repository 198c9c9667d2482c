//! What an instance is given: controls and blocks of samples.
ghost use Rattle.std.specs.Prelude.{◌≡◌, ◌≤◌, true, [], ◌∷◌, length, IfSome, OnErr};
ghost use Rattle.ialg.specs.Views.{control_of};
ghost use Rattle.host_spec.specs.Calls.Call.{Control, Process, Lives};
ghost use Rattle.host_moves.specs.Refinement.{told};
ghost use Rattle.alg_host.specs.Hosts.{lives, HostCallRefines};

use crate::Host;
use crate::table_calls::{give_block, give_control};
use ialg::{BLOCK_SAMPLES, Block, Ctl, Ialg, Refusal, Status};

impl<M: Ialg> Host<M> {
    /// Whether an instance lives under the number.
    pub fn living(&self, i: u8) -> bool
        ensures value { result ≡ lives self.now i }
        ensures machine { HostCallRefines M.law (Lives i result) self.now self.now }
    {
        self.tables.lives(i)
    }

    /// Gives instance `i` a control. It becomes the active member of its group, unless it is so already.
    ///
    /// # Errors
    ///
    /// `Range` where the number is past the last, `Missing` where no instance has it, and `Command` where its kind doesn't take the
    /// control. A refused control changes nothing.
    pub fn control(&mut self, i: u8, c: &Ctl) -> Result<Status, Refusal>
        ensures refused { OnErr result (self.new ≡ self.old) }
        ensures machine { HostCallRefines M.law (Control i (control_of c.now) (told result)) self.old self.new }
    {
        give_control(&mut self.tables, self.poison, i, c)
    }

    /// Gives instance `i` a block of samples, and pushes what it gives out, no more samples than it got. It becomes the active member of
    /// its group, unless it is so already.
    pub fn process(&mut self, i: u8, input: &[i16], out: &mut Block)
        requires living { lives self.old i ≡ true }
        requires empty { out.old.items ≡ [] }
        requires some { 1 ≤ length input.now }
        requires within { length input.now ≤ BLOCK_SAMPLES }
        ensures bounded { length out.new.items ≤ length input.now }
        ensures machine { HostCallRefines M.law (Process i input.now out.new.items) self.old self.new }
    {
        give_block(&mut self.tables, self.poison, i, input, out);
    }

    /// What instance `i` gives for the one sample `x`, where it is active and that is told by reading its records alone: it has taken the
    /// sample then, as [`process`](Host::process) would have given it. None: it has to be given the sample.
    #[inline(always)]
    pub fn process_sample(&self, i: u8, x: i16) -> Option<i16>
        ensures machine { IfSome result (λ y. HostCallRefines M.law (Process i (x ∷ []) (y ∷ [])) self.now self.now) }
    {
        self.tables.process_sample(i, x)
    }
}
