//! Groups: their active member, and how often one was activated.
ghost use Rattle.std.specs.Prelude.{◌≡◌, OnErr};
ghost use Rattle.host_spec.specs.Calls.Call.{Release, Stat as StatCall};
ghost use Rattle.host_moves.specs.Refinement.{stat_told};
ghost use Rattle.alg_host.specs.Hosts.{HostCallRefines};

use crate::Host;
use crate::table_calls::{deactivate_group, stat};
use host_map::Stat;
use ialg::{Ialg, Refusal};

impl<M: Ialg> Host<M> {
    /// Deactivates the active member of the group, and says whether there was one. The count of activations stays.
    ///
    /// # Errors
    ///
    /// `Range` where the number is past the last group's. Nothing has happened then.
    pub fn release(&mut self, group: u8) -> Result<bool, Refusal>
        ensures refused { OnErr result (self.new ≡ self.old) }
        ensures machine { HostCallRefines M.law (Release group result) self.old self.new }
    {
        deactivate_group(&mut self.tables, self.poison, group)
    }

    /// The active member of the group and its count of activations.
    ///
    /// # Errors
    ///
    /// `Range` where the number is past the last group's.
    pub fn stat(&self, group: u8) -> Result<Stat, Refusal>
        ensures machine { HostCallRefines M.law (StatCall group (stat_told result)) self.now self.now }
    {
        stat(&self.tables, group)
    }
}
