//! How instances begin.
ghost use Rattle.std.specs.Prelude.{◌≡◌, OnErr};
ghost use Rattle.host_spec.specs.Calls.Call.{Create};
ghost use Rattle.alg_host.specs.Hosts.{HostCallRefines};

use crate::Host;
use ialg::{Ialg, Params, Refusal};

impl<M: Ialg> Host<M> {
    /// Creates instance `i` of this kind in the group, by these parameters. It is idle. Every place is found before any instance is
    /// called, while the group's old blocks stand; where one of these is replaced, the active member is deactivated and each other member
    /// is told. algInit is called last.
    ///
    /// # Errors
    ///
    /// `Range` where a number is past the last, `Taken` where an instance has the number, `Params` where the kind refuses the parameters,
    /// and `Room` with the space of the first record or block that has no place. Nothing has happened then.
    pub fn create(&mut self, i: u8, kind: M, group: u8, p: &Params) -> Result<(), Refusal>
        ensures refused { OnErr result (self.new ≡ self.old) }
        ensures machine { HostCallRefines M.law (Create i kind group p.now.items result) self.old self.new }
    {
        host_instances::create(
            &mut self.tables,
            &mut self.spaces,
            self.poison,
            i,
            kind,
            group,
            p,
        )
    }
}
