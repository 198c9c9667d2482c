//! How instances go, and the host with them.
ghost use Rattle.std.specs.Prelude.{◌≡◌, false, OnErr};
ghost use Rattle.host_spec.specs.Calls.Call.{Delete};
ghost use Rattle.alg_host.specs.Hosts.{lives, HostCallRefines};

use crate::Host;
use ialg::{Ialg, Refusal};

impl<M: Ialg> Host<M> {
    /// Deletes instance `i`: it is deactivated if it is active, algFree is called, its records go, and its group's blocks with the last
    /// member of the group. The count of activations stays.
    ///
    /// # Errors
    ///
    /// `Range` where the number is past the last, and `Missing` where no instance has it. Nothing has happened then.
    pub fn delete(&mut self, i: u8) -> Result<(), Refusal>
        ensures refused { OnErr result (self.new ≡ self.old) }
        ensures gone { lives self.new i ≡ false }
        ensures machine { HostCallRefines M.law (Delete i result) self.old self.new }
    {
        host_instances::delete(&mut self.tables, &mut self.spaces, self.poison, i)
    }

    /// Deletes every instance, in ascending number, and gives all memory back.
    pub fn close(self) {
        let Host {
            tables,
            spaces,
            poison,
        } = self;
        host_instances::close(tables, spaces, poison);
    }
}
