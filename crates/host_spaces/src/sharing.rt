//! Blocks of records that several instances share.
ghost use Rattle.std.specs.Prelude.{◌≡◌, Some};
ghost use Rattle.host_map.specs.declared.placed.Owner.{Owner};
ghost use Rattle.host_map.specs.declared.placed.Owner.TheVariants.{Record};
ghost use Rattle.host_map.specs.Blocks.{renaming};
ghost use Rattle.host_spaces.specs.MemoryMap.{AreSameSpaces, map_of};
ghost use Rattle.host_map.specs.MemoryMap.{renamed};
ghost use Rattle.host_map.specs.Creation.{handed_on, only, taken_over, sharer_at};
ghost use Rattle.host_spaces.specs.MapChanges.{AllButHandedStay, AllButTakenStay, AreHanded, AreTaken, OwnerHasNone, SharersHaveNone};

use crate::spaces::Spaces;
use crate::wants::Sharers;
use host_map::Owner;
use mem_rec::TABLE_RECORDS;

impl Spaces {
    /// What is the block of one owner is another owner's from now on, in each space.
    fn rename(&mut self, from: Owner, to: Owner)
        ensures map { map_of self.new ≡ renamed (renaming from to) (map_of self.old) }
        ensures stays { AreSameSpaces self.old self.new }
    {
        self.daram.rename(from, to);
        self.saram.rename(from, to);
        self.external.rename(from, to);
    }

    /// Where instance `i` has come to share record `k` with a sharer of a greater number, that block is `i`'s from now on.
    fn take_record(&mut self, i: u8, k: u8, sharer: Option<u8>)
        ensures map { map_of self.new ≡ renamed (taken_over (only k sharer) i) (map_of self.old) }
        ensures stays { AreSameSpaces self.old self.new }
    {
        match sharer {
            Some(sharer) => {
                if i < sharer {
                    self.rename(Owner::Record(sharer, k), Owner::Record(i, k));
                }
            }
            None => {}
        }
    }

    /// Where instance `i` shared record `k` with a sharer, that block is the sharer's from now on.
    fn hand_record(&mut self, i: u8, k: u8, sharer: Option<u8>)
        ensures map { map_of self.new ≡ renamed (handed_on (only k sharer) i) (map_of self.old) }
        ensures stays { AreSameSpaces self.old self.new }
    {
        match sharer {
            Some(sharer) => self.rename(Owner::Record(i, k), Owner::Record(sharer, k)),
            None => {}
        }
    }

    /// Instance `i` has come to share the records that have a sharer. The owner of a shared block is the least instance that shares it:
    /// where `i` is less than the sharer, that block is `i`'s from now on.
    pub fn take_over(&mut self, i: u8, sharers: &Sharers)
        ensures map { map_of self.new ≡ renamed (taken_over (sharer_at sharers.now) i) (map_of self.old) }
        ensures taken { AreTaken (sharer_at sharers.now) i (map_of self.old) (map_of self.new) }
        ensures left { SharersHaveNone (sharer_at sharers.now) i (map_of self.new) }
        ensures others { AllButTakenStay (sharer_at sharers.now) i (map_of self.old) (map_of self.new) }
        ensures stays { AreSameSpaces self.old self.new }
    {
        for k in 0..TABLE_RECORDS {
            self.take_record(i, k as u8, sharers[k]);
        }
    }

    /// Instance `i` goes: what it shared is its sharer's from now on, the least of those that are left.
    pub fn hand_on(&mut self, i: u8, sharers: &Sharers)
        ensures map { map_of self.new ≡ renamed (handed_on (sharer_at sharers.now) i) (map_of self.old) }
        ensures handed { AreHanded (sharer_at sharers.now) i (map_of self.old) (map_of self.new) }
        ensures left { OwnerHasNone (sharer_at sharers.now) i (map_of self.new) }
        ensures others { AllButHandedStay (sharer_at sharers.now) i (map_of self.old) (map_of self.new) }
        ensures stays { AreSameSpaces self.old self.new }
    {
        for k in 0..TABLE_RECORDS {
            self.hand_record(i, k as u8, sharers[k]);
        }
    }
}
