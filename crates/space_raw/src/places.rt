//! The right to places of a region. A place has one owner at a time.
ghost use Rattle.std.specs.Prelude.{◌≡◌, ℕ, List, Bool, true, length, replicate};
ghost use Rattle.space_raw.specs.Marks.{marked_own, within, outside, union, Disjoint};

use std::marker::Model;

// It owns the places that are marked, of the region of that name. It takes no space, and its calls do nothing when they run.
#[derive(Drop)]
pub(crate) struct Places {
    ghost name: { ℕ },
    ghost marks: { List Bool },
}

impl Model for Places {
    ghost also_owns = { λ p. marked_own p.name 0 p.marks };
}

impl Places {
    ghost use Rattle.space_raw.specs.Owners.{OwnsPlaces};

    /// All places of a new region. With size 0 it stands for an owner that was moved out of its field.
    pub(crate) fn make(size: usize) -> Places
        ensures marks { result.marks ≡ replicate size true }
    {
        Places {}
    }

    /// Those from a place on, and the others.
    pub(crate) fn part(self, place: usize, len: usize) -> (Places, Places)
        ensures inner { OwnsPlaces result.0 self (within place len self.marks) }
        ensures outer { OwnsPlaces result.1 self (outside place len self.marks) }
    {
        let Places {} = self;
        (Places {}, Places {})
    }

    /// The places of both.
    pub(crate) fn unite(self, other: Places) -> Places
        requires region { (other.name ≡ self.name) × (length other.marks ≡ length self.marks) }
        ensures both { OwnsPlaces result self (union self.marks other.marks) }
    {
        let Places {} = self;
        let Places {} = other;
        Places {}
    }

    /// Both come back as they were: it only shows that they share no place.
    pub(crate) fn apart(self, other: Places) -> (Places, Places)
        requires region { other.name ≡ self.name }
        ensures same { (result.0 ≡ self) × (result.1 ≡ other) }
        ensures apart { Disjoint self.marks other.marks }
    {
        let Places {} = self;
        let Places {} = other;
        (Places {}, Places {})
    }
}
