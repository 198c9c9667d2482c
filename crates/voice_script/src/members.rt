//! The members of a channel.
ghost use Rattle.std.specs.Prelude.{◌≡◌, ◌≤◌, [], length, None, IfSome};
ghost use Rattle.voice_script.specs.declared.limits.TheConstants.{MEMBERS};

use crate::limits::MEMBERS;
use arrayvec::ArrayVec;

/// Numbers of members, as many as were read so far.
pub(crate) type MemberNumbers = ArrayVec<u8, MEMBERS>;

/// The numbers of a channel's members, one or more, in their order.
#[derive(Drop)]
pub struct Members {
    numbers: MemberNumbers,
    ghost some: { 1 ≤ length numbers.items },
}

impl Members {
    /// These members, where there is one.
    pub(crate) fn of(numbers: MemberNumbers) -> Option<Members>
        ensures some { IfSome result (λ members. members.numbers ≡ numbers) }
        ensures none { result ≡ None → numbers.items ≡ [] }
    {
        if numbers.is_empty() {
            None
        } else {
            Some(Members { numbers })
        }
    }

    /// The numbers.
    pub fn as_slice(&self) -> &[u8]
        ensures value { result.now ≡ self.now.numbers.items }
        ensures some { 1 ≤ length result.now }
        ensures few { length result.now ≤ MEMBERS }
    {
        self.numbers.as_slice()
    }
}
