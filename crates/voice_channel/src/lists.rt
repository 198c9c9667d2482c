//! Which instances lists name.
ghost use Rattle.std.specs.Prelude.{◌≡◌, ◌≤◌, length};
ghost use Rattle.std.specs.List.{list_all, list_any};
ghost use Rattle.host_spec.specs.State.{is_instance_number};
ghost use Rattle.channel_spec.specs.Channels.{has_number, has_repeat as repeats};

use crate::{MEMBERS, Members};
use mem_rec::INSTANCES;

/// Whether the list names the instance.
pub(crate) fn is_named(members: &[u8], i: u8) -> bool
    ensures { result ≡ has_number members.now i }
{
    members.iter().any(|j| i == *j)
}

/// Whether one of the lists names the instance.
pub(crate) fn is_in_one(lists: &[Members], i: u8) -> bool
    ensures { result ≡ list_any (λ members. has_number members.items i) lists.now }
{
    lists.iter().any(|members| is_named(members, i))
}

/// Whether the list names an instance twice.
pub(crate) fn names_twice(members: &[u8]) -> bool
    ensures { result ≡ repeats members.now }
{
    match members.split_first() {
        None => false,
        Some((i, further)) => is_named(further, *i) || names_twice(further),
    }
}

/// Whether each is the number of an instance.
pub(crate) fn are_numbers(members: &[u8]) -> bool
    ensures { result ≡ list_all is_instance_number members.now }
{
    members.iter().all(|i| (*i as usize) < INSTANCES)
}

/// These members, as those of a channel.
pub(crate) fn kept(members: &[u8]) -> Members
    requires { length members.now ≤ MEMBERS }
    ensures { result.items ≡ members.now }
{
    let mut kept = Members::new();
    let _fits = kept.try_extend_from_slice(members);
    kept
}
