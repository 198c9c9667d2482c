//! The ports of a command line, in pairs: pair n, from 0 on, is what channel n reads and what it writes.
ghost use Rattle.std.specs.Prelude.{◌≡◌, ◌≤◌, ◌*◌, ◌%◌, length, is_some, IfSome};
ghost use Rattle.std.specs.List.{flat_map};
ghost use Rattle.port_files.specs.Pairs.{is_pairs, both};

use arrayvec::ArrayVec;

/// The most pairs of ports of a command line.
pub const PORT_PAIRS: usize = 16;

/// The words in pairs, in their order.
fn paired<'a>(words: &[&'a str]) -> ArrayVec<(&'a str, &'a str), PORT_PAIRS>
    requires even { length words.now % 2 ≡ 0 }
    requires few { length words.now ≤ 2 * PORT_PAIRS }
    ensures order { flat_map both result.items ≡ words.now }
    ensures count { 2 * length result.items ≡ length words.now }
{
    let mut ports: ArrayVec<(&'a str, &'a str), PORT_PAIRS> = ArrayVec::new();
    for pair in words.chunks_exact(2) {
        ports.push((pair[0], pair[1]));
    }
    ports
}

/// The words in pairs, in their order. None unless they are 1 to [`PORT_PAIRS`] pairs.
pub fn pairs<'a>(words: &[&'a str]) -> Option<ArrayVec<(&'a str, &'a str), PORT_PAIRS>>
    ensures fits { is_some result ≡ is_pairs (length words.now) }
    ensures order { IfSome result (λ ports. flat_map both ports.items ≡ words.now) }
    ensures some { IfSome result (λ ports. 1 ≤ length ports.items) }
{
    if words.is_empty() || words.len() % 2 != 0 || words.len() > 2 * PORT_PAIRS {
        return None;
    }
    Some(paired(words))
}
