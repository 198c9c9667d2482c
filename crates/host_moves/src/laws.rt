//! What leaves records and blocks where they stand.
ghost use Rattle.host_moves.specs.LoanLaws.{BlocksAreApart, MapsHaveRoom, OwnersHaveOneBlock, RecordsAreApart, RecordsAreApartFromBlocks};

use host_spaces::{blocks_are_apart, blocks_are_few};
use ialg::Ialg;

/// The law that no owner has two blocks of a space, so that a map has room for all of them. The call does nothing.
pub fn maps_have_room<M: Ialg>()
    ensures single { OwnersHaveOneBlock M }
    ensures few { MapsHaveRoom M }
{
    blocks_are_few();
}

/// The law that what is lent to one instance is never another's, but for the words of a write-once record among those that are alike in it;
/// and that no record has a word of a group's block, nor two groups' blocks a word in common. The call does nothing.
pub fn loans_are_apart<M: Ialg>()
    ensures records { RecordsAreApart M }
    ensures scratch { RecordsAreApartFromBlocks M }
    ensures groups { BlocksAreApart M }
{
    blocks_are_apart();
}
