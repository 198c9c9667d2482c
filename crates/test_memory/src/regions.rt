//! Worked cases, and callers that are proved from the contracts alone.
ghost use Rattle.std.specs.Prelude.{◌≡◌, ◌+◌, ◌<◌, ◌≤◌, [], ◌∷◌, length, replicate, slice_set, slice_index_or, pos};
ghost use Rattle.space_raw.specs.Slots.{run_of, with_run, IsRun};

use space_raw::{Piece, Region, Rest};
use std::alloc::Global;
use std::test::Fail;
use test_doubles::Metered;

const ONE_TO_TWELVE: [i16; 12] = [1, 2, 3, 4, 5, 6, 7, 8, 9, 10, 11, 12];

/// Fills a piece with a word.
fn fill(piece: &mut Piece, word: i16)
    ensures place { (piece.new.region ≡ piece.old.region) × (piece.new.place ≡ piece.old.place) }
    ensures words { piece.new.words ≡ replicate (length piece.old.words) word }
{
    piece.words_mut().fill(word);
}

/// Writes one word of a piece.
fn set(piece: &mut Piece, i: usize, word: i16)
    requires inside { i < length piece.old.words }
    ensures place { (piece.new.region ≡ piece.old.region) × (piece.new.place ≡ piece.old.place) }
    ensures words { piece.new.words ≡ slice_set piece.old.words i word }
{
    piece.words_mut()[i] = word;
}

/// Reads one word of a piece.
fn get(piece: &Piece, i: usize) -> i16
    requires inside { i < length piece.now.words }
    ensures value { result ≡ slice_index_or piece.now.words i (pos 0) }
{
    piece.words()[i]
}

/// Other words stay when a tag is written.
fn tag_behind(rest: &mut Rest, other: u32, place: u32, tag: (i16, i16))
    requires there { IsRun rest.old.slots place 2 × IsRun rest.old.slots other 2 }
    requires behind { other + 2 ≤ place }
    ensures region { rest.new.region ≡ rest.old.region }
    ensures words { rest.new.slots ≡ with_run rest.old.slots place (tag.0 ∷ tag.1 ∷ []) }
    ensures others { run_of rest.new.slots other 2 ≡ run_of rest.old.slots other 2 }
{
    rest.set_tag(place, tag);
}

/// A piece that leaves the rest and comes back changes nothing.
fn leave_and_return(rest: &mut Rest, place: u32, len: u32)
    requires some { 0 < len }
    requires there { IsRun rest.old.slots place len }
    ensures same { rest.new ≡ rest.old }
{
    let piece = rest.carve(place, len);
    rest.absorb(piece);
}

#[test]
fn a_region_is_one_piece_of_zeros(rt: HostRuntime) -> Result<(), Fail> {
    for words in [0u32, 4, 12, 65_536, 100_000] {
        let (region, all) = Region::make(rt.alloc(), words)?;
        assert!(rt; (all.place(), all.len()) == (0, words));
        assert!(rt; all.words().iter().all(|word| *word == 0));
        region.close(all);
    }
    Ok(())
}

#[test]
fn a_block_slides_over_itself(rt: HostRuntime) -> Result<(), Fail> {
    let (region, mut all) = Region::make(rt.alloc(), 12)?;
    all.words_mut().copy_from_slice(&ONE_TO_TWELVE);
    let (hole, block) = all.split(4);
    let (block, hole) = Piece::slide(hole, block);
    assert!(rt; (block.place(), hole.place(), hole.len()) == (0, 8, 4));
    assert!(rt; block.words() == [5i16, 6, 7, 8, 9, 10, 11, 12].as_slice());
    region.close(block.join(hole));
    Ok(())
}

#[test]
fn words_are_those_last_written(rt: HostRuntime) -> Result<(), Fail> {
    let (region, mut all) = Region::make(rt.alloc(), 4)?;
    fill(&mut all, 7);
    set(&mut all, 2, -1);
    assert!(rt; (get(&all, 0), get(&all, 2), get(&all, 3)) == (7, -1, 7));
    let (mut left, mut right) = all.split(1);
    left.apart(&mut right);
    assert!(rt; right.words() == [7i16, -1, 7].as_slice());
    region.close(left.join(right));
    Ok(())
}

#[test]
fn a_piece_leaves_the_rest_and_comes_back(rt: HostRuntime) -> Result<(), Fail> {
    let (region, mut all) = Region::make(rt.alloc(), 12)?;
    all.words_mut().copy_from_slice(&ONE_TO_TWELVE);
    let mut rest = Rest::of(all);
    leave_and_return(&mut rest, 1, 3);
    let mut piece = rest.carve(4, 3);
    rest.apart(&mut piece);
    assert!(rt; piece.place() == 4);
    assert!(rt; piece.words() == [5i16, 6, 7].as_slice());
    tag_behind(&mut rest, 2, 7, (2, -1));
    assert!(rt; rest.tag(7) == (2, -1));
    assert!(rt; rest.tag(2) == (3, 4));
    piece.words_mut()[1] = 0;
    rest.absorb(piece);
    let all = rest.whole();
    assert!(rt; all.words() == [1i16, 2, 3, 4, 5, 0, 7, 2, -1, 10, 11, 12].as_slice());
    region.close(all);
    Ok(())
}

// What came of asking for a region and closing it again.
#[derive(Drop)]
struct Asked {
    is_made: bool,
    // how often memory was asked for
    requests: u64,
    // how many blocks came back
    returned: u64,
}

/// The request of that number is refused.
fn ask(alloc: Global, words: u32, refused: u64) -> Asked {
    let metered = Metered::refusing(alloc, refused);
    let is_made = match Region::make(&metered, words) {
        Ok((region, all)) => {
            region.close(all);
            true
        }
        Err(_refused) => false,
    };
    Asked {
        is_made,
        requests: metered.requests(),
        returned: metered.returned(),
    }
}

#[test]
fn memory_is_asked_for_once_and_given_back_once(rt: HostRuntime) {
    for words in [0u32, 4, 12, 65_536, 100_000] {
        let granted = ask(rt.alloc(), words, 1);
        assert!(rt; (granted.is_made, granted.requests, granted.returned) == (true, 1, 1));
        let refused = ask(rt.alloc(), words, 0);
        assert!(rt; (refused.is_made, refused.requests, refused.returned) == (false, 1, 0));
    }
}
