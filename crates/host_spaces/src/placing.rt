//! Places for all that is needed, or for nothing.
ghost use Rattle.std.specs.Prelude.{◌≡◌, ℕ, ◌<◌, ◌≤◌, length, drop, None, IsSome, IfSome, IfNone, OnOk, OnErr};
ghost use Rattle.ialg.specs.Records.{ArePoison};
ghost use Rattle.host_map.specs.declared.TheConstants.{SPACE_BLOCKS};
ghost use Rattle.host_spaces.specs.declared.wants.TheConstants.{WANTS};
ghost use Rattle.host_spaces.specs.MemoryMap.{AreSameSpaces, space_in};
ghost use Rattle.host_spaces.specs.Wants.{AllAreWithinLimits, AreApartWants, IsGranted, IsWithinLimits, none_granted, somes, want_at};
ghost use Rattle.host_spaces.specs.Changes.{IsPieceOf};
ghost use Rattle.host_spaces.specs.MapChanges.{IsAddedFor, IsAllThatIsNewFor, IsLeastPlaceFor, IsOwnedFor, OtherSpacesStay, OthersStayFor, space_for};
ghost use Rattle.host_spaces.specs.Placing.{HasRoomFrom, PlacesAll};

use crate::granted::Granted;
use crate::spaces::Spaces;
use host_map::Wanted;
use mem_rec::Space;
use space_raw::Piece;

/// A block at its place in its space, which is filled with the poison word, where there is one.
fn place_filled(spaces: &mut Spaces, want: Wanted, poison: Option<i16>) -> Option<Piece>
    requires limits { IsWithinLimits want }
    requires room { length (space_in spaces.old want.space).blocks < SPACE_BLOCKS }
    ensures place { IsLeastPlaceFor want result spaces.old }
    ensures piece { IsPieceOf result (space_for want spaces.old) want.size }
    ensures blocks { IsAddedFor want result spaces.old spaces.new }
    ensures owned { IsOwnedFor want result spaces.old spaces.new }
    ensures others { OthersStayFor want spaces.old spaces.new }
    ensures elsewhere { OtherSpacesStay want.space spaces.old spaces.new }
    ensures back { IsAllThatIsNewFor want result spaces.old spaces.new }
    ensures poison { IfSome result (λ p. ArePoison poison p.words) }
    ensures none { IfNone result (spaces.new ≡ spaces.old) }
    ensures stays { AreSameSpaces spaces.old spaces.new }
{
    let mut piece = spaces.place(want)?;
    if let Some(word) = poison {
        piece.words_mut().fill(word);
    }
    Some(piece)
}

/// The first entry from `k` on that wants something, or the end.
fn next_wanted(wants: &[Option<Wanted>], k: usize) -> usize
    requires { k ≤ length wants.now }
    ensures within { (k ≤ result) × (result ≤ length wants.now) }
    ensures passed { (j : ℕ) → k ≤ j → j < result → want_at wants.now j ≡ None }
    ensures found { result < length wants.now → IsSome (want_at wants.now result) }
{
    if k >= wants.len() || wants[k].is_some() {
        return k;
    }
    next_wanted(wants, k + 1)
}

/// Places what entry `k` wants, and then what is wanted behind it, as `place_from` does.
#[cycle(placing)]
#[inline(never)]
fn place_at(
    spaces: &mut Spaces,
    wants: &[Option<Wanted>],
    k: usize,
    poison: Option<i16>,
    granted: &mut Granted,
) -> Result<(), Space>
    requires seven { length wants.now ≡ WANTS }
    requires number { k < WANTS }
    requires wanted { IsSome (want_at wants.now k) }
    requires limits { AllAreWithinLimits wants.now }
    requires apart { AreApartWants wants.now }
    requires room { HasRoomFrom k wants.now spaces.old }
    requires none { granted.old ≡ none_granted }
    ensures exact { PlacesAll (somes (drop k wants.now)) spaces.old spaces.new result }
    ensures granted { OnOk result (IsGranted spaces.old spaces.new poison k wants.now granted.new) }
    ensures refused { OnErr result ((spaces.new ≡ spaces.old) × (granted.new ≡ none_granted)) }
    ensures stays { AreSameSpaces spaces.old spaces.new }
{
    let want = match wants[k] {
        Some(want) => want,
        None => unreachable!(),
    };
    let piece = match place_filled(spaces, want, poison) {
        Some(piece) => piece,
        None => return Err(want.space),
    };
    match place_from(spaces, wants, k + 1, poison, granted) {
        Ok(()) => {
            granted.put(k, piece);
            Ok(())
        }
        Err(space) => {
            spaces.take_out(want.space, piece);
            Err(space)
        }
    }
}

/// Places for what is wanted from entry `k` on, in this order; or the space of the first that has none, and then nothing has happened. The
/// pieces are put where the caller has room for them: given back by value they would be copied at each entry.
#[cycle(placing)]
pub(crate) fn place_from(
    spaces: &mut Spaces,
    wants: &[Option<Wanted>],
    k: usize,
    poison: Option<i16>,
    granted: &mut Granted,
) -> Result<(), Space>
    requires seven { length wants.now ≡ WANTS }
    requires number { k ≤ WANTS }
    requires limits { AllAreWithinLimits wants.now }
    requires apart { AreApartWants wants.now }
    requires room { HasRoomFrom k wants.now spaces.old }
    requires none { granted.old ≡ none_granted }
    ensures exact { PlacesAll (somes (drop k wants.now)) spaces.old spaces.new result }
    ensures granted { OnOk result (IsGranted spaces.old spaces.new poison k wants.now granted.new) }
    ensures refused { OnErr result ((spaces.new ≡ spaces.old) × (granted.new ≡ none_granted)) }
    ensures stays { AreSameSpaces spaces.old spaces.new }
{
    let first = next_wanted(wants, k);
    if first >= wants.len() {
        return Ok(());
    }
    place_at(spaces, wants, first, poison, granted)
}
