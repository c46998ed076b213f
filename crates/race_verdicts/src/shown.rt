//! What was found of one pair of sites.

ghost use Rattle.std.specs.Prelude.{◌≡◌, ◌↔◌, ◌⊎◌, IsTrue};
ghost use Rattle.race_search.specs.Found.{Anything, AreBothMarked, IsOneSilenced, IsPairFound, MayRace};

use race_search::at_once::{AtOnce, Shown};
use races::SitePair;
use races::found::PairShown;

/// Whether what was found is of this pair.
fn is_of(shown: &Shown, pair: SitePair) -> bool
    ensures { IsTrue result ↔ (shown.now.pair ≡ pair) }
{
    shown.pair == pair
}

/// With what one entry shows as well.
fn with_shown(all: PairShown, shown: &Shown) -> PairShown
    ensures at_once { IsTrue result.at_once }
    ensures both_marked { IsTrue result.both_marked ↔ (IsTrue all.both_marked ⊎ AreBothMarked shown.now) }
    ensures silenced { IsTrue result.silenced ↔ (IsTrue all.silenced ⊎ IsOneSilenced shown.now) }
    ensures true_race { IsTrue result.true_race ↔ (IsTrue all.true_race ⊎ MayRace shown.now) }
{
    let both_marked = shown.first_marked && shown.second_marked;
    PairShown {
        at_once: true,
        both_marked: all.both_marked || both_marked,
        silenced: all.silenced || shown.silenced,
        true_race: all.true_race || (!both_marked && !shown.silenced),
    }
}

/// What was found of a pair.
pub fn shown_of(found: &AtOnce, pair: SitePair) -> PairShown
    ensures at_once { IsTrue result.at_once ↔ IsPairFound found.now pair Anything }
    ensures both_marked { IsTrue result.both_marked ↔ IsPairFound found.now pair AreBothMarked }
    ensures silenced { IsTrue result.silenced ↔ IsPairFound found.now pair IsOneSilenced }
    ensures true_race { IsTrue result.true_race ↔ IsPairFound found.now pair MayRace }
{
    let mut all = PairShown {
        at_once: false,
        both_marked: false,
        silenced: false,
        true_race: false,
    };
    for shown in found.found().keys() {
        if is_of(shown, pair) {
            all = with_shown(all, shown);
        }
    }
    all
}
