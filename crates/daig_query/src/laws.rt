//! What callers know of walks and cells. The functions do nothing when they run; each carries its theorems as its clauses.
ghost use Rattle.daig_query.specs.Claims.{DemandsAreInTurn, DoneStaysDone, NewWalksAreGood, RestIsMissing, RestIsRight, RightHolds, WalksStayGood};

use domain_laws::Domain;

/// A walk is good from its beginning on while cells are only added, and one that is done stays so.
pub fn walks_stay_good<D: Domain>()
    ensures new { (d : D) → NewWalksAreGood (D.operations d) }
    ensures good { (d : D) → WalksStayGood (D.operations d) }
    ensures done { (d : D) → DoneStaysDone (D.operations d) }
{}

/// Advances one after another fill what one demand fills, in the same order. Demands in turn, as a report makes them,
/// fill what they demand in turn by the definition, so that crate `daig_demands` says how many cells a report fills.
pub fn demands_add_up<D: Domain>()
    ensures rest { (d : D) → RestIsMissing (D.operations d) }
    ensures turns { (d : D) → DemandsAreInTurn (D.operations d) }
{}

/// The cells of an engine that is right for a program are those of the program. Where an edit leaves some of them, and
/// they are cells of the new program with the values that they had, the engine is right for that one.
pub fn cells_stay_right<D: Domain>()
    ensures holds { (d : D) → RightHolds (D.operations d) }
    ensures rest { (d : D) → RestIsRight (D.operations d) }
{}
