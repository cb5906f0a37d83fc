//! The procedures through which chains lead to one.
ghost use Rattle.std.specs.Prelude.{◌≡◌, ◌+◌, ◌<◌, ◌≤◌, true, length, slice_set, if◌then◌else◌};
ghost use Rattle.imp_check.specs.Entries.{entries_of, entry_of, sites_in};
ghost use Rattle.imp_check.specs.Slots.{routines_of};
ghost use Rattle.call_contexts.specs.Marks.{is_marked, mark, mark_by, mark_all, AreMarked};

use imp_syntax::{ProcId, StmtId};
use imp_table::View;

/// Sets a mark, if it is there.
#[tactic(auto, using(std::proofs::lemmas::List::set_past))]
fn set(marks: &mut [bool], place: u32)
    ensures is { marks.new ≡ slice_set marks.old place true }
{
    if (place as usize) < marks.len() {
        marks[place as usize] = true;
    }
}

/// Marks a caller of the procedure at a place, which stands after that.
fn mark(marks: &mut [bool], place: u32, caller: u32)
    ensures is { marks.new ≡ mark place caller marks.old }
{
    if place < caller {
        set(marks, caller);
    }
}

/// Marks the procedure of a call statement, which calls the one at a place.
fn mark_by(prog: &View<'_>, place: u32, site: StmtId, marks: &mut [bool])
    ensures is { marks.new ≡ mark_by place (entry_of (entries_of prog.now) site) marks.old }
{
    if let Some(entry) = prog.entry(site) {
        mark(marks, place, entry.context.proc.place());
    }
}

/// Marks the procedures of call statements, which call the one at a place.
fn mark_all(prog: &View<'_>, place: u32, sites: &[StmtId], marks: &mut [bool])
    ensures is { marks.new ≡ mark_all place (entry_of (entries_of prog.now)) sites.now marks.old }
{
    for site in sites {
        mark_by(prog, place, *site, marks);
    }
}

/// Marks the callers of the procedure at a place, where that is marked.
fn mark_callers(prog: &View<'_>, place: u32, marks: &mut [bool])
    requires there { place < length prog.now }
    requires within { place < length marks.old }
    ensures is { marks.new ≡ (if is_marked marks.old place then mark_all place
        (entry_of (entries_of prog.now)) (sites_in (entries_of prog.now) place) marks.old
        else marks.old) }
{
    if marks[place as usize] {
        let sites = prog.sites(ProcId::new(place));
        mark_all(prog, place, sites, marks);
    }
}

/// Marks a procedure, the procedures that call it, those that call these, and so on, and main. It takes time linear in the
/// procedures from this one on and in the calls of those that are marked.
pub(crate) fn marked_callers(prog: &View<'_>, main: u32, place: u32) -> [bool; 64]
    requires last { main + 1 ≡ length (routines_of prog.now) }
    requires few { main < 64 }
    requires before { place ≤ main }
    ensures are { AreMarked (routines_of prog.now) result place main main }
{
    prog.procs();
    let mut marks = [false; 64];
    marks[place as usize] = true;
    marks[main as usize] = true;
    for k in place..main {
        mark_callers(prog, k, &mut marks);
    }
    marks
}
