//! Moves from one program to another: what a move empties is planned beside what stands, and taken away at once.
ghost use Rattle.std.specs.Prelude.{IfOk, IfSome};
ghost use Rattle.cell_removal.specs.Removal.{IsOrder};
ghost use Rattle.daig_query.specs.Renamed.{IsRenamingOf};
ghost use Rattle.daig_query.specs.Swept.{IsBounded, IsInTables};
ghost use Rattle.daig_session.specs.Moves.{IsRightOver, IsSettingAfter, LeadsIn, EmptiesBy, IsMovingBy, LeavesBy};
ghost use Rattle.daig_session.specs.Engines.{HasFewStale, KeepsSetup, TakesNames};
ghost use Rattle.daig_session.specs.Books.{IsSettingOf};

use base_values::Memory;
use call_contexts::Setting;
use daig_query::{Engine, NewNames};
use domain_laws::Domain;
use edit_invalidate::{Emptying, plan};
use imp_flow::{Flow, points_changed};
use imp_table::{Change, Table};
use std::alloc::Global;

/// The setting of the program that is moved to, the cells that the move empties, and new numbers for the names of cells
/// where many names have none.
#[derive(Drop)]
pub(crate) struct Moving {
    pub(crate) setting: Setting,
    pub(crate) plan: Emptying,
    pub(crate) renaming: Option<NewNames>,
}

/// The cells that a change empties, where these are the settings of the program and of that which the change makes.
fn emptied<D: Domain>(
    alloc: Global,
    engine: &Engine<D>,
    table: &Table,
    change: &Change,
    setting: &Setting,
    other: &Setting,
) -> Result<Emptying, Memory>
    requires right { IsRightOver D.operations engine.now setting.now.engine table.now }
    requires leads { LeadsIn table.now change.now }
    requires set { IsSettingOf setting.now.engine table.now.program setting.now }
    requires set_other { IsSettingAfter setting.now.engine table.now change.now other.now }
    ensures empties { IfOk result (EmptiesBy engine.now setting.now table.now change.now) }
{
    let changed = points_changed(alloc, table, change, setting, other)?;
    let old = Flow::new(table.view(), setting);
    let new = Flow::new(table.changed(change), other);
    plan(
        alloc,
        engine.graph(),
        engine.names(),
        &old,
        &new,
        changed.as_slice(),
    )
}

/// The move to the program that a change makes, with all memory that it needs. Nothing is changed yet. It takes time in
/// proportion to the change, what it touches and the cells that it empties, time linear in the procedures and their
/// thresholds, and constant time for each name that was made since it last worked out new numbers.
///
/// # Errors
///
/// [`Memory`] alone.
pub(crate) fn planned_move<D: Domain>(
    alloc: Global,
    engine: &Engine<D>,
    table: &Table,
    change: &Change,
    setting: &Setting,
) -> Result<Moving, Memory>
    requires right { IsRightOver D.operations engine.now setting.now.engine table.now }
    requires leads { LeadsIn table.now change.now }
    requires set { IsSettingOf setting.now.engine table.now.program setting.now }
    ensures moving { IfOk result (IsMovingBy engine.now setting.now table.now change.now) }
{
    let other = setting.after(alloc, table, change)?;
    let plan = emptied(alloc, engine, table, change, setting, &other)?;
    let renaming = engine.new_names(alloc)?;
    Ok(Moving {
        setting: other,
        plan,
        renaming,
    })
}

/// Takes the planned cells away, and notes what those of them held and read whose own row is not changed; gives back the
/// states that no cell holds any more, where they are many, and puts the planned names, if there are any, in the place of
/// those that stand: what is left is right for the program that is moved to. It takes no memory. Cells may get other
/// numbers, which no ticket holds, as each begins anew after a move.
pub(crate) fn leave<D: Domain>(engine: &mut Engine<D>, plan: Emptying, renaming: Option<NewNames>)
    requires order { IsOrder engine.old.store.graph.cells plan.order }
    requires held { IsInTables engine.old.store }
    requires renaming { IfSome renaming (IsRenamingOf engine.old.store) }
    ensures leaves { LeavesBy D.operations engine.old engine.new plan }
    ensures setup { KeepsSetup engine.old engine.new }
    ensures bounded { IsBounded engine.new.spare engine.new.store }
    ensures names { TakesNames engine.old engine.new renaming }
    ensures stale { HasFewStale engine.old engine.new }
{
    let Emptying { order, touched } = plan;
    engine.empty(order, touched.as_slice());
    engine.sweep();
    engine.rename(renaming);
}
