//! The order of demand: which names a demand needs, in which order they are filled, what is
//! missing of a kept set, and in which order names are taken away again.
//!
//! A *system* gives each name its inputs, from left to right, and a rank above theirs, so that no
//! name leads back to itself. The *order* of a demand goes depth first: each needed name once,
//! each after its inputs. A *kept set* is closed where with each name it has the name's inputs;
//! what is *missing* of it is the order without the kept names, and with the first n of the
//! missing names it is closed again.
//!
//! Inputs may be found by values, one at a time, as the iterates of a loop are: a name's *row*
//! answers its next input by the values of those before it, and its value by the values of all.
//! Removal is the same order, along the edges turned round, within the names that have cells.
//!
//! The definitions stand in `specs/`, over names and values of any type, and the theorems in
//! `specs/Theorems.antt`. The functions below do nothing when they run: each carries theorems as
//! its clauses, for the layers that fill, keep and remove cells.
#![tactic(auto)]

ghost use Rattle.daig_order.specs.Theorems.{OrderIsDistinct, OrderFollowsInputs, OrderIsNeeded, OrderIsClosed, MissingIsRest, FilledIsKeptOrNeeded, FilledIsClosed, RowsAreAcyclic, RowsAskNext, RowsGiveValues, RowsAreStable, FoundStarts, FoundSteps, FoundMissing, FoundAll, FoundStays, MachineStarts, MachinePushes, MachineFills, MachineFillsNew, MachineHasMore, MachineEnds, MachineLeaves, TurnedIsAcyclic, TurnedOrderIsPlan, RestIsClosed, WithinIsAcyclic, DependentsAreUsers, ListsHaveDependents, TurnsAreOneDemand, TurnsAreUnion};

/// What the order of a demand is: each needed name once, after its inputs.
pub fn order_laws<T>()
    ensures distinct { OrderIsDistinct T }
    ensures after_inputs { OrderFollowsInputs T }
    ensures needed { OrderIsNeeded T }
    ensures closed { OrderIsClosed T }
{}

/// What is missing of a kept set, and that filling it in order keeps the set closed.
pub fn kept_laws<T>()
    ensures missing { MissingIsRest T }
    ensures all { FilledIsKeptOrNeeded T }
    ensures filled { FilledIsClosed T }
{}

/// Demands one after another, as a report makes them.
pub fn turn_laws<T>()
    ensures one { TurnsAreOneDemand T }
    ensures union { TurnsAreUnion T }
{}

/// Inputs that are found by values, and the values.
pub fn row_laws<T, V>()
    ensures acyclic { RowsAreAcyclic T V }
    ensures next { RowsAskNext T V }
    ensures values { RowsGiveValues T V }
    ensures stable { RowsAreStable T V }
{}

/// The inputs of a name, looked up one after another.
pub fn found_laws<T, V>()
    ensures starts { FoundStarts T V }
    ensures steps { FoundSteps T V }
    ensures missing { FoundMissing T V }
    ensures all { FoundAll T V }
    ensures stays { FoundStays T V }
{}

/// What each turn keeps of a machine on a stack that fills first missing inputs first.
pub fn machine_laws<T, V>()
    ensures starts { MachineStarts T V }
    ensures pushes { MachinePushes T V }
    ensures fills { MachineFills T V }
    ensures new { MachineFillsNew T V }
    ensures more { MachineHasMore T V }
    ensures ends { MachineEnds T V }
    ensures leaves { MachineLeaves T V }
{}

/// Removal: the order along the edges turned round.
pub fn removal_laws<T>()
    ensures acyclic { TurnedIsAcyclic T }
    ensures plan { TurnedOrderIsPlan T }
    ensures rest { RestIsClosed T }
{}

/// Removal from the names that have cells, where the edges between these are all that is stored.
pub fn cell_laws<T>()
    ensures acyclic { WithinIsAcyclic T }
    ensures users { DependentsAreUsers T }
    ensures there { ListsHaveDependents T }
{}
