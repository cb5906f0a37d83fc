//! What rows ask for, the contract of a function that does nothing.
ghost use Rattle.imp_flow_rows.specs.Inputs.{AreAsked};

use domain_laws::Domain;

/// A row's inputs, as [`Row`](imp_flow_rows::Row) gives them, are those that the machine of demands asks for, one by one.
pub fn inputs_are_asked<D: Domain>()
    ensures asked { (d : D) → AreAsked (D.operations d) }
{}
