//! Theorems on graphs, each the contract of a function that does nothing.

ghost use Rattle.shape_graph.specs.Laws.{EachGraphFolds, FoldsOfOneAreEqual, OrderIsTotal, TiesAreEqual, EqualityIsExact, HashRespectsEquality, RenamedAreEqual};

/// Each graph has a fold, and only one.
pub fn folding_is_determined()
    ensures exists { EachGraphFolds }
    ensures unique { FoldsOfOneAreEqual }
{}

/// Two folded graphs that are equal up to a renaming of their nodes are equal.
pub fn renamed_graphs_are_equal()
    ensures same { RenamedAreEqual }
{}

/// The order of graphs is total, and graphs tie, as `==` says, exactly where they are equal.
pub fn order_is_exact()
    ensures total { OrderIsTotal }
    ensures ties { TiesAreEqual }
    ensures equality { EqualityIsExact }
    ensures hash { HashRespectsEquality }
{}
