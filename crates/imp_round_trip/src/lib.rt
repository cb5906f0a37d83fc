//! Printed programs are read back.
//!
//! The text of a program is a text of the language, and reading it gives the same tree, its
//! statements numbered 1, 2, .. in the order of the text. That holds of each program with a
//! procedure at least whose names and numbers are the language's, whose expressions and conditions
//! are each the tree of some text within the budget of operators, and whose blocks nest at most 32
//! deep: `IsPrintable` of `specs/Printable.antt`. Printing writes only the parentheses that the tree
//! needs, so its text has no more operators than any other text of the tree, and stays within the
//! budget.
//!
//! [`printing_is_read_back`] is the theorem. `renumbered` of `specs/Renumbered.antt` numbers the statements anew. Each program that is read from a text is
//! printable, and numbered so already ([`what_is_read_is_read_back`]).
#![tactic(auto)]

ghost use Rattle.imp_round_trip.specs.ReadBack.{PrintingIsReadBack, ReadBodyIsPrintable, ReadConditionIsPrintable, ReadIsPrintable, ReadIsReadBack, ReadProcedureIsPrintable, ReadSimpleIsPrintable, RenumberingCounts, RenumberingKeepsTexts, RenumberingKeepsTrees};

/// A theorem, and no work: the text of a printable program is read back to its tree, numbered
/// anew, which changes nothing but the numbers, makes them 1, 2, .. in the order of the text, and
/// keeps the text.
pub fn printing_is_read_back()
    ensures read_back { PrintingIsReadBack }
    ensures same_tree { RenumberingKeepsTrees }
    ensures in_order { RenumberingCounts }
    ensures same_text { RenumberingKeepsTexts }
{}

/// A theorem, and no work: each program that is read from a text is printable, and so is each piece
/// of one; reading the printed text of a program that was read gives it again, numbers and all.
pub fn what_is_read_is_read_back()
    ensures printable { ReadIsPrintable }
    ensures procedure { ReadProcedureIsPrintable }
    ensures body { ReadBodyIsPrintable }
    ensures simple { ReadSimpleIsPrintable }
    ensures condition { ReadConditionIsPrintable }
    ensures same { ReadIsReadBack }
{}
