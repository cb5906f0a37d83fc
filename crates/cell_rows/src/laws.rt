//! The theorems, each the contract of a function that does nothing.

ghost use Rattle.cell_rows.specs.Claims.{AnswersAgree, InputsAreNames, KeptValuesAreRight, NamesHaveRows, RanksFall, RowsAreByNumber, TargetsAreThere, ValuesAreBatch};

use domain_laws::Domain;

/// In a checked program the row of a name along its path is the one by its statement's number, and each
/// name of the program has one.
pub fn rows_are_by_number()
    ensures found { RowsAreByNumber }
    ensures there { NamesHaveRows }
{}

/// The rows of a checked program: inputs rank lower and are asked for to an end, for every name; the names
/// that the program has are closed under inputs, and what is found there is what batch interpretation gives;
/// over an edit, names that are closed under inputs and have the same operations and inputs keep their values.
pub fn rows_give_values<D: Domain>()
    ensures fall { (d : D) → RanksFall (D.operations d) }
    ensures values { (d : D) → ValuesAreBatch (D.operations d) }
    ensures names { (d : D) → InputsAreNames (D.operations d) }
    ensures kept { (d : D) → KeptValuesAreRight (D.operations d) }
{}

/// A location of a checked program has a target for each selected chain; the answer there is the one that is
/// read from the cells that the targets ask for.
pub fn answers_are_read<D: Domain>()
    ensures there { TargetsAreThere }
    ensures agree { (d : D) → AnswersAgree (D.operations d) }
{}
