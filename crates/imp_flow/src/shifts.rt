//! What a procedure more or less means for rows, the contract of a function that does nothing.

ghost use Rattle.imp_flow.specs.Shifts.{PlacesShift, RowsStay};

/// A procedure put into a program, or dropped from it, shifts the places of those after it and changes no row of
/// the others.
pub fn procedures_shift_no_rows()
    ensures rows { RowsStay }
    ensures places { PlacesShift }
{}
