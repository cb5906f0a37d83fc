//! The numbers of operations.
ghost use Rattle.std.specs.Prelude.{◌≡◌, ◌+◌, ◌≤◌, [], length, IfOk, IfSome, OnOk, IsTrue};
ghost use Rattle.state_table.specs.Numbers.{AreOnce, KeepsNumbers};
ghost use Rattle.memo_table.specs.declared.operation.Operation.{Operation};
ghost use Rattle.daig_query.specs.Made.{HasOperation, IsBinaryOf, IsOperationOf, IsUnaryOf};

use crate::operations::operation_of;
use base_values::Memory;
use imp_flow_rows::{Binary, Row, Unary};
use memo_table::Operation;
use state_table::StateTable;
use std::alloc::Global;
use std::marker::Model;

/// How many numbers are noted at most: one for each value of the low 15 bits of a statement's number.
const PLACES: usize = 32768;

/// Operations under numbers, as a list: the operation at place n has the number n.
///
/// Beside the table stand numbers that were given before, at the places of their rows. A row takes the one at its place
/// only where the operation of that number is its own, so nothing has to hold of them.
#[derive(Drop)]
pub(crate) struct OperationTable {
    table: StateTable<Operation>,
    noted: Vec<u32>,
}

impl Model for OperationTable {
    ghost use Rattle.std.specs.Prelude.{List};
    ghost use Rattle.memo_table.specs.declared.operation.Operation.{Operation};

    ghost Value = { List Operation };

    ghost use Rattle.std.specs.Coded.{codes};
    ghost use Rattle.memo_table.specs.contracts.operation.Operation as operation;

    ghost coded = { Prim.hlevel (codes, operation.the_row.coded) };

    ghost view = { λ t. t.table };
}

impl OperationTable {
    /// No operations. It takes the memory for the noted numbers.
    pub(crate) fn new(alloc: Global) -> Result<OperationTable, Memory>
        ensures empty { IfOk result (λ t. t ≡ []) }
    {
        let noted = vec![in alloc; 0; PLACES]?;
        Ok(OperationTable {
            table: StateTable::new(alloc),
            noted,
        })
    }

    /// How many operations there are.
    pub(crate) fn len(&self) -> usize
        ensures len { result ≡ length self.now }
    {
        self.table.len()
    }

    /// Drops all operations.
    pub(crate) fn clear(&mut self)
        ensures empty { self.new ≡ [] }
    {
        self.table.clear();
    }

    /// The number of the operation of a row that belongs to a statement: the noted one where it is right, else that of
    /// the operation, owned, which is looked up, or added where it is new.
    #[inline(always)]
    pub(crate) fn number_of(
        &mut self,
        alloc: Global,
        row: &Row<'_>,
        owner: u32,
    ) -> Result<usize, Memory>
        ensures is { IfOk result (HasOperation self.new row.now) }
        ensures few { length self.new ≤ length self.old + 1 }
        ensures once { OnOk result (AreOnce ⟦<Operation as PartialEq>⟧.eq self.new) }
        ensures kept { KeepsNumbers self.old self.new }
    {
        let place = place_of(row, owner);
        if let Some(number) = self.noted_number(row, place) {
            return Ok(number);
        }
        let operation = operation_of(alloc, row)?;
        let number = self.table.intern(operation)?;
        self.note(place, number);
        Ok(number)
    }

    /// The number that is noted at a place, where it is that of the row's operation.
    #[inline(always)]
    fn noted_number(&self, row: &Row<'_>, place: usize) -> Option<usize>
        ensures is { IfSome result (HasOperation self.now row.now) }
        ensures once { AreOnce ⟦<Operation as PartialEq>⟧.eq self.now }
    {
        let count = self.table.len();
        let number = *self.noted.get(place)? as usize;
        if number < count && is_of(row, self.table.get(number)) {
            Some(number)
        } else {
            None
        }
    }

    /// Notes a number at a place.
    #[inline]
    fn note(&mut self, place: usize, number: usize)
        ensures same { self.new ≡ self.old }
    {
        if let Some(noted) = self.noted.get_mut(place) {
            *noted = (number & 0xFFFF_FFFF) as u32;
        }
    }
}

/// The place of a row among the noted numbers. The rows of a statement have different places, except joins, which all
/// have one. Statements whose numbers are 8,192 or more apart may share a place.
#[inline]
fn place_of(row: &Row<'_>, owner: u32) -> usize {
    let own = owner & 0x7FFF;
    let place = match row {
        Row::One(Unary::Assume(_, false), _) => own ^ 0x2000,
        Row::One(Unary::Exit(_), _) => own ^ 0x2000,
        Row::Two(Binary::Leave(_), _, _) => own ^ 0x2000,
        Row::Two(Binary::Widen(_), _, _) => own ^ 0x4000,
        Row::Two(Binary::Join, _, _) => 0,
        Row::Joins(_, _, _, _) => 0,
        _ => own,
    };
    place as usize
}

/// Whether an operation is that of an operation on one value.
#[inline(always)]
fn is_of_unary(op: &Unary<'_>, operation: &Operation) -> bool
    ensures sound { IsTrue result → IsUnaryOf op.now operation.now }
{
    match (op, operation) {
        (Unary::Post(stmt), Operation::Post(other)) => **stmt == *other,
        (Unary::Assume(cond, sense), Operation::Assume(other, truth)) => {
            *sense == *truth && **cond == *other
        }
        (Unary::Enter(call), Operation::Enter(other)) => *call.entering() == *other,
        (Unary::Exit(cond), Operation::Assume(other, truth)) => !*truth && **cond == *other,
        _ => false,
    }
}

/// Whether an operation is that of an operation on two values.
#[inline]
fn is_of_binary(op: &Binary<'_>, operation: &Operation) -> bool
    ensures sound { IsTrue result → IsBinaryOf op.now operation.now }
{
    match (op, operation) {
        (Binary::Join, Operation::Join) => true,
        (Binary::Leave(call), Operation::Leave(taken)) => call.returning() == *taken,
        (Binary::Widen(thresholds), Operation::Widen(others)) => *thresholds == others.as_slice(),
        _ => false,
    }
}

/// Whether an operation is that of a row. It compares, and copies nothing.
#[inline(always)]
fn is_of(row: &Row<'_>, operation: &Operation) -> bool
    ensures sound { IsTrue result → IsOperationOf row.now operation.now }
{
    match (row, operation) {
        (Row::Init(layout), Operation::Init(other)) => **layout == *other,
        (Row::One(op, _), _) => is_of_unary(op, operation),
        (Row::Two(op, _, _), _) => is_of_binary(op, operation),
        (Row::Joins(_, _, _, _), Operation::Join) => true,
        (Row::Fixed(_, _), Operation::Join) => true,
        _ => false,
    }
}
