//! Whether a cell's row asks for the same in another program.
ghost use Rattle.std.specs.Prelude.{◌≡◌, List};
ghost use Rattle.std.specs.Bool.{Decides};
ghost use Rattle.base_values.specs.Equal.{code_same};
ghost use Rattle.imp_slots.specs.PartCodes.{returning_to};
ghost use Rattle.imp_slots.specs.CallViews.{taken_of};
ghost use Rattle.imp_flow_rows.specs.Near.{PathFrame, row_in};
ghost use Rattle.domain_laws.specs.Claims.{same_truth};
ghost use Rattle.edit_invalidate.specs.RowCode.{is_nil, same_binary, same_inputs, same_row, same_unary, same_ways};
ghost use Rattle.edit_invalidate.specs.Rows.{AskSame};

use imp_flow_rows::{Binary, Input, Row, Unary, Way};
use imp_slots::Returning;

fn same_ways(in_main: bool, a: Way, b: Way) -> bool
    ensures is { result ≡ same_ways in_main a b }
{
    match (a, b) {
        (Way::Here, Way::Here) | (Way::Out, Way::Out) => true,
        (Way::Here, Way::Out) | (Way::Out, Way::Here) => in_main,
        (Way::Into(f), Way::Into(g)) => f == g,
        _ => false,
    }
}

fn same_inputs(in_main: bool, a: Input, b: Input) -> bool
    ensures is { result ≡ same_inputs in_main a b }
{
    a.point == b.point && same_ways(in_main, a.way, b.way)
}

fn same_truth(a: bool, b: bool) -> bool
    ensures is { result ≡ same_truth a b }
{
    if a { b } else { !b }
}

fn same_taken(a: Option<Returning>, b: Option<Returning>) -> bool
    ensures is { result ≡ code_same (returning_to (taken_of a)) (returning_to (taken_of b)) }
{
    match (a, b) {
        (None, None) => true,
        (Some(Returning::Numeric { to: x, from: y }), Some(Returning::Numeric { to, from })) => {
            x == to && y == from
        }
        (Some(Returning::Link { to: x, from: y }), Some(Returning::Link { to, from })) => {
            x == to && y == from
        }
        _ => false,
    }
}

fn same_unary(a: &Unary<'_>, b: &Unary<'_>) -> bool
    ensures is { result ≡ same_unary a.now b.now }
{
    match (a, b) {
        (Unary::Post(s), Unary::Post(t)) => *s == *t,
        (Unary::Assume(c, h), Unary::Assume(d, i)) => *c == *d && same_truth(*h, *i),
        (Unary::Enter(c), Unary::Enter(d)) => c.entering() == d.entering(),
        (Unary::Exit(c), Unary::Exit(d)) => *c == *d,
        _ => false,
    }
}

fn same_binary(a: &Binary<'_>, b: &Binary<'_>) -> bool
    ensures is { result ≡ same_binary a.now b.now }
{
    match (a, b) {
        (Binary::Join, Binary::Join) => true,
        (Binary::Leave(c), Binary::Leave(d)) => same_taken(c.returning(), d.returning()),
        (Binary::Widen(m), Binary::Widen(k)) => *m == *k,
        _ => false,
    }
}

/// Whether two rows are the same except the left inputs of joins after loops.
fn same_row(in_main: bool, left_alone: bool, row: &Row<'_>, other: &Row<'_>) -> bool
    ensures is { result ≡ same_row in_main left_alone row.now other.now }
{
    match (row, other) {
        (Row::Init(l), Row::Init(m)) => *l == *m,
        (Row::One(o, a), Row::One(q, b)) => same_unary(o, q) && same_inputs(in_main, *a, *b),
        (Row::Two(o, a, b), Row::Two(q, c, d)) => {
            same_binary(o, q) && same_inputs(in_main, *a, *c) && same_inputs(in_main, *b, *d)
        }
        (Row::Fixed(n, p), Row::Fixed(m, q)) => *n == *m && *p == *q,
        (Row::Joins(s, l, n, p), Row::Joins(t, k, m, q)) => {
            *l == *k && (left_alone || same_truth(*s, *t) && *n == *m && *p == *q)
        }
        _ => false,
    }
}

/// Whether two rows of a name ask for the same. `in_main` says that the name's path is empty, and `left_alone` that its
/// cell has one input. They do where they are the same row; or where both are joins after a loop with breaks, with the
/// same left input, which is the only one of the cell.
///
/// It takes time linear in what the rows use, as conditions, layouts and thresholds.
pub fn same_rows(in_main: bool, left_alone: bool, row: &Row<'_>, other: &Row<'_>) -> bool
    ensures told { (w : List PathFrame) → is_nil w ≡ in_main →
        Decides result (AskSame left_alone (row_in w row.now) (row_in w other.now)) }
{
    same_row(in_main, left_alone, row, other)
}
