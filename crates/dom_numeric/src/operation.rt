//! The ranges of operations.
ghost use Rattle.std.specs.Prelude.{◌≡◌, IfSome};
ghost use Rattle.num_bounds.specs.Bounds.{IsRange};
ghost use Rattle.dom_numeric.specs.Ranges.{operation};

use imp_syntax::Operator;
use num_bounds::Range;

/// The range of the results of an operation on a number of each range, or `None` where it has none. It takes constant
/// time.
pub fn operate(operator: Operator, left: Range, right: Range) -> Option<Range>
    ensures exact { result ≡ operation operator left right }
    ensures range { IfSome result IsRange }
{
    match operator {
        Operator::Add => left.add(right),
        Operator::Subtract => left.sub(right),
        Operator::Multiply => left.mul(right),
        Operator::Divide => left.quot(right),
        Operator::Remainder => left.rem(right),
    }
}
