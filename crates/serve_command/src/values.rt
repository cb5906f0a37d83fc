//! The values of options from their texts: which numbers, domains and widenings
//! [`read_words`](crate::read_words) takes.
ghost use Rattle.std.specs.Prelude.{◌≡◌, ◌≤◌, codes, IfSome};
ghost use Rattle.serve_command.specs.Values.{number_in, domain_of, single_of, thresholds_of};

use crate::job::{DomainName, SingleDomain};
use itoa::Buffer;

/// The number that the text is, as decimal digits without a sign or a leading zero, where it is
/// within the bounds.
pub(crate) fn number_in(text: &str, least: u64, most: u64) -> Option<u64>
    ensures number { result ≡ number_in least most text.now }
    ensures within { IfSome result (λ n. n ≤ most) }
{
    let Ok(number) = text.parse::<u64>() else {
        return None;
    };
    if number < least || number > most {
        return None;
    }
    let mut buffer = Buffer::new();
    if buffer.format(number) != text {
        return None;
    }
    Some(number)
}

/// The domain of this name.
#[tactic(auto, unfolding(crate::specs::Values::domain_of))]
pub(crate) fn domain_of(text: &str) -> Option<DomainName>
    ensures domain { result ≡ domain_of text.now }
{
    match text {
        "interval" => Some(DomainName::Interval),
        "octagon" => Some(DomainName::Octagon),
        "listseg" => Some(DomainName::ListSeg),
        "interval+listseg" => Some(DomainName::IntervalListSeg),
        "octagon+listseg" => Some(DomainName::OctagonListSeg),
        "shapes" => Some(DomainName::Shapes),
        "interval+shapes" => Some(DomainName::IntervalShapes),
        "octagon+shapes" => Some(DomainName::OctagonShapes),
        _ => None,
    }
}

/// The domain of this name that is no product.
#[tactic(auto, unfolding(crate::specs::Values::single_of))]
pub(crate) fn single_of(text: &str) -> Option<SingleDomain>
    ensures domain { result ≡ single_of text.now }
{
    match text {
        "interval" => Some(SingleDomain::Interval),
        "octagon" => Some(SingleDomain::Octagon),
        "listseg" => Some(SingleDomain::ListSeg),
        _ => None,
    }
}

/// Whether the numbers of a procedure are the thresholds of widening.
#[tactic(auto, unfolding(crate::specs::Values::thresholds_of))]
pub(crate) fn thresholds_of(text: &str) -> Option<bool>
    ensures thresholds { result ≡ thresholds_of text.now }
{
    match text {
        "thresholds" => Some(true),
        "plain" => Some(false),
        _ => None,
    }
}
