//! The domains that the words name, each with the code that computes it.
ghost use Rattle.batch_sound.specs.Theorem.{AreReportsSound};
ghost use Rattle.serve_command.specs.declared.job.DomainName.{DomainName as Name};
ghost use Rattle.dom_listseg_meaning.specs.Domain.{segments};
ghost use Rattle.dom_shapes_meaning.specs.Domain.{shapes};
ghost use Rattle.dom_product_meaning.specs.Product.{product};
ghost use Rattle.serve_answers.specs.Sound.{MomentsAreSound};
ghost use Rattle.serve_output.specs.Domains.{AnswersAs, meaning_of};
ghost use Rattle.serve_output.specs.Settles.{NamedDomainsConverge};

use batch_converges::{intervals_converge, octagons_converge, segments_converge, shapes_converge};
use batch_product::products_converge;
use batch_sound::reports_are_sound;
use dom_interval::Interval;
use dom_listseg::ListSeg;
use dom_octagon::Octagon;
use dom_product::Pair;
use dom_shapes::Shapes;
use domain_laws::Domain;
use serve_answers::replies_are_sound;

/// A domain that the words name: lines and reports are answered by it as by what the name means.
pub trait Named: Domain + Drop {
    /// Its name.
    ghost name: { Name };

    ghost answers: { (d : Self) → AnswersAs name (Self.Domain.operations d) };
}

impl Named for Interval {
    ghost use Rattle.std.specs.Prelude.{refl};
    ghost use Rattle.serve_command.specs.declared.job.DomainName.TheVariants as domain;

    ghost name = { domain.Interval };

    ghost answers = { λ _. record { turns = λ _ _ _. refl; reports = λ _ _. refl; faults = λ _ _. refl } };
}

impl Named for Octagon {
    ghost use Rattle.std.specs.Prelude.{refl};
    ghost use Rattle.serve_command.specs.declared.job.DomainName.TheVariants as domain;

    ghost name = { domain.Octagon };

    ghost answers = { λ _. record { turns = λ _ _ _. refl; reports = λ _ _. refl; faults = λ _ _. refl } };
}

impl Named for ListSeg {
    ghost use Rattle.std.specs.Prelude.{refl};
    ghost use Rattle.serve_command.specs.declared.job.DomainName.TheVariants as domain;

    ghost name = { domain.ListSeg };

    ghost answers = { λ _. record { turns = λ _ _ _. refl; reports = λ _ _. refl; faults = λ _ _. refl } };
}

/// A domain that the words name together with list segments: lines and reports are answered by the product as by what that
/// name means.
pub trait NamedWithLists: Domain + Drop {
    /// The name of the product.
    ghost product_name: { Name };

    ghost product_answers: { (d : Self) →
        AnswersAs product_name (product (Self.Domain.operations d) segments) };
}

impl NamedWithLists for Interval {
    ghost use Rattle.std.specs.Prelude.{refl};
    ghost use Rattle.serve_command.specs.declared.job.DomainName.TheVariants as domain;

    ghost product_name = { domain.IntervalListSeg };

    ghost product_answers = { λ _. record { turns = λ _ _ _. refl; reports = λ _ _. refl; faults = λ _ _. refl } };
}

impl NamedWithLists for Octagon {
    ghost use Rattle.std.specs.Prelude.{refl};
    ghost use Rattle.serve_command.specs.declared.job.DomainName.TheVariants as domain;

    ghost product_name = { domain.OctagonListSeg };

    ghost product_answers = { λ _. record { turns = λ _ _ _. refl; reports = λ _ _. refl; faults = λ _ _. refl } };
}

impl<A: NamedWithLists> Named for Pair<A, ListSeg> {
    ghost name = { A.product_name };

    ghost answers = { λ d. A.product_answers d.first };
}

impl Named for Shapes {
    ghost use Rattle.std.specs.Prelude.{refl};
    ghost use Rattle.serve_command.specs.declared.job.DomainName.TheVariants as domain;

    ghost name = { domain.Shapes };

    ghost answers = { λ _. record { turns = λ _ _ _. refl; reports = λ _ _. refl; faults = λ _ _. refl } };
}

/// A domain that the words name together with shapes: lines and reports are answered by the product as by what that name
/// means.
pub trait NamedWithShapes: Domain + Drop {
    /// The name of the product.
    ghost shapes_name: { Name };

    ghost shapes_answers: { (d : Self) →
        AnswersAs shapes_name (product (Self.Domain.operations d) shapes) };
}

impl NamedWithShapes for Interval {
    ghost use Rattle.std.specs.Prelude.{refl};
    ghost use Rattle.serve_command.specs.declared.job.DomainName.TheVariants as domain;

    ghost shapes_name = { domain.IntervalShapes };

    ghost shapes_answers = { λ _. record { turns = λ _ _ _. refl; reports = λ _ _. refl; faults = λ _ _. refl } };
}

impl NamedWithShapes for Octagon {
    ghost use Rattle.std.specs.Prelude.{refl};
    ghost use Rattle.serve_command.specs.declared.job.DomainName.TheVariants as domain;

    ghost shapes_name = { domain.OctagonShapes };

    ghost shapes_answers = { λ _. record { turns = λ _ _ _. refl; reports = λ _ _. refl; faults = λ _ _. refl } };
}

impl<A: NamedWithShapes> Named for Pair<A, Shapes> {
    ghost name = { A.shapes_name };

    ghost answers = { λ d. A.shapes_answers d.first };
}

/// Replies to lines and reports are sound by a domain.
fn domain_is_sound<D: Domain>()
    ensures moments { (d : D) → MomentsAreSound (D.operations d) (D.covers d) }
    ensures reports { (d : D) → AreReportsSound (D.operations d) }
{
    replies_are_sound::<D>();
    reports_are_sound::<D>();
}

/// Replies to lines and reports are sound by each domain that the words name.
pub fn named_domains_are_sound()
    ensures moments { (name : Name) →
        MomentsAreSound (meaning_of name).operations (meaning_of name).covers }
    ensures reports { (name : Name) → AreReportsSound (meaning_of name).operations }
{
    domain_is_sound::<Interval>();
    domain_is_sound::<Octagon>();
    domain_is_sound::<ListSeg>();
    domain_is_sound::<Pair<Interval, ListSeg>>();
    domain_is_sound::<Pair<Octagon, ListSeg>>();
    domain_is_sound::<Shapes>();
    domain_is_sound::<Pair<Interval, Shapes>>();
    domain_is_sound::<Pair<Octagon, Shapes>>();
}

/// By each domain that the words name no answer of a checked program is an Over, from a budget on that is stated for it: the
/// changes of a state by the greatest numbers of slots and of thresholds of a procedure, the rounds before they are counted,
/// and two more. Of a product it is the sum of both parts' changes, one more, and the later of their rounds.
pub fn named_domains_converge()
    ensures end { NamedDomainsConverge }
{
    intervals_converge();
    octagons_converge();
    segments_converge();
    products_converge::<Interval, ListSeg>();
    products_converge::<Octagon, ListSeg>();
    shapes_converge();
    products_converge::<Interval, Shapes>();
    products_converge::<Octagon, Shapes>();
}
