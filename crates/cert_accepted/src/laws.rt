//! The theorem, and its instances.
ghost use Rattle.cert_meaning.specs.Portable.{HasUpperBounds};
ghost use Rattle.dom_interval_meaning.specs.Domain.{intervals};
ghost use Rattle.dom_interval_words.specs.Words.{interval_port};
ghost use Rattle.dom_listseg_meaning.specs.Domain.{segments};
ghost use Rattle.dom_listseg_words.specs.Words.{segment_port};
ghost use Rattle.dom_octagon_meaning.specs.Domain.{octagons};
ghost use Rattle.dom_octagon_words.specs.Words.{octagon_port};
ghost use Rattle.cert_accepted.specs.Accepted.{AreAccepted, CheckedHaveLines, PutsUtf8};

use cert_complete::{certificates_hold, heads_are_of_frames};
use cert_meaning::Portable;
use dom_interval_meaning::intervals_are_a_domain;
use dom_interval_words::{intervals_are_portable, intervals_have_upper_bounds};
use dom_listseg_meaning::segments_are_a_domain;
use dom_listseg_words::{segments_are_portable, segments_have_upper_bounds};
use dom_octagon_meaning::octagons_are_a_domain;
use dom_octagon_words::{octagons_are_portable, octagons_have_upper_bounds};
use imp_chains::{chains_go_through_callers, places_are_found, thresholds_rise};

/// Where the certificate of a checked program is no over, checking it says yes. Joins and widenings are to be above both
/// sides by the order by which states are compared, and the texts of states are to be UTF-8. Statement numbers are to be
/// below 2^32, chains to have at most 8 calls, and the certificate fewer than 2^64 bytes.
pub fn certificates_are_accepted<D: Portable>()
    ensures accepted { (d : D) → HasUpperBounds (D.operations d) (D.port d).leq →
        PutsUtf8 (D.operations d) (D.port d) → AreAccepted (D.operations d) (D.port d) }
{
    certificates_hold::<D>();
    heads_are_of_frames::<D>();
    places_are_found();
}

/// A program without faults has at most 8 calls in a chain, as lines can name; numbers of statements that are below 2^32 they
/// can name as well.
pub fn checked_programs_have_lines()
    ensures lines { CheckedHaveLines }
{}

/// Certificates by intervals are accepted.
pub fn interval_certificates_are_accepted()
    ensures accepted { AreAccepted intervals interval_port }
{
    intervals_are_a_domain();
    intervals_are_portable();
    intervals_have_upper_bounds();
    thresholds_rise();
    places_are_found();
    chains_go_through_callers();
}

/// Certificates by octagons are accepted.
pub fn octagon_certificates_are_accepted()
    ensures accepted { AreAccepted octagons octagon_port }
{
    octagons_are_a_domain();
    octagons_are_portable();
    octagons_have_upper_bounds();
    thresholds_rise();
    places_are_found();
    chains_go_through_callers();
}

/// Certificates by list segments are accepted.
pub fn segment_certificates_are_accepted()
    ensures accepted { AreAccepted segments segment_port }
{
    segments_are_a_domain();
    segments_are_portable();
    segments_have_upper_bounds();
    thresholds_rise();
    places_are_found();
    chains_go_through_callers();
}
