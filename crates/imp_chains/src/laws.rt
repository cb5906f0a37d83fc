//! The laws of chains and thresholds, each the contract of a function that does nothing.

ghost use Rattle.imp_chains.specs.Claims.{ThresholdsRise, ChainsAreThroughCallers, PlacesAreFound};

/// The thresholds of a procedure that a checker lets through rise, each once, within 64 bits.
pub fn thresholds_rise()
    ensures rising { ThresholdsRise }
{}

/// The chains to a procedure of a checked program that is not main are, in the order of the text, those
/// of the procedures that call it, each with the call after.
pub fn chains_go_through_callers()
    ensures through { ChainsAreThroughCallers }
{}

/// A statement number, or a name, of a checked program is found in its procedure.
pub fn places_are_found()
    ensures found { PlacesAreFound }
{}
