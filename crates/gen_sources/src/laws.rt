//! The theorem, the contract of a function that does nothing.
ghost use Rattle.gen_sources.specs.Trees.{AreRead, AreFaultless};

/// Each generated source is the text of its tree, and that tree has no fault where the source has no more
/// pieces than fit the limit of statements: 3,333, three statements a piece.
pub fn sources_are_accepted()
    ensures read { AreRead }
    ensures faultless { AreFaultless }
{}
