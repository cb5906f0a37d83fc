//! Which request a `do` names: where [`read_request`](crate::read_request) refuses a line as no
//! request.
ghost use Rattle.std.specs.Prelude.{◌≡◌};
ghost use Rattle.request_json.specs.Names.{verb_of, verdict_of};

use fault_words::FaultVerdict;

/// What a request does, by the text of its `do`.
#[derive(Clone, Copy, Debug, PartialEq, Eq)]
pub(crate) enum Verb {
    State,
    Report,
    Cost,
    Program,
    Listing,
    Run,
    Replace,
    Insert,
    Delete,
    Guard,
    Declare,
    Add,
    Drop,
    Why,
    Undo,
    Redo,
    Ask,
    Begin,
    Step,
    Cancel,
    Faults,
}

/// The verb of a name.
#[tactic(auto, unfolding(crate::specs::Names::verb_of))]
pub(crate) fn verb_of(name: &str) -> Option<Verb>
    ensures is { result ≡ verb_of name.now }
{
    match name {
        "state" => Some(Verb::State),
        "report" => Some(Verb::Report),
        "cost" => Some(Verb::Cost),
        "program" => Some(Verb::Program),
        "listing" => Some(Verb::Listing),
        "run" => Some(Verb::Run),
        "replace" => Some(Verb::Replace),
        "insert" => Some(Verb::Insert),
        "delete" => Some(Verb::Delete),
        "guard" => Some(Verb::Guard),
        "declare" => Some(Verb::Declare),
        "add" => Some(Verb::Add),
        "drop" => Some(Verb::Drop),
        "why" => Some(Verb::Why),
        "undo" => Some(Verb::Undo),
        "redo" => Some(Verb::Redo),
        "ask" => Some(Verb::Ask),
        "begin" => Some(Verb::Begin),
        "step" => Some(Verb::Step),
        "cancel" => Some(Verb::Cancel),
        "faults" => Some(Verb::Faults),
        _ => None,
    }
}

/// The verdict of a name.
#[tactic(auto, unfolding(crate::specs::Names::verdict_of))]
pub(crate) fn verdict_of(name: &str) -> Option<FaultVerdict>
    ensures is { result ≡ verdict_of name.now }
{
    match name {
        "dead" => Some(FaultVerdict::Dead),
        "safe" => Some(FaultVerdict::Safe),
        "may" => Some(FaultVerdict::May),
        "fails" => Some(FaultVerdict::Fails),
        _ => None,
    }
}
