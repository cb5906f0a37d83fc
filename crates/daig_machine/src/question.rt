//! What tickets ask.

use base_values::Items;
use fault_words::FaultVerdict;
use imp_syntax::Location;

/// A question that is answered in steps. A call string has the outermost call first.
#[derive(Debug, Drop)]
pub enum Question {
    /// The state at a location under a call string.
    State {
        /// The location.
        at: Location,
        /// The call string.
        string: Items<u32>,
    },
    /// The statements that this state depends on.
    Why {
        /// The location.
        at: Location,
        /// The call string.
        string: Items<u32>,
    },
    /// The findings of all checks.
    Report,
    /// What is found of every fault that can end a run.
    Faults {
        /// The verdict of those that are wanted; all where there is none. It changes nothing of what is filled.
        only: Option<FaultVerdict>,
    },
}
