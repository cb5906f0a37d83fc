//! Why an action does not come to its end.
ghost use Rattle.std.specs.Prelude.{◌≡◌};

use base_values::Memory;
use concrete_sem::FaultKind;

/// Why an action does not come to its end.
#[derive(Clone, Copy, Debug, PartialEq, Eq)]
pub(crate) enum Halt {
    Fault(FaultKind),
    NoInput,
    Memory,
}

impl From<Memory> for Halt {
    ghost use Rattle.imp_run.specs.declared.halt.Halt.TheVariants as h;

    ghost from_gives = { λ memory halt. halt ≡ h.Memory };

    fn from(_memory: Memory) -> Halt {
        Halt::Memory
    }
}
