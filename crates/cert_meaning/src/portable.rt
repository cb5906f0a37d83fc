//! States as texts, and their order.
ghost use Rattle.std.specs.Prelude.{◌≡◌, IfOk};
ghost use Rattle.cert_meaning.specs.Portable.{Portable as Port, PortableLaws};

use base_values::{Memory, Text};
use domain_laws::Domain;
use imp_slots::Layout;
use std::alloc::Global;

/// A domain whose states can be carried: written as a text, read back, and compared.
///
/// The only error is out of memory.
pub trait Portable: Domain {
    ghost port: { Self → Port Self.State };

    /// The text of a state.
    fn put(&self, alloc: Global, s: &Self::State) -> Result<Text, Memory>
        ensures value { IfOk result (λ t. t ≡ (port self.now).put s.now) };

    /// The state of frames with these layouts, the last one's first, that has this text, or None exactly
    /// where no state that fits has it.
    fn take(
        &self,
        alloc: Global,
        layouts: &[Layout],
        text: &[u8],
    ) -> Result<Option<Self::State>, Memory>
        ensures value { IfOk result (λ o. o ≡ (port self.now).take layouts.now text.now) };

    /// Whether the left state is found below the right one: it describes nothing that the right one does not.
    fn leq(&self, alloc: Global, l: &Self::State, r: &Self::State) -> Result<bool, Memory>
        ensures value { IfOk result (λ b. b ≡ (port self.now).leq l.now r.now) };

    ghost port_laws: { (d : Self) → PortableLaws (Self.operations d) (Self.covers d) (port d) };
}
