//! The terms of a contract.

ghost use Rattle.std.specs.Prelude.{◌≡◌, ◌≤◌};
ghost use Rattle.scheduler.specs.Laws.{Terms as Ranged};

use cells::times::Span;
use scheduler::terms::Contract;

/// The terms of a contract, in range: cells come at least `spacing` slots apart, and each is sent
/// within `bound` slots, the one in which it becomes eligible counted.
#[derive(Clone, Copy)]
pub struct Terms {
    pub spacing: Span,
    pub bound: Span,
    ghost spaced: { 1 ≤ spacing.0 },
    ghost near: { spacing.0 ≤ 1024 },
    ghost bounded: { 1 ≤ bound.0 },
    ghost prompt: { bound.0 ≤ 128 },
}

impl Terms {
    /// What a contract in range says of its cells, whatever was put under it.
    pub(crate) fn from_contract(contract: Contract) -> Terms
        requires { Ranged contract }
        ensures spacing { result.spacing ≡ contract.spacing }
        ensures bound { result.bound ≡ contract.bound }
    {
        Terms {
            spacing: contract.spacing,
            bound: contract.bound,
        }
    }
}
