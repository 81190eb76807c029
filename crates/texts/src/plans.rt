//! A plan, and a plan while its lines come in.

ghost use Rattle.std.specs.Prelude.{◌≡◌, ◌≤◌, true, vec_len};
ghost use Rattle.texts.specs.Parties.{apart, few_slots, known_parties};

use crate::forms::{PlanHop, PlanParty};

/// The lines of a plan so far: at most eight hops and at most sixteen parties, no party twice.
#[derive(Drop)]
pub struct Draft {
    pub(crate) hops: Vec<PlanHop>,
    pub(crate) parties: Vec<PlanParty>,
    ghost few_hops: { vec_len hops ≤ 8 },
    ghost few_parties: { vec_len parties ≤ 16 },
    ghost once: { apart parties.items ≡ true },
    ghost short: { few_slots hops.items ≡ true },
    ghost known: { known_parties parties.items ≡ true },
}

/// A plan: all its lines, a hop and a party among them.
#[derive(Drop)]
pub struct Plan {
    pub(crate) draft: Draft,
    ghost some_hops: { 1 ≤ vec_len draft.hops },
    ghost some_parties: { 1 ≤ vec_len draft.parties },
}
