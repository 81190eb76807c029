//! The bounds of a contract, hop by hop.

ghost use Rattle.std.specs.Prelude.{◌≡◌, ℕ, List, length, if◌then◌else◌};
ghost use Rattle.paths.specs.Verdicts.{bound, bad_bound, own_number, bad_hop};

use crate::checks::{END, LEAD_MAX};
use cells::times::Span;
use scheduler::changes::{BOUND_MAX, out_of_range};

/// The bound of a hop; 0 past the last that a path may have.
pub fn bound_at(bounds: &[Span; 8], hop: u8) -> Span
    ensures { result.0 ≡ bound bounds.now hop }
{
    bounds.get(usize::from(hop)).copied().unwrap_or(Span(0))
}

/// The greatest good bound, in slots: at a hop that the path has 128, at one that it lacks 0.
fn greatest(has: bool) -> u32
    ensures { result ≡ (if has then 128 else 0) }
{
    if has { BOUND_MAX } else { 0 }
}

/// The lowest hop with a bad bound, on a path of so many hops whose first is numbered `first`.
pub fn bad_bound(first: u8, hops: u8, bounds: &[Span; 8]) -> Option<u8>
    ensures { (gs : List ℕ) → length gs ≡ hops → result ≡ bad_bound first gs bounds.now }
{
    (first..8).find(|&hop| bound_at(bounds, hop).0 > greatest(hop - first < hops))
}

/// The number by which a path names itself: that of its first hop; the end is 8.
fn own_number(first: u8, hops: u8) -> u8
    ensures { (gs : List ℕ) → length gs ≡ hops → result ≡ own_number first gs }
{
    if hops == 0 { END } else { first }
}

/// The lowest hop with a bad bound, as `bad_bound` says; a lead out of range counts as the path's
/// own.
pub fn bad_hop(first: u8, hops: u8, bounds: &[Span; 8], lead: Span) -> Option<u8>
    ensures { (gs : List ℕ) → length gs ≡ hops → result ≡ bad_hop first gs bounds.now lead.0 }
{
    if out_of_range(1, LEAD_MAX, lead) {
        return Some(own_number(first, hops));
    }
    bad_bound(first, hops, bounds)
}
