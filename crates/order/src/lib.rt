//! The first record in an order.
#![tactic(auto)]

ghost use Rattle.std.specs.Prelude.{◌≡◌, Bool, true, false, length, MatchOption};
ghost use Rattle.order.specs.First.{First};

/// A total order of records of one kind, in which records may be equal. It is a value of its
/// own, so that one kind of record can stand in several orders.
pub trait Order<T> {
    // whether a record comes before another
    ghost ahead: { Self → T → T → Bool };

    /// Whether `x` comes before `y`.
    fn before(&self, x: &T, y: &T) -> bool
        ensures { result ≡ ahead self.now x.now y.now };

    // of two records, at most one comes before the other
    ghost asymmetric: { (o : Self) (x y : T) → ahead o x y ≡ true → ahead o y x ≡ false };

    // what does not come before a second, which does not come before a third, does not come before that
    ghost transitive: { (o : Self) (x y z : T) → ahead o x y ≡ false → ahead o y z ≡ false → ahead o x z ≡ false };
}

/// The place of the first record in the order, the lowest among equals, or none where there is
/// no record.
pub fn first<T, O: Order<T>>(order: &O, items: &[T]) -> Option<usize>
    ensures { MatchOption result (length items.now ≡ 0) (First (O.ahead order.now) items.now (length items.now)) }
{
    let mut best = None;
    for (i, x) in items.iter().enumerate() {
        match best {
            Some(first) if !beats(order, x, &items[first]) => {}
            _ => best = Some(i),
        }
    }
    best
}

/// Whether a record takes the place of the best before it: it has to come before that.
fn beats<T, O: Order<T>>(order: &O, x: &T, best: &T) -> bool
    ensures { result ≡ O.ahead order.now x.now best.now }
{
    order.before(x, best)
}
