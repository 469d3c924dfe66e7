ghost use Rattle.std.specs.Prelude.{◌≡◌, ◌≤◌, ◌↔◌, IsTrue, List, true, length};
ghost use Rattle.globs.specs.Cut.{CanBeCut};
ghost use Rattle.globs.specs.PrivateSearch.{IsFound};

/// A part of a pattern of lists of `T`: it takes any run of items, or one item that it holds of.
pub trait Fits<T> {
    ghost use Rattle.std.specs.Prelude.{Bool, ◌≡◌};

    ghost takes_any: { Self → Bool };

    ghost holds: { Self → T → Bool };

    /// Whether it takes any run of items, also an empty one.
    fn takes_any(&self) -> bool
        ensures { result ≡ takes_any self.now };

    /// Whether it holds of an item. It is asked of parts that take one item alone.
    fn holds(&self, item: &T) -> bool
        ensures { result ≡ holds self.now item.now };
}

/// What a search for a cut says.
#[derive(Clone, Copy, Debug)]
pub(crate) enum Found {
    /// The items can be cut.
    Yes,
    /// They can't.
    No,
    /// Neither they nor any tail of them can: what stands before needs no other try.
    Never,
}

/// The parts without all but the last of the runs that they begin with: runs behind one another take what the last of them takes alone.
pub(crate) fn from_last_run<T, P: Fits<T>>(parts: &[P]) -> &[P]
    ensures fewer { length result.now ≤ length parts.now }
    ensures same { (items : List T) → CanBeCut P.takes_any (λ part item. P.holds part item ≡ true) result.now items
        ↔ CanBeCut P.takes_any (λ part item. P.holds part item ≡ true) parts.now items }
{
    match parts {
        [] => parts,
        [_, ..] => {
            for index in 1..parts.len() {
                if !parts[index - 1].takes_any() || !parts[index].takes_any() {
                    return &parts[index - 1..];
                }
            }
            &parts[parts.len() - 1..]
        }
    }
}

/// Looks for a cut from the front. Once a run was reached, what stands before it is never tried again, so it costs no more than
/// the parts times the items, and it calls itself no deeper than three times the items.
fn search<T, P: Fits<T>>(parts: &[P], items: &[T]) -> Found
    ensures { IsFound P.takes_any (λ part item. P.holds part item ≡ true) result parts.now items.now }
{
    match parts {
        [] => {
            if items.is_empty() {
                Found::Yes
            } else {
                Found::No
            }
        }
        [part, rest @ ..] => {
            if !part.takes_any() {
                return match items {
                    [] => Found::Never,
                    [item, tail @ ..] => {
                        if part.holds(item) {
                            search(rest, tail)
                        } else {
                            Found::No
                        }
                    }
                };
            }
            if let [next, ..] = rest
                && next.takes_any()
            {
                return search(from_last_run::<T, P>(rest), items);
            }
            match search(rest, items) {
                Found::Yes => Found::Yes,
                Found::Never => Found::Never,
                Found::No => match items {
                    [] => Found::Never,
                    [_, tail @ ..] => search(parts, tail),
                },
            }
        }
    }
}

/// Whether a list of items can be cut so that each part relates to its piece. It compares last items first, as long as no run stands
/// at the end, so that most lists are refused by one comparison.
pub fn can_be_cut<T, P: Fits<T>>(parts: &[P], items: &[T]) -> bool
    ensures { IsTrue result ↔ CanBeCut P.takes_any (λ part item. P.holds part item ≡ true) parts.now items.now }
{
    match parts {
        [] => items.is_empty(),
        [front @ .., last] => {
            if last.takes_any() {
                matches!(search(parts, items), Found::Yes)
            } else {
                match items {
                    [] => false,
                    [others @ .., item] => last.holds(item) && can_be_cut(front, others),
                }
            }
        }
    }
}
