ghost use Rattle.std.specs.Prelude.{◌≡◌, slice_get};
ghost use Rattle.memo.specs.Numbers.{at_in, known_in};

/// One of the two generations of a memo.
#[derive(Clone, Copy)]
pub enum Age {
    /// What came since the last call of `forget`.
    Recent,
    /// What came between that call and the one before.
    Earlier,
}

/// The number of a tree that a memo keeps. It is that tree's until `forget` is called.
#[derive(Clone, Copy)]
pub struct TreeNumber {
    /// The generation that keeps the tree.
    pub age: Age,
    /// The number of trees before it there.
    pub at: usize,
}

impl TreeNumber {
    /// What it is in a generation, if it is of that one.
    fn at_in(self, age: Age) -> Option<usize>
        ensures { result ≡ at_in age self.age self.at }
    {
        match (age, self.age) {
            (Age::Recent, Age::Recent) => Some(self.at),
            (Age::Earlier, Age::Earlier) => Some(self.at),
            (Age::Recent, Age::Earlier) => None,
            (Age::Earlier, Age::Recent) => None,
        }
    }
}

/// What is known at a place, in one of the generations.
pub(crate) fn known_at(known: &[Option<TreeNumber>], place: usize, age: Age) -> Option<usize>
    ensures { result ≡ known_in age (slice_get known.now place) }
{
    match known.get(place) {
        Some(Some(number)) => number.at_in(age),
        _ => None,
    }
}
