ghost use Rattle.std.specs.Prelude.{◌≡◌, ◌<◌, Some, length, slice_get};
ghost use Rattle.memo.specs.PrivateSought.{inputs_of};

use crate::number::TreeNumber;
use llb::Op;
use trees::Tree;

/// What is asked for: an operation, and the trees that it is given. Whoever asks has these in one list, or lends each by itself.
#[derive(Clone, Copy)]
pub(crate) struct Sought<'a, 't> {
    pub op: &'a Op,
    /// The inputs that stand in one list.
    pub listed: &'a [Tree],
    /// The inputs after these.
    pub each: &'a [&'t Tree],
    /// The numbers of the inputs, by their places, as far as they are known.
    pub known: &'a [Option<TreeNumber>],
}

impl<'a, 't> Sought<'a, 't> {
    /// How many inputs there are.
    pub(crate) fn len(&self) -> usize
        ensures { result ≡ length (inputs_of self.now) }
    {
        self.listed.len() + self.each.len()
    }

    /// The input at this place.
    pub(crate) fn at(&self, place: usize) -> &Tree
        requires { place < length (inputs_of self.now) }
        ensures { slice_get (inputs_of self.now) place ≡ Some result.now }
    {
        match self.listed.get(place) {
            Some(tree) => tree,
            None => self.each[place - self.listed.len()],
        }
    }
}
