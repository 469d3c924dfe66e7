ghost use Rattle.std.specs.Prelude.{◌≡◌, ℕ, List, Option, option_map};

use plain::Text;

/// What gives names their values, as a stage's ENV and ARG do.
pub trait Lookup {
    /// The value that a name has, or none.
    ghost value_of: { Self → List ℕ → Option (List ℕ) };

    /// The value of a name; none where it is unset.
    fn find(&self, name: &Text) -> Option<&Text>
        ensures { option_map (λ text. text.now) result ≡ value_of self.now name.now };
}
