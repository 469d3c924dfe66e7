use std::marker::Brand;

/// Names what a value has to be to stand in the cell of a number, since of what stands in a cell no more is known than its type says. Whoever
/// makes a row of cells picks it.
pub trait Meaning<T> {
    ghost use Rattle.std.specs.Prelude.{ℕ};

    ghost means: { ℕ → T → Type 0 };
}

impl<T> Meaning<T> for Brand {
    ghost means = { λ number value. Unit {0} };
}
