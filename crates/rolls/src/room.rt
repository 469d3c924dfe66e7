use std::marker::Brand;

/// Names one roll, as the table that it is made on. Whoever makes a roll picks it.
pub trait Room {
    ghost use Rattle.atomic_table.specs.Seated.{TableId};

    ghost table: { TableId };
}

impl Room for Brand {
    ghost use Rattle.rolls.specs.Rolls.{no_table};

    ghost table = { no_table };
}
