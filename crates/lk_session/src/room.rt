//! Which table it is.

use std::marker::Brand;

/// Names one table, in contracts alone. Each call of a program picks it.
pub trait Room {
    ghost use Rattle.atomic_table.specs.Seated.{TableId};

    ghost table: { TableId };
}

impl Room for Brand {
    ghost use Rattle.lk_session.specs.Seats.{no_table};

    ghost table = { no_table };
}
