use std::marker::Model;

/// Room for more rows of a table, made ahead so that putting them in takes no memory: nothing where the table had the room itself,
/// else an empty list that is to take the table's place. Contracts see how many rows that list holds.
#[derive(Drop)]
pub struct Room<R: Drop> {
    pub(crate) fresh: Option<Vec<R>>,
}

impl<R: Drop> Model for Room<R> {
    ghost use Rattle.std.specs.Prelude.{ℕ, Option, option_map, vec_capacity};
    ghost use Rattle.desk_rows.specs.Held.{IsFresh};

    ghost Value = { Option ℕ };

    ghost view = { λ room. option_map (λ rows. vec_capacity rows) room.fresh };

    ghost invariant = { λ room. IsFresh (option_map (λ rows. rows.items) room.fresh) };
}
