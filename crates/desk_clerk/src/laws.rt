//! Laws of stores and of published versions, each proved as the contract of a function that does nothing.

ghost use Rattle.desk_clerk.specs.Laws.{CoreKeeps, StoresTellOneDesk};

/// Sound tables that keep the same records are the same tables, so a store is opened as one desk and no other.
pub fn stores_tell_one_desk()
    ensures { StoresTellOneDesk }
{}

/// Whatever happens to a desk that is opened, each seat has a beginning of what is published, and that is a beginning of the whole list.
pub fn core_keeps()
    ensures { CoreKeeps }
{}
