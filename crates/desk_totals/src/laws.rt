//! Laws of the definitions in `specs/`, each proved as the contract of a function that does nothing.

ghost use Rattle.desk_totals.specs.Laws.{PartsWithItself, TablesAreLinked};

/// Links can be made of the bill of sound tables.
pub fn tables_are_linked()
    ensures { TablesAreLinked }
{}

/// The parts that are a part or reach it are one more than those that reach it, on a bill without cycles.
pub fn parts_with_itself()
    ensures { PartsWithItself }
{}
