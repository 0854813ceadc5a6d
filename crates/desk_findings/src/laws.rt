//! Laws of the definitions in `specs/`, each proved as the contract of a function that does nothing.

ghost use Rattle.desk_findings.specs.Holders.{FindingsAreHeld};
ghost use Rattle.desk_findings.specs.Laws.{CarriedByLines, CarriedWithinMass, ChainByNext, ChainLeads, DepthIsEnough, FindingsAreStored, FindingsByHolder, FindingsByLines, FirstsAreLeast, MassByLines, ReachesByLines, RowsStandTogether, StoredMarkIsRight, StoredRollUpIsRight};
ghost use Rattle.desk_findings.specs.Numbering.{FindingsAreNumbered};
ghost use Rattle.desk_findings.specs.OwnValues.{OwnBySort};

/// On sound tables the recursions over the bill of materials come to the same at any greater depth.
pub fn depth_is_enough()
    ensures { DepthIsEnough }
{}

/// On sound tables a part reaches the children of its lines, what these reach, and nothing else.
pub fn reaches_by_lines()
    ensures { ReachesByLines }
{}

/// On sound tables the mass of a code is its own and, for each line, count times the child's mass.
pub fn mass_by_lines()
    ensures { MassByLines }
{}

/// On sound tables what a code carries is its own load and, for each line, count times what the child carries.
pub fn carried_by_lines()
    ensures { CarriedByLines }
{}

/// On sound tables a chain is the part alone, or the part and the chain of its next child.
pub fn chain_by_next()
    ensures { ChainByNext }
{}

/// On sound tables a stored value that is right by the values stored at the children is what rolls up.
pub fn stored_roll_up_is_right()
    ensures { StoredRollUpIsRight }
{}

/// On sound tables a stored mark that is right by the marks stored at the children says whether a part reaches the target.
pub fn stored_mark_is_right()
    ensures { StoredMarkIsRight }
{}

/// On sound tables a chain begins with the part, goes from line to line, and ends with the target exactly where the part is
/// it or reaches it.
pub fn chain_leads()
    ensures { ChainLeads }
{}

/// The next child of a chain, the part that is told to be too heavy and the year that is have the least code or number of all
/// that might be taken.
pub fn firsts_are_least()
    ensures { FirstsAreLeast }
{}

/// On sound tables what a part carries of a substance never exceeds its mass.
pub fn carried_within_mass()
    ensures { CarriedWithinMass }
{}

/// What is found at a material or a part is its own and what is found at the children of its lines, each once.
pub fn findings_by_lines()
    ensures { FindingsByLines }
{}

/// Lists of findings that are stored by lines hold what is found, and their lengths sum to the number of all findings.
pub fn findings_are_stored()
    ensures { FindingsAreStored }
{}

/// All findings are those of each material and article, times the parts that reach it or are it.
pub fn findings_by_holder()
    ensures { FindingsByHolder }
{}

/// The lines of a part, the shipments of a year and the members of a substance each stand together in their table.
pub fn rows_stand_together()
    ensures { RowsStandTogether }
{}

/// A finding is at a code exactly where the code is its holder or reaches it, and the holder has it as its own; the first child that
/// has it leads the way of the chain.
pub fn findings_are_held()
    ensures { FindingsAreHeld }
{}

/// What a code has of its own, by its sort: of an article it is made of its lines, the materials under them and the candidates.
pub fn own_by_sort()
    ensures { OwnBySort }
{}

/// Numbers that are stored by lines are those of the findings, and all findings are as many as are stored at codes that have lines.
pub fn findings_are_numbered()
    ensures { FindingsAreNumbered }
{}
