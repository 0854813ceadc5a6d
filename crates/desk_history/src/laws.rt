//! Laws of the definitions in `specs/`, each proved as the contract of a function that does nothing.

ghost use Rattle.desk_history.specs.Laws.{AcceptedEditsAreKept, AffectedAreListed, AffectedRise, BeginningsAreNumbered, EditsAreEnteredOnce, NumbersNamePrefixes, NumbersStayWhole, OnlyNewEditsChange, OnlySomeSumsRise, OthersStay, RefusalsAreTold, SumsDecideTheRest, TablesStayConsistent, TablesStaySound, UnsoundIsTold, YearsChangeByTheirOwn};

/// A refused edit changes nothing, and neither does a repeated one, which gets its kept number.
pub fn only_new_edits_change()
    ensures { OnlyNewEditsChange }
{}

/// An edit that isn't kept is refused by the first refusal that it meets, with that refusal's values, and by nothing else.
pub fn refusals_are_told()
    ensures { RefusalsAreTold }
{}

/// An accepted edit gets the next number, is kept with it from then on, and adds one ticket.
pub fn accepted_edits_are_kept()
    ensures { AcceptedEditsAreKept }
{}

/// Each edit of a history is entered once: its ticket isn't there before it, and is kept with its number to the end.
pub fn edits_are_entered_once()
    ensures { EditsAreEnteredOnce }
{}

/// Ticket numbers stay 1 to n, each once, through every step.
pub fn numbers_stay_whole()
    ensures { NumbersStayWhole }
{}

/// Each number of a history names one beginning of it and no other, which is a history of that number.
pub fn numbers_name_prefixes()
    ensures { NumbersNamePrefixes }
{}

/// A beginning of a history has no greater number, and a number names the same beginning of every longer history.
pub fn beginnings_are_numbered()
    ensures { BeginningsAreNumbered }
{}

/// The start tables hold together, and an edit that passes the refusals 1 to 20 leaves tables that do, and that keep their limits.
pub fn tables_stay_consistent()
    ensures { TablesStayConsistent }
{}

/// An edit that passes the refusals 1 to 20 is accepted exactly where the tables that it leaves keep their sums.
pub fn sums_decide_the_rest()
    ensures { SumsDecideTheRest }
{}

/// Tables in order are unsound exactly where a key of some table breaks a clause.
pub fn unsound_is_told()
    ensures { UnsoundIsTold }
{}

/// At tables that keep their sums an edit that can't raise a sum, by its sort, meets no refusal on it.
pub fn only_some_sums_rise()
    ensures { OnlySomeSumsRise }
{}

/// Units that are shipped or taken off change their year by what they weigh, and any other edit leaves a year whose products it
/// doesn't affect.
pub fn years_change_by_their_own()
    ensures { YearsChangeByTheirOwn }
{}

/// The start tables are sound, a step keeps tables sound, and a history leaves sound tables.
pub fn tables_stay_sound()
    ensures { TablesStaySound }
{}

/// A material or part that an edit, once it passes the refusals 1 to 20, doesn't affect weighs, reaches, carries and is found to have what it did, by
/// the same chains, and so does what it has of its own; a part has its lines, and a material is the same, with the same share for each rule.
pub fn others_stay()
    ensures { OthersStay }
{}

/// What reaches an affected material or part is affected.
pub fn affected_rise()
    ensures { AffectedRise }
{}

/// Each kept material and part that such an edit affects is listed once, and nothing else is.
pub fn affected_are_listed()
    ensures { AffectedAreListed }
{}
