//! Laws of the definitions in `specs/`, each proved as the contract of a function that does nothing.

ghost use Rattle.desk_front.specs.Laws.{AnswersBeginWithAllMet, TalksHaveNumbers, TalksStayTrue};

/// A talk has numbers, and a talk by its numbers is a talk.
pub fn talks_have_numbers()
    ensures { TalksHaveNumbers }
{}

/// Each answer of a talk is at a list that begins with every list met before it, and is the beginning of the whole list that its number
/// names.
pub fn answers_begin_with_all_met()
    ensures { AnswersBeginWithAllMet }
{}

/// What is told from a list is told from every longer one.
pub fn talks_stay_true()
    ensures { TalksStayTrue }
{}
