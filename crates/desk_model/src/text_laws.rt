//! Laws of the texts of edits and of the codes of tickets, each proved as the contract of a function that does nothing.

ghost use Rattle.desk_model.specs.TextLaws.{TextsTellApart, TicketsTellApart};

/// Two edits in form that have one ticket code and one text are the same edit.
pub fn texts_tell_apart()
    ensures { TextsTellApart }
{}

/// A ticket's code tells whether it is of a declaration, of which supplier and number, and else which ticket the sender chose.
pub fn tickets_tell_apart()
    ensures { TicketsTellApart }
{}
