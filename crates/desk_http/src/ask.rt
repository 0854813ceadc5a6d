use desk_scratch::Question;

/// What a request asks.
#[derive(Clone, Copy, Debug, PartialEq, Eq)]
pub enum Ask {
    /// A question of the tables.
    Question(Question),
    /// That an edit is made, which its body has in JSON.
    Edit,
    /// That a declaration is entered, which its body has in CSV.
    Declaration,
}
