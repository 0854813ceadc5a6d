ghost use Rattle.std.specs.Prelude.{◌≡◌, ◌↔◌, IsTrue, [], ◌∷◌, not, Some};
ghost use Rattle.desk_law.specs.KindSet.{has_kind, is_subset, kinds_text, set_of};

use crate::Kind;
use std::fmt;
use std::marker::Model;

/// A set of kinds of equipment. It takes no memory.
#[derive(Clone, Copy, Debug, PartialEq, Eq)]
pub struct KindSet {
    marks: [bool; 14],
}

impl Model for KindSet {
    ghost use Rattle.std.specs.Prelude.{◌≡◌, List, length, map};
    ghost use Rattle.desk_law.specs.declared.kind.Kind.{Kind};
    ghost use Rattle.desk_law.specs.Kind.{all_kinds};
    ghost use Rattle.desk_law.specs.KindSet.{has_kind};
    ghost use Rattle.desk_law.specs.KindMarks.{marked_kinds, marks-marked_kinds};

    ghost Value = { List Kind };

    ghost view = { λ s. marked_kinds s.marks };

    ghost invariant = { λ s. length s.marks ≡ 14 };

    ghost inverse = { λ kinds. record { marks = map (has_kind kinds) all_kinds } };

    ghost inverse_ok = { λ s h i. record { marks = marks-marked_kinds s.marks h i } };
}

impl KindSet {
    /// The set of no kinds.
    pub fn new() -> KindSet
        ensures { result ≡ [] }
    {
        KindSet { marks: [false; 14] }
    }

    /// Whether the kind is in the set.
    pub fn contains(&self, kind: Kind) -> bool
        ensures value { result ≡ has_kind self.now kind }
        ensures form { self.now ≡ set_of self.now }
    {
        self.marks[kind.place()]
    }

    /// Puts the kind into the set. The answer is whether it was not there.
    pub fn insert(&mut self, kind: Kind) -> bool
        ensures new { self.new ≡ set_of (kind ∷ self.old) }
        ensures was { result ≡ not (has_kind self.old kind) }
    {
        let is_new = !self.marks[kind.place()];
        self.marks[kind.place()] = true;
        is_new
    }

    /// Whether each kind of this set is in the other.
    #[tactic(auto, unfolding(crate::specs::KindSet::is_subset))]
    pub fn is_subset(&self, other: &KindSet) -> bool
        ensures { result ≡ is_subset self.now other.now }
    {
        Kind::ALL
            .iter()
            .all(|kind| !self.contains(*kind) || other.contains(*kind))
    }

    /// Whether the set has no kind.
    pub fn is_empty(&self) -> bool
        ensures empty { IsTrue result ↔ (self.now ≡ []) }
        ensures form { self.now ≡ set_of self.now }
    {
        self.marks == [false; 14]
    }
}

impl Default for KindSet {
    ghost is_default = { λ set. set ≡ [] };

    fn default() -> KindSet {
        KindSet::new()
    }
}

/// The set of the kinds that the list has, in any order and any number of times.
impl From<&[Kind]> for KindSet {
    ghost from_gives = { λ kinds set. set ≡ set_of kinds.now };

    fn from(kinds: &[Kind]) -> KindSet {
        let mut set = KindSet::new();
        for &kind in kinds {
            set.insert(kind);
        }
        set
    }
}

/// The codes in the order of Annex I, joined by commas.
impl fmt::Display for KindSet {
    ghost output = { λ kinds. Some (kinds_text kinds) };

    fn fmt<W: fmt::Write>(&self, f: &mut fmt::Formatter<W>) -> fmt::Result {
        let marks = &self.marks;
        let mut is_first = true;
        for kind in Kind::ALL {
            if marks[kind.place()] {
                let mark = if is_first { "" } else { "," };
                write!(f, "{mark}{kind}")?;
                is_first = false;
            }
        }
        Ok(())
    }
}
