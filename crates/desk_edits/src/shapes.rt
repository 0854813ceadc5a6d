//! The keys of each word, in the order in which faults are looked for.

use crate::EditKey::{
    Annex, Application, Cap, Cas, Child, Code, Count, Day, Factor, Floor, From, Kind, Kinds, Name,
    Number, Parent, Part, Product, Row, Rule, Substance, Ticket, Units, Until, Year,
};
use crate::shape_key::ShapeKey;
use crate::shape_key::ShapeKey::{Needed, Optional};

/// The keys of `substance`.
pub(crate) const SUBSTANCE: [ShapeKey; 4] = [
    Needed(Ticket),
    Needed(Code),
    Needed(Name),
    Optional(Cas),
];

/// The keys of `member`.
pub(crate) const MEMBER: [ShapeKey; 4] = [
    Needed(Ticket),
    Needed(Substance),
    Needed(Rule),
    Needed(Factor),
];

/// The keys of `part`.
pub(crate) const PART: [ShapeKey; 4] = [Needed(Ticket), Needed(Code), Needed(Kind), Needed(Name)];

/// The keys of `line`.
pub(crate) const LINE: [ShapeKey; 4] = [
    Needed(Ticket),
    Needed(Parent),
    Needed(Child),
    Needed(Count),
];

/// The keys of `unline`.
pub(crate) const UNLINE: [ShapeKey; 3] = [Needed(Ticket), Needed(Parent), Needed(Child)];

/// The keys of `product`.
pub(crate) const PRODUCT: [ShapeKey; 3] = [Needed(Ticket), Needed(Part), Needed(Kind)];

/// The keys of `exemption`.
pub(crate) const EXEMPTION: [ShapeKey; 11] = [
    Needed(Ticket),
    Needed(Row),
    Needed(Annex),
    Needed(Number),
    Needed(Rule),
    Needed(Kinds),
    Needed(Application),
    Needed(From),
    Needed(Until),
    Optional(Floor),
    Optional(Cap),
];

/// The keys of `unexempt`.
pub(crate) const UNEXEMPT: [ShapeKey; 2] = [Needed(Ticket), Needed(Row)];

/// The keys of `candidate`.
pub(crate) const CANDIDATE: [ShapeKey; 3] = [Needed(Ticket), Needed(Substance), Needed(Day)];

/// The keys of `ship` and of `unship`.
pub(crate) const SHIPMENT: [ShapeKey; 4] = [
    Needed(Ticket),
    Needed(Product),
    Needed(Year),
    Needed(Units),
];
