ghost use Rattle.std.specs.Prelude.{◌≡◌, true, None, Some, if◌then◌else◌};
ghost use Rattle.desk_model.specs.Forms.{is_exemption_row};
ghost use Rattle.desk_model.specs.Terms.{are_kinds, are_terms_in_range, is_ppm};

use crate::limits::PPM_LIMIT;
use desk_law::{KindSet, Terms};
use desk_text::Name;
use std::marker::Model;

/// An exemption row as an edit enters it: the terms name a set of at least one kind, and floor and cap are at most
/// 1,000,000 ppm.
/// Contracts see the row.
#[derive(Debug, Drop)]
pub struct Exemption {
    /// The row's code, the exemption that it is of, and for what and when it holds.
    pub terms: Terms,
    /// What the exemption is for, in the words of the annex.
    pub application: Name,
}

impl Model for Exemption {
    ghost use Rattle.std.specs.Prelude.{◌≡◌, true};
    ghost use Rattle.desk_model.specs.declared.rows.exemption.ExemptionRow.{ExemptionRow};
    ghost use Rattle.desk_model.specs.Terms.{are_terms_in_range};

    ghost Value = { ExemptionRow };

    ghost view = { λ e. record { terms = e.terms; application = e.application } };

    ghost invariant = { λ e. are_terms_in_range e.terms ≡ true };
}

impl Exemption {
    /// The row of these terms, unless they name no kind of equipment or say a floor or a cap over 1,000,000 ppm.
    pub fn new(terms: Terms, application: Name) -> Option<Exemption>
        ensures { result ≡ (if are_terms_in_range terms then Some (record { terms = terms; application = application }) else None) }
    {
        if are_kinds(&terms.kinds) && is_ppm(terms.floor) && is_ppm(terms.cap) {
            Some(Exemption { terms, application })
        } else {
            None
        }
    }

    /// Says that the row's values are of their form and in their range, as its types keep them. It does nothing.
    #[tactic(auto, unfolding(crate::specs::Forms::is_exemption_row))]
    pub fn in_form(&self)
        ensures { is_exemption_row self.now ≡ true }
    {
        let terms = &self.terms;
        terms.row.as_bytes();
        terms.number.as_bytes();
        terms.first.year();
        terms.last.year();
        self.application.as_bytes();
    }
}

/// Whether there is a kind.
fn are_kinds(kinds: &KindSet) -> bool
    ensures { result ≡ are_kinds kinds.now }
{
    !kinds.is_empty()
}

/// Whether there is no bound, or it is at most the whole material.
fn is_ppm(ppm: Option<u32>) -> bool
    ensures { result ≡ is_ppm ppm }
{
    match ppm {
        Some(ppm) => ppm <= PPM_LIMIT,
        None => true,
    }
}
