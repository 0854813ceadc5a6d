ghost use Rattle.std.specs.Prelude.{◌≡◌, true};
ghost use Rattle.desk_model.specs.Forms.{are_units, is_edit_in_form, is_of_bill, is_optional_cas, is_year};
ghost use Rattle.desk_model.specs.Values.{is_code, is_name};

use crate::{Edit, Units, Year};
use desk_text::{Cas, Code, Name};

impl Edit {
    /// Says that the edit's values are of their form and in their range, as their types keep them. It does nothing.
    #[tactic(auto, unfolding(crate::specs::Forms::is_edit_in_form))]
    pub fn in_form(&self)
        ensures { is_edit_in_form self.now ≡ true }
    {
        match self {
            Edit::Substance {
                ticket,
                code,
                name,
                cas,
            } => {
                named(ticket, code, name);
                optional_cas(cas);
            }
            Edit::Member {
                ticket,
                substance,
                factor,
                ..
            } => {
                codes(ticket, substance);
                factor.get();
            }
            Edit::Declare { declaration } => {
                declaration.materials();
            }
            Edit::Exemption { ticket, exemption } => {
                ticket.as_bytes();
                exemption.in_form();
            }
            Edit::Unexempt { ticket, row } => codes(ticket, row),
            Edit::Candidate {
                ticket,
                substance,
                day,
            } => {
                codes(ticket, substance);
                day.year();
            }
            _ => self.bill_in_form(),
        }
    }

    /// The same of an edit of a part, a line, a product or its shipments.
    #[tactic(auto, unfolding(crate::specs::Forms::is_edit_in_form))]
    fn bill_in_form(&self)
        requires { is_of_bill self.now ≡ true }
        ensures { is_edit_in_form self.now ≡ true }
    {
        match self {
            Edit::Part {
                ticket,
                code,
                name,
                ..
            } => named(ticket, code, name),
            Edit::Line {
                ticket,
                parent,
                child,
                count,
            } => {
                three_codes(ticket, parent, child);
                count.get();
            }
            Edit::Unline {
                ticket,
                parent,
                child,
            } => three_codes(ticket, parent, child),
            Edit::Product { ticket, part, .. } => codes(ticket, part),
            Edit::Ship {
                ticket,
                product,
                year,
                units,
            } => shipped(ticket, product, *year, *units),
            Edit::Unship {
                ticket,
                product,
                year,
                units,
            } => shipped(ticket, product, *year, *units),
            _ => {}
        }
    }
}

/// Says that the two are codes.
fn codes(first: &Code, second: &Code)
    ensures first { is_code first.now ≡ true }
    ensures second { is_code second.now ≡ true }
{
    first.as_bytes();
    second.as_bytes();
}

/// Says that the three are codes.
fn three_codes(first: &Code, second: &Code, third: &Code)
    ensures first { is_code first.now ≡ true }
    ensures second { is_code second.now ≡ true }
    ensures third { is_code third.now ≡ true }
{
    codes(first, second);
    third.as_bytes();
}

/// Says that the two are codes, and that the name is one.
fn named(ticket: &Code, code: &Code, name: &Name)
    ensures ticket { is_code ticket.now ≡ true }
    ensures code { is_code code.now ≡ true }
    ensures name { is_name name.now ≡ true }
{
    codes(ticket, code);
    name.as_bytes();
}

/// Says that the two are codes, and that year and units are in their ranges.
fn shipped(ticket: &Code, product: &Code, year: Year, units: Units)
    ensures ticket { is_code ticket.now ≡ true }
    ensures product { is_code product.now ≡ true }
    ensures year { is_year year ≡ true }
    ensures units { are_units units ≡ true }
{
    codes(ticket, product);
    year.get();
    units.get();
}

/// Says that it is a CAS number, if there is one.
fn optional_cas(cas: &Option<Cas>)
    ensures { is_optional_cas cas.now ≡ true }
{
    if let Some(cas) = cas {
        cas.as_bytes();
    }
}
