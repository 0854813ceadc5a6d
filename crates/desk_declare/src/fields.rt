ghost use Rattle.std.specs.Prelude.{◌≡◌, ◌≢◌, ◌≤◌, Err, IfOk, Ok, option_map};
ghost use Rattle.csv.specs.Records.{fields_of};
ghost use Rattle.desk_declare.specs.Columns.{ending, field_in, read_in};
ghost use Rattle.desk_declare.specs.Declaration.{is_word};
ghost use Rattle.desk_text.specs.Forms.{a_code, a_day, a_name, a_number, an_exemption_number};
ghost use Rattle.desk_declare.specs.Forms.{a_rule};

use crate::DeclareFault;
use csv::ByteRecord;
use desk_law::Rule;
use desk_text::{Code, Day, ExemptionNumber, Name, NameFault, read_u64};
use std::alloc::Global;

/// The fields of a record, by their columns, which count from 1.
#[derive(Drop)]
pub(crate) struct Fields<'a> {
    /// The number of the record among those of the text, from 1 on.
    pub place: u64,
    /// The record.
    pub row: &'a ByteRecord,
}

impl<'a> Fields<'a> {
    /// The field in a column, if there is one.
    fn get(&self, column: u8) -> Option<&[u8]>
        requires { 1 ≤ column }
        ensures { option_map (λ field. field.now) result ≡ field_in column (fields_of self.now.row.now) }
    {
        self.row.get(usize::from(column) - 1)
    }

    /// Whether there is a field in a column, and it is this word.
    pub(crate) fn is_word(&self, column: u8, word: &[u8]) -> bool
        requires { 1 ≤ column }
        ensures { result ≡ is_word word.now (field_in column (fields_of self.now.row.now)) }
    {
        match self.get(column) {
            Some(field) => field == word,
            None => false,
        }
    }

    /// The fault of a column whose field is missing, or isn't of its form.
    fn bad(&self, column: u8) -> DeclareFault
        ensures { result ≡ DeclareFault.BadField self.now.place column }
    {
        DeclareFault::BadField {
            place: self.place,
            column: u64::from(column),
        }
    }

    /// The code in a column.
    #[tactic(auto, unfolding(crate::specs::Columns::read_in, desk_text::specs::Forms::a_code))]
    pub(crate) fn code(&self, column: u8) -> Result<Code, DeclareFault>
        requires { 1 ≤ column }
        ensures { result ≡ read_in column a_code self.now.place (fields_of self.now.row.now) }
    {
        self.get(column)
            .and_then(|field| Code::read(field).ok())
            .ok_or(self.bad(column))
    }

    /// The name in a column.
    #[tactic(auto, unfolding(crate::specs::Columns::read_in, desk_text::specs::Forms::a_name))]
    pub(crate) fn name(&self, alloc: Global, column: u8) -> Result<Name, DeclareFault>
        requires { 1 ≤ column }
        ensures { result ≢ Err DeclareFault.OutOfMemory → result ≡ read_in column a_name self.now.place (fields_of self.now.row.now) }
    {
        let Some(field) = self.get(column) else {
            return Err(self.bad(column));
        };
        match Name::read(alloc, field) {
            Ok(name) => Ok(name),
            Err(NameFault::OutOfMemory) => Err(DeclareFault::OutOfMemory),
            Err(_) => Err(self.bad(column)),
        }
    }

    /// The day in a column.
    #[tactic(auto, unfolding(crate::specs::Columns::read_in, desk_text::specs::Forms::a_day))]
    pub(crate) fn day(&self, column: u8) -> Result<Day, DeclareFault>
        requires { 1 ≤ column }
        ensures { result ≡ read_in column a_day self.now.place (fields_of self.now.row.now) }
    {
        self.get(column)
            .and_then(|field| Day::read(field).ok())
            .ok_or(self.bad(column))
    }

    /// The rule whose code is in a column.
    #[tactic(auto, unfolding(crate::specs::Columns::read_in, crate::specs::Forms::a_rule))]
    pub(crate) fn rule(&self, column: u8) -> Result<Rule, DeclareFault>
        requires { 1 ≤ column }
        ensures { result ≡ read_in column a_rule self.now.place (fields_of self.now.row.now) }
    {
        self.get(column)
            .and_then(Rule::read)
            .ok_or(self.bad(column))
    }

    /// The number of an exemption in a column.
    #[tactic(auto, unfolding(crate::specs::Columns::read_in, desk_text::specs::Forms::an_exemption_number))]
    pub(crate) fn exemption_number(&self, column: u8) -> Result<ExemptionNumber, DeclareFault>
        requires { 1 ≤ column }
        ensures { result ≡ read_in column an_exemption_number self.now.place (fields_of self.now.row.now) }
    {
        self.get(column)
            .and_then(|field| ExemptionNumber::read(field).ok())
            .ok_or(self.bad(column))
    }

    /// The number in a column, from a least one to a greatest one.
    #[tactic(auto, unfolding(crate::specs::Columns::read_in, desk_text::specs::Forms::a_number))]
    pub(crate) fn number(&self, column: u8, least: u64, greatest: u64) -> Result<u64, DeclareFault>
        requires { 1 ≤ column }
        ensures value { result ≡ read_in column (a_number least greatest) self.now.place (fields_of self.now.row.now) }
        ensures range { IfOk result (λ number. (least ≤ number) × (number ≤ greatest)) }
    {
        let Some(field) = self.get(column) else {
            return Err(self.bad(column));
        };
        match read_u64(field) {
            Ok(number) if least <= number && number <= greatest => Ok(number),
            _ => Err(self.bad(column)),
        }
    }

    /// The fault of a column past the last, if the record has one.
    pub(crate) fn end(&self, last: u8) -> Result<(), DeclareFault>
        ensures { result ≡ ending last self.now.place (fields_of self.now.row.now) (Ok tt) }
    {
        if usize::from(last) < self.row.len() {
            return Err(DeclareFault::BadField {
                place: self.place,
                column: u64::from(last) + 1,
            });
        }
        Ok(())
    }
}
