ghost use Rattle.std.specs.Prelude.{◌≡◌, ◌≢◌, Err, IfErr, Ok, OnOk};
ghost use Rattle.csv.specs.Records.{fields_of};
ghost use Rattle.desk_declare.specs.Columns.{row_made_by, read_in};
ghost use Rattle.desk_declare.specs.Declaration.{claim_columns, head_of, material_columns, row_added, substance_columns, with_addition};
ghost use Rattle.desk_text.specs.Forms.{a_code};

use crate::DeclareFault;
use crate::fields::Fields;
use crate::text::is_text;
use csv::ByteRecord;
use desk_law::Claim;
use desk_model::Declaration;
use desk_model::limits::MASS_LIMIT;
use desk_text::Code;
use std::alloc::Global;

/// The declaration that the first record of a text begins.
#[tactic(auto, unfolding(crate::specs::Declaration::head_of, crate::specs::Forms::a_declaration_number))]
pub(crate) fn begin(alloc: Global, row: &ByteRecord) -> Result<Declaration, DeclareFault>
    ensures { result ≢ Err DeclareFault.OutOfMemory → result ≡ head_of (fields_of row.now) }
{
    if !is_text(row) {
        return Err(DeclareFault::NotText { place: 1 });
    }
    let fields = Fields { place: 1, row };
    if !fields.is_word(1, b"D") || !fields.is_word(2, b"1") {
        return Err(DeclareFault::NoHead);
    }
    let supplier = fields.code(3)?;
    let number = fields.number(4, 1, u64::MAX)?;
    let day = fields.day(5)?;
    fields.end(5)?;
    match Declaration::start(alloc, supplier, number, day) {
        Ok(declaration) => Ok(declaration),
        // `start` fails for want of memory alone, and a declaration without materials takes none.
        Err(_) => unreachable!(),
    }
}

/// Adds what a later record lists, by the word in its first column.
#[tactic(auto, unfolding(crate::specs::Declaration::row_added))]
pub(crate) fn add_row(
    alloc: Global,
    declaration: &mut Declaration,
    place: u64,
    row: &ByteRecord,
) -> Result<(), DeclareFault>
    ensures ok { OnOk result (row_added place (fields_of row.now) declaration.old ≡ Ok declaration.new) }
    ensures error { IfErr result (λ fault. fault ≢ DeclareFault.OutOfMemory → row_added place (fields_of row.now) declaration.old ≡ Err fault) }
{
    if !is_text(row) {
        return Err(DeclareFault::NotText { place });
    }
    let fields = Fields { place, row };
    if fields.is_word(1, b"M") {
        return add_material(alloc, declaration, &fields);
    }
    if fields.is_word(1, b"S") {
        return add_substance(declaration, &fields);
    }
    if fields.is_word(1, b"E") {
        return add_claim(declaration, &fields);
    }
    Err(DeclareFault::BadField { place, column: 1 })
}

/// Adds the material that a record lists.
#[tactic(auto, unfolding(crate::specs::Forms::a_mass))]
fn add_material(
    alloc: Global,
    declaration: &mut Declaration,
    fields: &Fields<'_>,
) -> Result<(), DeclareFault>
    ensures ok { OnOk result (with_addition (DeclareFault.RepeatedMaterial fields.now.place) fields.now.place
        (row_made_by material_columns fields.now.place (fields_of fields.now.row.now)) declaration.old ≡ Ok declaration.new) }
    ensures error { IfErr result (λ fault. fault ≢ DeclareFault.OutOfMemory → with_addition (DeclareFault.RepeatedMaterial fields.now.place)
        fields.now.place (row_made_by material_columns fields.now.place (fields_of fields.now.row.now)) declaration.old ≡ Err fault) }
{
    let place = fields.place;
    let code = fields.code(2)?;
    let name = fields.name(alloc, 3)?;
    let mass = fields.number(4, 1, MASS_LIMIT)?;
    fields.end(4)?;
    match declaration.add_material(code, name, mass) {
        Ok(()) => Ok(()),
        Err(error) => Err(DeclareFault::unfit(
            error,
            place,
            DeclareFault::RepeatedMaterial { place },
        )),
    }
}

/// The code of the material that a record is about. Most such records follow the material's own, so the code is compared with that of
/// the last material first, which takes less than to read a code.
#[tactic(auto, unfolding(crate::specs::Columns::read_in, desk_text::specs::Forms::a_code))]
fn material_of(declaration: &Declaration, fields: &Fields<'_>) -> Result<Code, DeclareFault>
    ensures { result ≡ read_in 2 a_code fields.now.place (fields_of fields.now.row.now) }
{
    match declaration.materials().last() {
        Some(last) if fields.is_word(2, last.code.as_bytes()) => Ok(last.code),
        _ => fields.code(2),
    }
}

/// Adds the substance of a material that a record lists.
#[tactic(auto, unfolding(crate::specs::Forms::a_substance_mass))]
fn add_substance(declaration: &mut Declaration, fields: &Fields<'_>) -> Result<(), DeclareFault>
    ensures ok { OnOk result (with_addition (DeclareFault.RepeatedRow fields.now.place) fields.now.place
        (row_made_by substance_columns fields.now.place (fields_of fields.now.row.now)) declaration.old ≡ Ok declaration.new) }
    ensures error { IfErr result (λ fault. fault ≢ DeclareFault.OutOfMemory → with_addition (DeclareFault.RepeatedRow fields.now.place)
        fields.now.place (row_made_by substance_columns fields.now.place (fields_of fields.now.row.now)) declaration.old ≡ Err fault) }
{
    let place = fields.place;
    let material = material_of(declaration, fields)?;
    let substance = fields.code(3)?;
    let mass = fields.number(4, 0, MASS_LIMIT)?;
    fields.end(4)?;
    match declaration.add_substance(&material, substance, mass) {
        Ok(()) => Ok(()),
        Err(error) => Err(DeclareFault::unfit(error, place, DeclareFault::RepeatedRow { place })),
    }
}

/// Adds the claim of exemption that a record lists.
fn add_claim(declaration: &mut Declaration, fields: &Fields<'_>) -> Result<(), DeclareFault>
    ensures ok { OnOk result (with_addition (DeclareFault.RepeatedRow fields.now.place) fields.now.place
        (row_made_by claim_columns fields.now.place (fields_of fields.now.row.now)) declaration.old ≡ Ok declaration.new) }
    ensures error { IfErr result (λ fault. fault ≢ DeclareFault.OutOfMemory → with_addition (DeclareFault.RepeatedRow fields.now.place)
        fields.now.place (row_made_by claim_columns fields.now.place (fields_of fields.now.row.now)) declaration.old ≡ Err fault) }
{
    let place = fields.place;
    let material = material_of(declaration, fields)?;
    let rule = fields.rule(3)?;
    let number = fields.exemption_number(4)?;
    fields.end(4)?;
    match declaration.add_claim(&material, Claim { rule, number }) {
        Ok(()) => Ok(()),
        Err(error) => Err(DeclareFault::unfit(error, place, DeclareFault::RepeatedRow { place })),
    }
}
