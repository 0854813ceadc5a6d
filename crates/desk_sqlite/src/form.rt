ghost use Rattle.std.specs.Prelude.{◌≡◌, [], ◌∷◌, None, false, IsTrue};
ghost use Rattle.sqlite_value.specs.declared.value.Value.TheVariants as value;
ghost use Rattle.sqlite_value.specs.Keys.{plain};
ghost use Rattle.desk_sqlite.specs.Refusals.{IsNew};
ghost use Rattle.desk_sqlite.specs.Store.{IsOurs};
ghost use Rattle.desk_sqlite.specs.Table.{filled_column, key_index, record_columns, record_table};

use sqlite_schema::code::Terms;
use sqlite_schema::schema::{Column, Index, Kind, Schema, Stamps, Table};
use sqlite_value::keys::Collation;
use sqlite_value::value::Value;

/// Whether the schema is the table of a store and the index of its keys, and nothing else.
pub(crate) fn is_ours(schema: &Schema) -> bool
    ensures right { IsTrue result → IsOurs schema.now }
    ensures found { IsOurs schema.now → IsTrue result }
{
    match (schema.tables.as_slice(), schema.indexes.as_slice()) {
        ([table], [index]) => {
            schema.views.is_empty() && is_record_table(table) && is_key_index(index)
        }
        _ => false,
    }
}

/// Whether nothing was made in the database yet.
pub(crate) fn is_new(schema: &Schema) -> bool
    ensures right { IsTrue result → IsNew schema.now }
    ensures found { IsNew schema.now → IsTrue result }
{
    schema.tables.is_empty() && schema.indexes.is_empty() && schema.views.is_empty()
}

/// Whether the table is that of a store, whatever it checks of a row.
fn is_record_table(table: &Table) -> bool
    ensures right { IsTrue result → table.now ≡ record_table table.now.checks }
    ensures found { table.now ≡ record_table table.now.checks → IsTrue result }
{
    table.name.as_slice() == b"record".as_slice()
        && table.tree == 0
        && are_record_columns(table.columns.as_slice())
        && has_record_key(table)
        && has_no_more(table)
}

/// Whether kind and code are the key of the table.
fn has_record_key(table: &Table) -> bool
    ensures key { IsTrue result → table.now.key ≡ None }
    ensures primary { IsTrue result → table.now.primary ≡ 1 ∷ 2 ∷ [] }
    ensures uniques { IsTrue result → table.now.uniques ≡ (1 ∷ 2 ∷ []) ∷ [] }
    ensures orders { IsTrue result → table.now.orders ≡ plain ∷ [] }
    ensures found { table.now.key ≡ None → table.now.primary ≡ 1 ∷ 2 ∷ [] → table.now.uniques ≡ (1 ∷ 2 ∷ []) ∷ []
        → table.now.orders ≡ plain ∷ [] → IsTrue result }
{
    match (table.uniques.as_slice(), table.orders.as_slice()) {
        ([unique], [order]) => {
            table.key.is_none()
                && are_key_places(table.primary.as_slice())
                && are_key_places(unique.as_slice())
                && order.digits == 0
        }
        _ => false,
    }
}

/// Whether the table refers to no other, computes nothing and counts nothing.
fn has_no_more(table: &Table) -> bool
    ensures references { IsTrue result → table.now.references ≡ [] }
    ensures computed { IsTrue result → table.now.computed ≡ [] }
    ensures stamps { IsTrue result → table.now.stamps ≡ record { places = []; terms = []; formats = [] } }
    ensures counted { IsTrue result → table.now.is_counted ≡ false }
    ensures found { table.now.references ≡ [] → table.now.computed ≡ []
        → table.now.stamps ≡ record { places = []; terms = []; formats = [] } → table.now.is_counted ≡ false → IsTrue result }
{
    table.references.is_empty()
        && table.computed.is_empty()
        && has_no_stamps(&table.stamps)
        && !table.is_counted
}

/// Whether no default reads the time.
fn has_no_stamps(stamps: &Stamps) -> bool
    ensures right { IsTrue result → stamps.now ≡ record { places = []; terms = []; formats = [] } }
    ensures found { stamps.now ≡ record { places = []; terms = []; formats = [] } → IsTrue result }
{
    stamps.places.is_empty() && are_no_terms(&stamps.terms) && stamps.formats.is_empty()
}

/// Whether there are no expressions.
fn are_no_terms(terms: &Terms) -> bool
    ensures right { IsTrue result → terms.now ≡ [] }
    ensures found { terms.now ≡ [] → IsTrue result }
{
    terms.roots.is_empty()
}

/// Whether the places are those of kind and code.
fn are_key_places(places: &[usize]) -> bool
    ensures right { IsTrue result → places.now ≡ 1 ∷ 2 ∷ [] }
    ensures found { places.now ≡ 1 ∷ 2 ∷ [] → IsTrue result }
{
    match places {
        [first, second] => *first == 1 && *second == 2,
        _ => false,
    }
}

/// Whether the columns are kind, code and body.
fn are_record_columns(columns: &[Column]) -> bool
    ensures right { IsTrue result → columns.now ≡ record_columns }
    ensures found { columns.now ≡ record_columns → IsTrue result }
{
    match columns {
        [kind, code, body] => {
            is_filled(kind, b"kind", Kind::Integer)
                && is_filled(code, b"code", Kind::Blob)
                && is_filled(body, b"body", Kind::Blob)
        }
        _ => false,
    }
}

/// Whether the column has this name and this type, and a value in each row.
fn is_filled(column: &Column, name: &[u8], kind: Kind) -> bool
    ensures right { IsTrue result → column.now ≡ filled_column name.now kind }
    ensures found { column.now ≡ filled_column name.now kind → IsTrue result }
{
    column.name.as_slice() == name
        && column.kind == kind
        && column.is_strict
        && column.not_null
        && is_null(&column.default)
        && column.collation == Collation::Binary
}

/// Whether the value is NULL.
fn is_null(given: &Value) -> bool
    ensures right { IsTrue result → given.now ≡ value.Null }
    ensures found { given.now ≡ value.Null → IsTrue result }
{
    match given {
        Value::Null => true,
        _ => false,
    }
}

/// Whether the index is that of the keys, under any name.
fn is_key_index(index: &Index) -> bool
    ensures right { IsTrue result → index.now ≡ key_index index.now.name }
    ensures found { index.now ≡ key_index index.now.name → IsTrue result }
{
    index.tree == 1
        && index.table == 0
        && are_key_places(index.columns.as_slice())
        && index.order.digits == 0
        && index.is_unique
}
