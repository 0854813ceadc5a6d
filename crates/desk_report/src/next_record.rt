ghost use Rattle.std.specs.Prelude.{◌≡◌, [], ◌∷◌, ◌++◌, IfNone, IfOk, IfSome, false, true};
ghost use Rattle.desk_edge.specs.Content.{key_cmp, key_of};
ghost use Rattle.desk_edge.specs.declared.record.Record.{Record};
ghost use Rattle.desk_model.specs.declared.row.Row.{Row};
ghost use Rattle.desk_records.specs.Records.{IsRecordOf};
ghost use Rattle.desk_report.specs.Lines.{line_of};
ghost use Rattle.desk_rows.specs.Rows.{IsByKey};

use crate::fields::record_in;
use desk_edge::Record;
use desk_rows::Keyed;
use desk_text::OutOfMemory;
use std::alloc::Global;

/// The record whose line this is, without its LF, if it has a key past those of the records. Of the records of rows no other has this
/// line.
pub(crate) fn next_record(
    alloc: Global,
    records: &[Record],
    line: &[u8],
) -> Result<Option<Record>, OutOfMemory>
    requires { IsByKey key_of key_cmp records.now }
    ensures some { IfOk result (λ found. IfSome found (λ kept. (line_of kept ≡ line.now ++ 10 ∷ []) × IsByKey key_of key_cmp (records.now ++ kept ∷ []))) }
    ensures one { IfOk result (λ found. IfSome found (λ kept. (other : Record) (row : Row) → IsRecordOf row other
        → line_of other ≡ line.now ++ 10 ∷ [] → kept ≡ other)) }
    ensures none { IfOk result (λ found. IfNone found ((kept : Record) (row : Row) → IsRecordOf row kept
        → line_of kept ≡ line.now ++ 10 ∷ [] → IsByKey key_of key_cmp (records.now ++ kept ∷ []) → ⊥)) }
{
    let Some(kept) = record_in(alloc, line)? else {
        return Ok(None);
    };
    if !follows(records, &kept) {
        return Ok(None);
    }
    Ok(Some(kept))
}

/// Whether the record's key is past those of the records.
#[tactic(auto, using(crate::proofs::Following::follows_last, crate::proofs::Following::not_follows, crate::proofs::Following::first_follows))]
fn follows(records: &[Record], kept: &Record) -> bool
    requires { IsByKey key_of key_cmp records.now }
    ensures yes { result ≡ true → IsByKey key_of key_cmp (records.now ++ kept.now ∷ []) }
    ensures no { result ≡ false → IsByKey key_of key_cmp (records.now ++ kept.now ∷ []) → ⊥ }
{
    match records.split_last() {
        Some((last, _)) => last.compare_row(kept).is_lt(),
        None => true,
    }
}
