ghost use Rattle.std.specs.Prelude.{◌≡◌, true, Some, IfOk, IfSome, IsTrue, option_copied};
ghost use Rattle.desk_edge.specs.Content.{Content, IsFirstPast, is_past, key_of};
ghost use Rattle.desk_sqlite.specs.Ahead.{IsReadAhead};
ghost use Rattle.desk_sqlite.specs.Content.{AreFirstPast, AreNextPast};

use desk_edge::{Key, Record};
use desk_rows::Keyed;
use desk_text::OutOfMemory;
use sqlite::{Error, ErrorCode};
use std::alloc::Global;
use std::collections::VecDeque;
use std::marker::Model;

/// Records that were read before they are asked for, and the key that they come behind.
#[derive(Drop)]
pub(crate) struct Ahead {
    last: Key,
    records: VecDeque<Record>,
}

impl Model for Ahead {
    ghost use Rattle.desk_sqlite.specs.Ahead.{ReadAhead};

    ghost Value = { ReadAhead };

    ghost view = { λ ahead. record { last = ahead.last; records = ahead.records.items } };
}

impl Ahead {
    /// The records behind one, unless there is no memory for its key.
    fn behind(alloc: Global, kept: &Record, records: VecDeque<Record>) -> Option<Ahead>
        ensures { (content : Content) → AreNextPast content (Some (key_of kept.now)) records.items → IfSome result (IsReadAhead content) }
    {
        match key_of(alloc, kept) {
            Ok(last) => Some(Ahead { last, records }),
            Err(_) => None,
        }
    }

    /// The first of the records, where they come behind this key and there is one past it, and those behind it.
    pub(crate) fn next(self, alloc: Global, after: Option<&Key>) -> Option<(Record, Option<Ahead>)>
        ensures first { (content : Content) → IsReadAhead content self → IfSome result (λ both. IsFirstPast content (option_copied after.entry) (Some both.0)) }
        ensures others { (content : Content) → IsReadAhead content self → IfSome result (λ both. IfSome both.1 (IsReadAhead content)) }
        ensures later { IfSome result (λ both. is_past (option_copied after.entry) (key_of both.0) ≡ true) }
    {
        let Ahead { last, mut records } = self;
        if !is_behind(&last, after) {
            return None;
        }
        let kept = records.pop_front()?;
        if !is_past(&kept, after) {
            return None;
        }
        let others = Ahead::behind(alloc, &kept, records);
        Some((kept, others))
    }
}

/// The first of the records that were found past a key, if there is one, and those behind it. It is refused where it isn't past the key.
pub(crate) fn first_of(
    alloc: Global,
    mut found: VecDeque<Record>,
    after: Option<&Key>,
) -> Result<(Option<Record>, Option<Ahead>), Error>
    ensures first { (content : Content) → AreFirstPast content (option_copied after.entry) found.items → IfOk result (λ both. IsFirstPast content (option_copied after.entry) both.0) }
    ensures others { (content : Content) → AreFirstPast content (option_copied after.entry) found.items → IfOk result (λ both. IfSome both.1 (IsReadAhead content)) }
    ensures later { IfOk result (λ both. IfSome both.0 (λ kept. is_past (option_copied after.entry) (key_of kept) ≡ true)) }
{
    let Some(kept) = found.pop_front() else {
        return Ok((None, None));
    };
    if !is_past(&kept, after) {
        return Err(Error::SqliteFailure(ErrorCode::DatabaseCorrupt));
    }
    let others = Ahead::behind(alloc, &kept, found);
    Ok((Some(kept), others))
}

/// The key of a record.
fn key_of(alloc: Global, kept: &Record) -> Result<Key, OutOfMemory>
    ensures { IfOk result (λ key. key ≡ key_of kept.now) }
{
    Ok(Key {
        kind: kept.kind,
        code: kept.code.copied(alloc)?,
    })
}

/// Whether the second key is given, and is the first.
fn is_behind(last: &Key, after: Option<&Key>) -> bool
    ensures { IsTrue result → option_copied after.entry ≡ Some last.now }
{
    match after {
        Some(key) => key.kind == last.kind && key.code.as_slice() == last.code.as_slice(),
        None => false,
    }
}

/// Whether the record's key is past the one that is given.
fn is_past(kept: &Record, after: Option<&Key>) -> bool
    ensures { result ≡ is_past (option_copied after.entry) (key_of kept.now) }
{
    match after {
        Some(key) => kept.compare(key).is_gt(),
        None => true,
    }
}
