ghost use Rattle.std.specs.Prelude.{◌≡◌, ◌≢◌, ◌⊎◌, true, false, Some, None, IfOk, OnOk, OnErr, IfSome, IfNone, IsSome, map, option_copied, if◌then◌else◌};
ghost use Rattle.desk_edge.specs.Content.{key_of, same_key};
ghost use Rattle.desk_edge.specs.declared.key.Key.{Key};
ghost use Rattle.desk_top.specs.KeptBodies.{IsFirstIn, IsNoneIn, cleared, is_key_among, body_among, ready, stands, with_room};

use desk_edge::{Change, Key, Record};
use desk_text::{Bytes, OutOfMemory};
use std::alloc::Global;
use std::collections::BTreeMap;
use std::ops::Bound;

/// What each change puts under which key, once more: a body, or none.
pub(crate) fn ready_all(
    alloc: Global,
    batch: &[Change],
) -> Result<Vec<(Key, Option<Bytes>)>, OutOfMemory>
    ensures { IfOk result (λ changes. changes.items ≡ map ready batch.now) }
{
    let mut changes = Vec::new(alloc);
    for change in batch {
        changes.push(ready(alloc, change)?)?;
    }
    Ok(changes)
}

/// What the change puts under which key, once more.
fn ready(alloc: Global, change: &Change) -> Result<(Key, Option<Bytes>), OutOfMemory>
    ensures { IfOk result (λ new. new ≡ ready change.now) }
{
    match change {
        Change::Put(record) => {
            let key = Key {
                kind: record.kind,
                code: record.code.copied(alloc)?,
            };
            Ok((key, Some(record.body.copied(alloc)?)))
        }
        Change::Drop(key) => Ok((key.copied(alloc)?, None)),
    }
}

/// The keys of what is put in, once more.
pub(crate) fn keys_of(
    alloc: Global,
    changes: &[(Key, Option<Bytes>)],
) -> Result<Vec<Key>, OutOfMemory>
    ensures { IfOk result (λ keys. keys.items ≡ map (λ new. new.0) changes.now) }
{
    let mut keys = Vec::new(alloc);
    for change in changes {
        keys.push(change.0.copied(alloc)?)?;
    }
    Ok(keys)
}

/// The first key past this one, or the first of all where none is given, and what stands under it. It takes a search.
pub(crate) fn first_past<'a>(
    bodies: &'a BTreeMap<Key, Option<Bytes>>,
    after: Option<&Key>,
) -> Option<(&'a Key, &'a Option<Bytes>)>
    ensures some { IfSome result (λ found. IsFirstIn bodies.now.entries (option_copied after.entry) found.0.now found.1.now) }
    ensures none { IfNone result (IsNoneIn bodies.now.entries (option_copied after.entry)) }
{
    match after {
        Some(key) => bodies
            .range((Bound::Excluded(key), Bound::Unbounded))
            .next(),
        None => bodies.range(..).next(),
    }
}

/// The record of a key and its body.
pub(crate) fn record_of(
    alloc: Global,
    key: &Key,
    body: &Option<Bytes>,
) -> Result<Record, OutOfMemory>
    requires { body.now ≢ None }
    ensures { IfOk result (λ kept. (key_of kept ≡ key.now) × (Some kept.body ≡ body.now)) }
{
    let Some(body) = body else {
        unreachable!();
    };
    Ok(Record {
        kind: key.kind,
        code: key.code.copied(alloc)?,
        body: body.copied(alloc)?,
    })
}

/// Makes room under each of the keys, so that what is put there takes no memory. Without memory there may be room under some of them.
pub(crate) fn make_room(
    alloc: Global,
    bodies: &mut BTreeMap<Key, Option<Bytes>>,
    keys: &[Key],
) -> Result<(), OutOfMemory>
    ensures room { OnOk result ((key : Key) → stands bodies.new.entries key ≡ (if is_key_among keys.now key then with_room (stands bodies.old.entries key) else stands bodies.old.entries key)) }
    ensures some { (key : Key) → (stands bodies.new.entries key ≡ stands bodies.old.entries key)
        ⊎ ((is_key_among keys.now key ≡ true) × (stands bodies.new.entries key ≡ with_room (stands bodies.old.entries key))) }
{
    for key in keys {
        make_room_for(alloc, bodies, key)?;
    }
    Ok(())
}

/// Makes room under the key.
fn make_room_for(
    alloc: Global,
    bodies: &mut BTreeMap<Key, Option<Bytes>>,
    key: &Key,
) -> Result<(), OutOfMemory>
    ensures ok { OnOk result ((other : Key) → stands bodies.new.entries other ≡ (if same_key key.now other then with_room (stands bodies.old.entries other) else stands bodies.old.entries other)) }
    ensures err { OnErr result ((other : Key) → stands bodies.new.entries other ≡ stands bodies.old.entries other) }
{
    if bodies.contains_key(key) {
        return Ok(());
    }
    match bodies.insert(key.copied(alloc)?, None) {
        Ok(_) => Ok(()),
        Err(_) => Err(OutOfMemory),
    }
}

/// Puts all of these in, one after the other, where there is room under each key. It takes no memory.
pub(crate) fn put_all(bodies: &mut BTreeMap<Key, Option<Bytes>>, changes: Vec<(Key, Option<Bytes>)>)
    requires { (key : Key) → is_key_among (map (λ new. new.0) changes.items) key ≡ true → IsSome (stands bodies.old.entries key) }
    ensures { (key : Key) → stands bodies.new.entries key ≡ body_among changes.items key (stands bodies.old.entries key) }
{
    for (key, body) in changes {
        put(bodies, key, body);
    }
}

/// Puts a body or none under a key that is there. It takes no memory.
fn put(bodies: &mut BTreeMap<Key, Option<Bytes>>, key: Key, body: Option<Bytes>)
    requires { IsSome (stands bodies.old.entries key) }
    ensures { (other : Key) → stands bodies.new.entries other ≡ (if same_key key other then Some body else stands bodies.old.entries other) }
{
    let put = bodies.insert(key, body);
    prove!(put.is_ok());
}

/// Takes out each of the keys under which no body stands.
pub(crate) fn clear_all(bodies: &mut BTreeMap<Key, Option<Bytes>>, keys: &[Key])
    ensures { (key : Key) → stands bodies.new.entries key ≡ (if is_key_among keys.now key then cleared (stands bodies.old.entries key) else stands bodies.old.entries key) }
{
    for key in keys {
        clear(bodies, key);
    }
}

/// Takes the key out, where no body stands under it.
fn clear(bodies: &mut BTreeMap<Key, Option<Bytes>>, key: &Key)
    ensures { (other : Key) → stands bodies.new.entries other ≡ (if same_key key.now other then cleared (stands bodies.old.entries other) else stands bodies.old.entries other) }
{
    if is_bare(bodies, key) {
        drop(bodies.remove(key));
    }
}

/// Whether the key is there without a body.
fn is_bare(bodies: &BTreeMap<Key, Option<Bytes>>, key: &Key) -> bool
    ensures yes { result ≡ true → stands bodies.now.entries key.now ≡ Some None }
    ensures no { result ≡ false → stands bodies.now.entries key.now ≢ Some None }
{
    match bodies.get(key) {
        Some(body) => body.is_none(),
        None => false,
    }
}
