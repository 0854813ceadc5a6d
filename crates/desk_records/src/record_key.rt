ghost use Rattle.std.specs.Prelude.{◌≡◌, IfOk};
ghost use Rattle.desk_edge.specs.Content.{key_of};

use desk_edge::{Key, Record};
use desk_text::OutOfMemory;
use std::alloc::Global;

/// The key of the record, once more.
///
/// `OutOfMemory`: none was left for the key.
pub fn copied_key(alloc: Global, kept: &Record) -> Result<Key, OutOfMemory>
    ensures { IfOk result (λ key. key ≡ key_of kept.now) }
{
    Ok(Key {
        kind: kept.kind,
        code: kept.code.copied(alloc)?,
    })
}

/// The key of the record, without the body. It takes no memory.
pub fn into_key(kept: Record) -> Key
    ensures { result ≡ key_of kept }
{
    Key {
        kind: kept.kind,
        code: kept.code,
    }
}
