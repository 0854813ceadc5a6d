//! What the tests of several crates here share: bytes and edits from texts, and the opening of a desk.

use desk_clerk::{OpenRefused, StoredDesk};
use desk_edge::Keeper;
use desk_fields::read_edit_text;
use desk_model::Edit;
use desk_text::{Bytes, OutOfMemory};
use std::alloc::Global;
use std::test::Fail;

/// The text with TAB for each `|`.
pub(crate) fn tabbed(alloc: Global, text: &str) -> Result<Bytes, OutOfMemory> {
    let mut tabbed = Bytes::start(alloc);
    for &byte in text.as_bytes() {
        let own = if byte == b'|' { b'\t' } else { byte };
        tabbed.push_all(&[own])?;
    }
    Ok(tabbed)
}

/// The edit of this ticket's code and text, with its fields set apart by `|`.
pub(crate) fn edit_of(alloc: Global, code: &str, fields: &str) -> Result<Edit, Fail> {
    let text = tabbed(alloc, fields)?;
    Ok(read_edit_text(alloc, code.as_bytes(), text.as_slice())?)
}

/// What the opening of the keeper's desk answers. It has no clause, so that the proof of a step doesn't carry what the desk is.
pub(crate) fn open<K: Keeper + Drop>(
    alloc: Global,
    keeper: K,
) -> Result<StoredDesk<K>, OpenRefused<K>> {
    StoredDesk::open(alloc, keeper)
}
