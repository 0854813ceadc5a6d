use crate::counting::Counting;
use desk_publish::{Naming, Press, PutRefused};
use std::sync::Wait;

/// Puts an entry, and once more where it was handed back, and says whether it is pending now.
pub fn put_one<J: Naming<Counting>>(press: &mut Press<Counting, J>, entry: u64) -> bool {
    if press.number() == u64::MAX {
        return false;
    }
    match press.put(entry) {
        Ok(()) => true,
        Err(PutRefused { entry }) => press.put(entry).is_ok(),
    }
}

/// Puts an entry and publishes it, each once more where it was refused, and says whether it did.
pub fn write_one<J: Naming<Counting>, R: Wait>(
    rt: &R,
    press: &mut Press<Counting, J>,
    entry: u64,
) -> bool {
    put_one(press, entry) && (press.settle(rt).is_ok() || press.settle(rt).is_ok())
}
