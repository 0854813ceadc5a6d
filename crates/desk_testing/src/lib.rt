//! What the tests of all crates share.
//!
//! None of it has a clause, so that the proof of a test doesn't carry what a call leaves.
#![tactic(auto)]

use desk_text::{Bytes, OutOfMemory};
use std::alloc::Global;
use std::fmt::{Debug, Display};
use std::test::Fail;

/// Fails, and says what is wrong, unless it holds.
pub fn check(holds: bool, what: &'static str) -> Result<(), Fail> {
    if holds { Ok(()) } else { Err(Fail::new(what)) }
}

/// Fails, and says what both are, unless what was found is what was wanted.
pub fn expect_eq<T: PartialEq + Debug>(found: &T, wanted: &T) -> Result<(), Fail> {
    if found == wanted {
        return Ok(());
    }
    Err(Fail::new(format_args!("{found:?}, and not {wanted:?}")))
}

/// Fails, and says as which it is, unless the value is displayed as this text.
pub fn shows<T: Display>(alloc: Global, value: &T, text: &str) -> Result<(), Fail> {
    let shown = value.to_string(alloc)?;
    expect_eq(&shown.as_str(), &text)
}

/// The bytes of the text.
pub fn bytes(alloc: Global, text: &str) -> Result<Bytes, OutOfMemory> {
    let mut bytes = Bytes::start(alloc);
    bytes.push_all(text.as_bytes())?;
    Ok(bytes)
}
