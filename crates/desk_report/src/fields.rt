ghost use Rattle.std.specs.Prelude.{◌≡◌, ◌==◌, [], ◌∷◌, IfOk, MatchOption, position};
ghost use Rattle.std.specs.List.{slice_split};
ghost use Rattle.desk_report.specs.Reading.{kind_written, record_in};

use desk_edge::Record;
use desk_text::{Bytes, OutOfMemory, read_u64};
use std::alloc::Global;

/// The record whose line this is, without its LF, if the line has that form: a number below 256 in digits, TAB, a code without TAB,
/// TAB, and a body.
#[tactic(auto, using(crate::proofs::LineRead::no_code, crate::proofs::LineRead::no_body, crate::proofs::LineRead::no_kind, crate::proofs::LineRead::whole))]
pub(crate) fn record_in(alloc: Global, line: &[u8]) -> Result<Option<Record>, OutOfMemory>
    ensures { IfOk result (λ found. found ≡ record_in line.now) }
{
    let Some((kind, rest)) = cut(line) else {
        return Ok(None);
    };
    let Some((code, body)) = cut(rest) else {
        return Ok(None);
    };
    let Some(kind) = kind_written(kind) else {
        return Ok(None);
    };
    Ok(Some(Record {
        kind,
        code: bytes(alloc, code)?,
        body: bytes(alloc, body)?,
    }))
}

/// The kind that the digits write.
#[tactic(auto, unfolding(desk_text::specs::Number::number_below))]
fn kind_written(digits: &[u8]) -> Option<u8>
    ensures { result ≡ kind_written digits.now }
{
    match read_u64(digits) {
        Ok(number) => u8::try_from(number).ok(),
        Err(_) => None,
    }
}

/// What stands before the first TAB and what stands behind it, if there is one.
fn cut(text: &[u8]) -> Option<(&[u8], &[u8])>
    ensures { MatchOption result (slice_split (λ b. b == 9) text.now ≡ text.now ∷ [])
        (λ parts. slice_split (λ b. b == 9) text.now ≡ parts.0.now ∷ slice_split (λ b. b == 9) parts.1.now) }
{
    match place_of_tab(text) {
        Some(at) => Some((&text[..at], &text[at + 1..])),
        None => None,
    }
}

/// The place of the first TAB.
fn place_of_tab(text: &[u8]) -> Option<usize>
    ensures { result ≡ position (λ b. b == 9) text.now }
{
    text.iter().position(|&byte| byte == b'\t')
}

/// The same bytes.
fn bytes(alloc: Global, list: &[u8]) -> Result<Bytes, OutOfMemory>
    ensures { IfOk result (λ copy. copy ≡ list.now) }
{
    let mut copy = Bytes::start(alloc);
    copy.push_all(list)?;
    Ok(copy)
}
