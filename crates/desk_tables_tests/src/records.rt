use crate::helpers::tabbed;
use desk_edge::Record;
use desk_records::{RecordFault, read_record};
use desk_testing::shows;
use desk_text::OutOfMemory;
use std::alloc::Global;
use std::test::Fail;

/// A kind, a code, and a body with its fields set apart by `|` here.
type Told = (u8, &'static str, &'static str);

/// The record of a kind, a code and a body.
fn record(alloc: Global, told: &Told) -> Result<Record, OutOfMemory> {
    let (kind, code, body) = *told;
    let code = tabbed(alloc, code)?;
    let body = tabbed(alloc, body)?;
    Ok(Record { kind, code, body })
}

/// The fault of the record, if no row has it.
fn fault_of(alloc: Global, told: &Told) -> Result<Option<RecordFault>, OutOfMemory> {
    let kept = record(alloc, told)?;
    Ok(read_record(alloc, &kept).err())
}

/// Fails, and says which fault it has, unless the record is refused by this fault.
fn is_refused(alloc: Global, told: &Told, wanted: RecordFault) -> Result<(), Fail> {
    let fault = fault_of(alloc, told)?;
    if fault == Some(wanted) {
        return Ok(());
    }
    Err(Fail::new(format_args!("{fault:?} of {told:?}")))
}

/// Fails unless these bodies are of another version in records of these kinds.
fn are_other_versions(alloc: Global, bodies: &[&'static str], kinds: &[u8]) -> Result<(), Fail> {
    for body in bodies {
        for kind in kinds {
            is_refused(alloc, &(*kind, "lead", *body), RecordFault::Version)?;
        }
    }
    Ok(())
}

#[test]
fn another_version_is_told_before_a_wrong_shape(rt: HostRuntime) -> Result<(), Fail> {
    are_other_versions(
        rt.alloc(),
        &["2|Lead|7439-92-1", "01|Lead|7439-92-1", ""],
        &[0, 1, 11],
    )
}

#[test]
fn faults_of_records_are_told(rt: HostRuntime) -> Result<(), Fail> {
    shows(rt.alloc(), &RecordFault::Version, "another version")?;
    shows(rt.alloc(), &RecordFault::Shape, "not the text of a row")?;
    shows(rt.alloc(), &RecordFault::OutOfMemory, "out of memory")
}
