use desk_fields::{RowFault, TextFault, read_row};
use desk_testing::shows;
use std::alloc::Global;
use std::test::Fail;

#[test]
fn faults_of_texts_are_told(rt: HostRuntime) -> Result<(), Fail> {
    shows(rt.alloc(), &TextFault::NotAnEdit, "not the text of an edit")?;
    shows(rt.alloc(), &TextFault::OutOfMemory, "out of memory")
}

#[test]
fn faults_of_rows_are_told(rt: HostRuntime) -> Result<(), Fail> {
    shows(rt.alloc(), &RowFault::Version, "another version")?;
    shows(rt.alloc(), &RowFault::Shape, "not the text of a row")?;
    shows(rt.alloc(), &RowFault::OutOfMemory, "out of memory")
}

/// Fails, and says what is told of which text, unless that is of another version in this table.
fn is_other_version(alloc: Global, table: u8, text: &str) -> Result<(), Fail> {
    let fault = read_row(alloc, table, b"lead", text.as_bytes()).err();
    if fault == Some(RowFault::Version) {
        return Ok(());
    }
    Err(Fail::new(format_args!("{fault:?} of {text:?} in table {table}")))
}

/// Fails unless these texts are of another version in each of these tables.
fn are_other_versions(alloc: Global, texts: &[&str], tables: &[u8]) -> Result<(), Fail> {
    for text in texts {
        for table in tables {
            is_other_version(alloc, *table, text)?;
        }
    }
    Ok(())
}

#[test]
fn another_version_is_told_first(rt: HostRuntime) -> Result<(), Fail> {
    are_other_versions(
        rt.alloc(),
        &[
            "",
            "2\tLead\t",
            "01\tLead\t",
            "1 \tLead\t",
            "\t1\tLead\t",
            "Lead\t",
        ],
        &[0, 1, 10],
    )
}
