use crate::model_helpers::{code, day, name};
use desk_law::Rule;
use desk_model::{ListOf, MaterialRow, MemberRow, SubstanceRow, TicketRow};
use desk_rows::Keyed;
use desk_testing::{bytes, check, expect_eq};
use desk_text::Code;
use std::alloc::Global;
use std::test::Fail;

/// The copy of the row.
pub(crate) fn copy_of<R: Keyed>(alloc: Global, row: R) -> Result<R, Fail> {
    Ok(row.copied(alloc)?)
}

#[test]
fn a_copied_member_is_the_same(rt: HostRuntime) -> Result<(), Fail> {
    let row = MemberRow {
        substance: code("lead")?,
        rule: Rule::Lead,
        factor: 7,
    };
    expect_eq(&copy_of(rt.alloc(), row)?, &row)
}

#[test]
fn a_copied_substance_keeps_its_name(rt: HostRuntime) -> Result<(), Fail> {
    let row = SubstanceRow {
        code: code("tin")?,
        name: name(rt.alloc(), "Tin")?,
        cas: None,
    };
    let copy = copy_of(rt.alloc(), row)?;
    expect_eq(&copy.name.as_str(), &"Tin")
}

#[test]
fn a_copied_ticket_keeps_its_text(rt: HostRuntime) -> Result<(), Fail> {
    let row = TicketRow {
        code: bytes(rt.alloc(), "E:t1")?,
        number: 7,
        text: bytes(rt.alloc(), "unexempt\tR")?,
    };
    let copy = copy_of(rt.alloc(), row)?;
    expect_eq(&copy.text.as_slice(), &b"unexempt\tR".as_slice())
}

#[test]
fn a_copied_material_keeps_its_number(rt: HostRuntime) -> Result<(), Fail> {
    let row = MaterialRow {
        code: code("M")?,
        supplier: code("ACME")?,
        number: u64::MAX,
        day: day("2024-03-02")?,
        name: name(rt.alloc(), "Steel")?,
        mass: 9,
        substances: ListOf::new(Vec::new(rt.alloc())),
        claims: ListOf::new(Vec::new(rt.alloc())),
    };
    let copy = copy_of(rt.alloc(), row)?;
    expect_eq(&copy.number, &u64::MAX)
}

/// Fails unless the list's copy has these codes, and gives them out.
fn keeps_codes(alloc: Global, list: &ListOf<Code>, codes: &[Code]) -> Result<(), Fail> {
    let copy = list.copied(alloc)?;
    check(copy.as_slice() == codes, "the copy has other codes")?;
    let given = copy.into_vec();
    check(given.as_slice() == codes, "the copy gives out other codes")
}

#[test]
fn a_copied_list_is_the_same(rt: HostRuntime) -> Result<(), Fail> {
    let codes = [code("A")?, code("B")?];
    let list = ListOf::new(codes.to_vec(rt.alloc())?);
    keeps_codes(rt.alloc(), &list, &codes)
}
