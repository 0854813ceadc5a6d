use desk_model::DeclError;
use desk_testing::shows;
use std::test::Fail;

#[test]
fn a_fault_of_a_declaration_is_told_by_its_words(rt: HostRuntime) -> Result<(), Fail> {
    shows(rt.alloc(), &DeclError::Repeated, "listed already")?;
    shows(rt.alloc(), &DeclError::TooMany, "too many")?;
    let words = "of a material that isn't listed";
    shows(rt.alloc(), &DeclError::Orphan, words)?;
    shows(rt.alloc(), &DeclError::OutOfMemory, "out of memory")
}
