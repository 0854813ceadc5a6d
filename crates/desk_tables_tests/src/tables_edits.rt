use desk_tables::EditFault;
use desk_testing::shows;
use std::test::Fail;

#[test]
fn want_of_memory_is_told(rt: HostRuntime) -> Result<(), Fail> {
    shows(rt.alloc(), &EditFault::OutOfMemory, "out of memory")
}
