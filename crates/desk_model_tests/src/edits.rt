use desk_edits::JsonFault;
use desk_testing::shows;
use std::test::Fail;

#[test]
fn a_want_of_memory_is_told(rt: HostRuntime) -> Result<(), Fail> {
    shows(rt.alloc(), &JsonFault::OutOfMemory, "out of memory")
}
