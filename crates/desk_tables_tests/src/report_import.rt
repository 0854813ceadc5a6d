use crate::report_outside::{DESK, imports, store};
use desk_edge::Keeper;
use desk_report::ReportFault;
use desk_testing::expect_eq;
use std::alloc::Global;
use std::test::Fail;

/// Fails unless an import of this input, with failing calls of the store and of the link, has this fault and leaves the store empty.
fn is_refused(
    alloc: Global,
    input: &str,
    of_store: &[u64],
    of_link: &[u64],
    fault: ReportFault,
) -> Result<(), Fail> {
    let mut keeper = store(alloc, of_store)?;
    imports(&mut keeper, alloc, input, of_link, Err(fault))?;
    expect_eq(&(input, keeper.records().len()), &(input, 0))
}

/// Fails unless an import of the small desk is refused where a call of the store or of the link fails.
fn refuses_at_calls(alloc: Global) -> Result<(), Fail> {
    is_refused(alloc, DESK, &[2], &[], ReportFault::KeeperFault)?;
    is_refused(alloc, DESK, &[3], &[], ReportFault::KeeperFault)?;
    is_refused(alloc, DESK, &[], &[3], ReportFault::LinkFault)
}

#[test]
fn a_refused_call_leaves_the_store_empty(rt: HostRuntime) -> Result<(), Fail> {
    refuses_at_calls(rt.alloc())
}
