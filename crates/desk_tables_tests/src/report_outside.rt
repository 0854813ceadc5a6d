ghost use Rattle.desk_history.specs.Sound.{Sound};

use crate::helpers::tabbed;
use desk_edge::{Keeper, Link, MapKeeper, MemoryLink};
use desk_report::{ReportFault, export, import};
use desk_tables::Tables;
use desk_testing::expect_eq;
use std::alloc::Global;
use std::test::Fail;

/// Lines of a small desk, in the order of their keys, with `|` for TAB. In its tables the members stand in the order of rules and
/// the lines of `A` before those of `A.1`.
pub(crate) const DESK: &str =
    "1|lead|1|Lead|7439-92-1\n1|zinc|1|Zinc|\n2|lead/cadmium|1|3\n2|lead/lead|1|1000000\n\
    3|SOLDER|1|ACME|7|2024-01-23|Solder|1000000|1|lead|1000|0\n4|A|1|assembly|Frame\n4|A.1|1|assembly|Cover\n\
    4|B|1|article|Pin\n5|A.1/B|1|2\n5|A/B|1|1\n5|B/SOLDER|1|4\n6|A|1|3\n8|lead|1|2018-06-27\n9|2024/A|1|5\n\
    10|D:ACME:7|1|2|declare|ACME|7|2024-01-23|1|SOLDER|Solder|1000000|1|lead|1000|0\n\
    10|E:t1|1|1|line|A|B|1\n";

/// A store whose calls of these numbers fail. Its first call put nothing in.
pub(crate) fn store(alloc: Global, failing: &[u64]) -> Result<MapKeeper, Fail> {
    let failing = failing.to_vec(alloc)?;
    let mut keeper = MapKeeper::new(Vec::new(alloc), failing);
    keeper.commit(alloc, &[])?;
    Ok(keeper)
}

/// A link with this input, with TAB for each `|`, which has room for so much output.
pub(crate) fn link(
    alloc: Global,
    input: &str,
    room: usize,
    failing: &[u64],
) -> Result<MemoryLink, Fail> {
    let input = tabbed(alloc, input)?;
    Ok(MemoryLink::new(alloc, input, 7, room, failing.to_vec(alloc)?)?)
}

/// What an import from the link into the keeper answers.
fn answer_to_import<K: Keeper, L: Link>(
    alloc: Global,
    keeper: &mut K,
    link: &mut L,
) -> Result<u64, ReportFault> {
    import(alloc, keeper, link)
}

/// Fails unless an import of this input into the keeper, over a link that fails on these calls, answers so, and says of which input.
pub(crate) fn imports<K: Keeper>(
    keeper: &mut K,
    alloc: Global,
    input: &str,
    failing: &[u64],
    answer: Result<u64, ReportFault>,
) -> Result<(), Fail> {
    let mut link = link(alloc, input, 0, failing)?;
    let found = answer_to_import(alloc, keeper, &mut link);
    expect_eq(&(input, found), &(input, answer))
}

/// What an export of sound tables to the link answers.
pub(crate) fn answer_to_export<L: Link>(
    alloc: Global,
    tables: &Tables,
    link: &mut L,
) -> Result<u64, ReportFault>
    requires { Sound tables.now.lists }
{
    export(alloc, tables, link)
}
