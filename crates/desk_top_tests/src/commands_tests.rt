//! The commands over a store, where a call of the store or of the console fails.

use crate::session_steps::{is_told, outcome_with_faults};
use crate::store_tests::shelf_of;
use desk_testing::{check, expect_eq};
use std::alloc::Global;
use std::sync::Wait;
use std::test::Fail;
use std::thread::Threads;

/// The commands over a store named `desk`.
const OVER_A_STORE: &[&[&str]] = &[
    &["export", "--store", "desk"],
    &["audit", "2024-07-22", "--store", "desk"],
    &["import", "--store", "desk"],
];

/// Whether the command tells that its store fails, where it fails at the call of this number.
fn tells_of_store<R: Wait + Sync + Threads>(
    rt: &R,
    alloc: Global,
    words: &[&str],
    call: u64,
) -> Result<bool, Fail> {
    let mut shelf = shelf_of(alloc, &[call])?;
    is_told(rt, alloc, words, b"", 1, &mut shelf, (4, b"desk: store\n"))
}

/// Whether the command ends with status 4 where the store refuses to be read, and where it refuses to be filled.
fn fails_with_store<R: Wait + Sync + Threads>(
    rt: &R,
    alloc: Global,
    words: &[&str],
) -> Result<bool, Fail> {
    Ok(tells_of_store(rt, alloc, words, 1)? && tells_of_store(rt, alloc, words, 2)?)
}

/// The place of the first command that ends otherwise where its store fails.
fn first_without_4<R: Wait + Sync + Threads>(
    rt: &R,
    alloc: Global,
    commands: &[&[&str]],
) -> Result<Option<usize>, Fail> {
    for (place, words) in commands.iter().enumerate() {
        if !fails_with_store(rt, alloc, words)? {
            return Ok(Some(place));
        }
    }
    Ok(None)
}

#[test]
fn a_store_that_fails_ends_each_command_with_status_4(rt: HostRuntime) -> Result<(), Fail> {
    expect_eq(&first_without_4(&rt, rt.alloc(), OVER_A_STORE)?, &None)
}

/// The first lines of an export of a new store: the substances.
const SUBSTANCES: &str = concat!(
    "1\tbbp\t1\tButyl benzyl phthalate (BBP)\t85-68-7\n",
    "1\tcadmium\t1\tCadmium\t7440-43-9\n",
    "1\tchromium-vi\t1\tHexavalent chromium\t18540-29-9\n",
    "1\tdbp\t1\tDibutyl phthalate (DBP)\t84-74-2\n",
    "1\tdehp\t1\tBis(2-ethylhexyl) phthalate (DEHP)\t117-81-7\n",
    "1\tdibp\t1\tDiisobutyl phthalate (DIBP)\t84-69-5\n",
    "1\tlead\t1\tLead\t7439-92-1\n",
    "1\tmercury\t1\tMercury\t7439-97-6\n",
    "1\tpbb\t1\tPolybrominated biphenyls (PBB)\t\n",
    "1\tpbde\t1\tPolybrominated diphenyl ethers (PBDE)\t\n",
);

/// Whether an export whose console fails at its second call ends with status 3, and wrote the substances alone.
fn is_cut<R: Wait + Sync + Threads>(rt: &R, alloc: Global) -> Result<bool, Fail> {
    let words = ["export", "--store", "desk"];
    let (status, written) = outcome_with_faults(rt, alloc, &words, b"", 1, &[2])?;
    Ok(status == 3 && written.as_slice() == SUBSTANCES.as_bytes())
}

#[test]
fn a_console_that_fails_in_the_middle_ends_an_export_with_status_3(
    rt: HostRuntime,
) -> Result<(), Fail> {
    check(is_cut(&rt, rt.alloc())?, "another status, or other lines")
}
