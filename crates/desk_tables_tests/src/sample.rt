ghost use Rattle.std.specs.Prelude.{◌≤◌};

use crate::helpers::tabbed;
use desk_model::Edit;
use desk_sample::sample;
use desk_testing::{check, expect_eq};
use desk_text::{Bytes, OutOfMemory};
use std::alloc::Global;
use std::test::Fail;

/// The ticket's code and the text of each edit, each on a line.
fn told(alloc: Global, edits: &[Edit]) -> Result<Bytes, OutOfMemory> {
    let mut told = Bytes::start(alloc);
    for edit in edits {
        edit.ticket_code(&mut told)?;
        told.push_all(b" ")?;
        edit.text(&mut told)?;
        told.push_all(b"\n")?;
    }
    Ok(told)
}

/// The edits of the sample of this number, as `told` tells them.
fn told_sample(alloc: Global, n: u64) -> Result<Bytes, Fail>
    requires least { 1 ≤ n }
    requires greatest { n ≤ 2000 }
{
    let edits = sample(alloc, n)?;
    Ok(told(alloc, edits.as_slice())?)
}

/// The edits of the sample of one.
const OF_ONE: &str =
    "D:S1:1 declare|S1|1|2024-01-15|1|M0001|Material|1000001|2|cadmium|11|lead|37|0\n\
    E:s1 part|A0001|article|Article\nE:s2 line|A0001|M0001|2\nE:s3 part|B0001|assembly|Assembly\n\
    E:s4 line|B0001|A0001|2\nE:s5 product|B0001|3\nE:s6 candidate|dehp|2008-10-28\n\
    E:s7 candidate|lead|2018-06-27\nE:s8 ship|B0001|2024|1000\n";

#[test]
fn the_sample_of_one_is_nine_edits(rt: HostRuntime) -> Result<(), Fail> {
    let told = told_sample(rt.alloc(), 1)?;
    let wanted = tabbed(rt.alloc(), OF_ONE)?;
    expect_eq(&told, &wanted)
}

/// A place in a sample, and what is told of the edit there.
type Placed = (usize, &'static str);

/// Edits of the sample of 41: where the masses and suppliers start anew, the first and the last of each sort, and those on both sides of
/// each turn of the list.
#[rattlefmt::skip]
const OF_41: [Placed; 24] = [
    (4, "D:S5:5 declare|S5|5|2024-01-15|1|M0005|Material|1000005|3|cadmium|55|dehp|265|lead|185|0"),
    (39, "D:S5:40 declare|S5|40|2024-01-15|1|M0040|Material|1000040|3|cadmium|50|dehp|720|lead|1480|0"),
    (40, "D:S6:41 declare|S6|41|2024-01-15|1|M0041|Material|1000041|2|cadmium|61|lead|17|0"),
    (43, "E:s3 line|A0001|M0002|1"),
    (44, "E:s4 part|A0002|article|Article"),
    (162, "E:s122 line|A0041|M0041|3"),
    (163, "E:s123 line|A0041|M0001|1"),
    (164, "E:s124 part|B0001|assembly|Assembly"),
    (172, "E:s132 line|B0001|A0008|1"),
    (173, "E:s133 part|B0002|assembly|Assembly"),
    (190, "E:s150 line|B0003|A0023|4"),
    (211, "E:s171 line|B0005|A0040|1"),
    (212, "E:s172 line|B0005|B0002|2"),
    (214, "E:s174 line|B0006|A0041|2"),
    (215, "E:s175 line|B0006|B0003|2"),
    (216, "E:s176 product|B0001|3"),
    (217, "E:s177 product|B0002|9i"),
    (218, "E:s178 product|B0003|7t"),
    (219, "E:s179 product|B0004|11"),
    (220, "E:s180 product|B0005|8"),
    (221, "E:s181 candidate|dehp|2008-10-28"),
    (222, "E:s182 candidate|lead|2018-06-27"),
    (223, "E:s183 ship|B0001|2024|1000"),
    (227, "E:s187 ship|B0005|2024|5000"),
];

/// Fails, and says what is told, unless at this place of the edits there is this one.
fn is_placed(alloc: Global, edits: &[Edit], row: &Placed) -> Result<(), Fail> {
    let (place, fields) = *row;
    let Some(edit) = edits.get(place..).and_then(|from| from.first_chunk::<1>()) else {
        return Err(Fail::new(format_args!("no edit at {place}")));
    };
    let told = told(alloc, edit.as_slice())?;
    let mut wanted = tabbed(alloc, fields)?;
    wanted.push_all(b"\n")?;
    expect_eq(&told, &wanted)
}

/// Fails unless it is so at each of these places of the sample of this number, which has so many edits.
fn are_placed(alloc: Global, n: u64, count: usize, rows: &[Placed]) -> Result<(), Fail>
    requires least { 1 ≤ n }
    requires greatest { n ≤ 2000 }
{
    let edits = sample(alloc, n)?;
    for row in rows {
        is_placed(alloc, edits.as_slice(), row)?;
    }
    expect_eq(&edits.len(), &count)
}

/// The last declaration of the sample of 1,234, whose codes have four digits of their own.
const OF_1234: [Placed; 1] = [(
    1233,
    "D:S2:1234 declare|S2|1234|2024-01-15|1|M1234|Material|1001234|2|cadmium|54|lead|658|0",
)];

#[test]
fn samples_have_these_edits_at_these_places(rt: HostRuntime) -> Result<(), Fail> {
    are_placed(rt.alloc(), 41, 228, &OF_41)?;
    are_placed(rt.alloc(), 1234, 6491, &OF_1234)
}

#[test]
fn two_samples_of_one_number_are_equal(rt: HostRuntime) -> Result<(), Fail> {
    let first = told_sample(rt.alloc(), 200)?;
    let second = told_sample(rt.alloc(), 200)?;
    check(first == second, "two samples of one number differ")
}
