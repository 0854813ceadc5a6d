ghost use Rattle.std.specs.Prelude.{◌≡◌, ◌<◌, true, IfOk};
ghost use Rattle.std.specs.List.{All, list_all};
ghost use Rattle.desk_totals.specs.Linked.{are_codes_distinct, has_ends_in, is_among};

use crate::model_helpers::code;
use desk_model::{Codes, LineRow};
use desk_testing::expect_eq;
use desk_text::Code;
use desk_totals::Links;
use std::alloc::Global;
use std::test::Fail;

/// Whether the code is one of these.
fn is_among(code: &Code, codes: &[Code]) -> bool
    ensures { result ≡ is_among code.now codes.now }
{
    for other in codes {
        if code == other {
            return true;
        }
    }
    false
}

/// Whether no code stands twice.
fn are_distinct(codes: &[Code]) -> bool
    ensures { result ≡ true → are_codes_distinct codes.now ≡ true }
{
    for place in 0..codes.len() {
        if is_among(&codes[place], &codes[place + 1..]) {
            return false;
        }
    }
    true
}

/// Whether each line goes between two of the codes.
fn have_ends(codes: &[Code], lines: &[LineRow]) -> bool
    ensures { result ≡ true → list_all (has_ends_in codes.now) lines.now ≡ true }
{
    for line in lines {
        let has_ends = is_among(&line.parent, codes) & is_among(&line.child, codes);
        if !has_ends {
            return false;
        }
    }
    true
}

/// The bill of these nodes, the materials first, and lines.
fn bill_of(
    alloc: Global,
    nodes: Vec<Code>,
    material_count: usize,
    lines: &[LineRow],
) -> Result<Links, Fail> {
    if !are_distinct(nodes.as_slice()) || !have_ends(nodes.as_slice(), lines) {
        return Err(Fail::new("no bill"));
    }
    if material_count > nodes.len() {
        return Err(Fail::new("too many materials"));
    }
    Ok(Links::new(alloc, nodes, material_count, lines)?)
}

/// The codes of these words.
fn codes(alloc: Global, words: &[&str]) -> Result<Vec<Code>, Fail> {
    let mut codes = Vec::with_capacity(alloc, words.len())?;
    for word in words {
        codes.push(code(word)?)?;
    }
    Ok(codes)
}

/// The words of the two ends of a line, and its count.
type LineOf<'a> = (&'a str, &'a str, u32);

/// A line between the codes of two words.
fn line(told: &LineOf) -> Result<LineRow, Fail> {
    let (parent, child, count) = *told;
    Ok(LineRow {
        parent: code(parent)?,
        child: code(child)?,
        count,
    })
}

/// The lines of these rows.
fn lines(alloc: Global, rows: &[LineOf]) -> Result<Vec<LineRow>, Fail> {
    let mut lines = Vec::with_capacity(alloc, rows.len())?;
    for told in rows {
        lines.push(line(told)?)?;
    }
    Ok(lines)
}

/// The bill of the nodes of these words, the materials first, and of these lines.
fn spelled(
    alloc: Global,
    words: &[&str],
    material_count: usize,
    rows: &[LineOf],
) -> Result<Links, Fail> {
    let lines = lines(alloc, rows)?;
    bill_of(alloc, codes(alloc, words)?, material_count, &lines)
}

/// A kettle of a cable and a plug, of copper and of plastic: `cu` and `pe`, then `cable`, `kettle` and `plug`.
fn kettle(alloc: Global) -> Result<Links, Fail> {
    spelled(
        alloc,
        &["cu", "pe", "cable", "kettle", "plug"],
        2,
        &[
            ("cable", "cu", 3),
            ("cable", "pe", 2),
            ("kettle", "cable", 2),
            ("kettle", "plug", 1),
            ("plug", "cu", 1),
            ("plug", "pe", 4),
        ],
    )
}

/// The masses, where copper weighs 10 and plastic 5.
fn masses(alloc: Global, bill: &Links) -> Result<Vec<Option<u128>>, Fail> {
    let own = [10, 5, 0, 0, 0];
    if bill.nodes().len() != own.len() {
        return Err(Fail::new("other nodes"));
    }
    Ok(bill.rolled_up(alloc, &own)?)
}

/// Fails unless the nodes weigh this, where copper weighs 10 and plastic 5.
fn weigh(alloc: Global, bill: &Links, wanted: &[Option<u128>]) -> Result<(), Fail> {
    let masses = masses(alloc, bill)?;
    expect_eq(&masses.as_slice(), &wanted)
}

/// Two words, and whether the node of the first reaches that of the second.
type ReachRow<'a> = (&'a str, &'a str, bool);

/// Whether the node of a word reaches that of another.
fn does_reach(alloc: Global, bill: &Links, from: &str, target: &str) -> Result<bool, Fail> {
    let start = code(from)?;
    let end = code(target)?;
    Ok(bill.does_reach(alloc, &start, &end)?)
}

/// Fails, and says of which, unless of each two words the first reaches the second, or does not.
fn do_reach(alloc: Global, bill: &Links, rows: &[ReachRow]) -> Result<(), Fail> {
    for (from, target, wanted) in rows {
        if does_reach(alloc, bill, from, target)? != *wanted {
            return Err(Fail::new(format_args!("otherwise from {from} to {target}")));
        }
    }
    Ok(())
}

#[test]
fn a_part_reaches_what_its_lines_lead_to_and_not_itself(rt: HostRuntime) -> Result<(), Fail> {
    let bill = kettle(rt.alloc())?;
    do_reach(
        rt.alloc(),
        &bill,
        &[
            ("kettle", "cu", true),
            ("cu", "kettle", false),
            ("kettle", "kettle", false),
            ("glass", "cu", false),
        ],
    )
}

/// Two words, and those of the chain from the first to the second.
type ChainRow<'a> = (&'a str, &'a str, &'a [&'a str]);

/// The chain from the node of a word to that of another.
fn chain_of(alloc: Global, bill: &Links, from: &str, target: &str) -> Result<Codes, Fail> {
    let start = code(from)?;
    let end = code(target)?;
    Ok(bill.chain(alloc, &start, &end)?)
}

/// Whether these are the codes of the words.
fn are_codes(alloc: Global, found: &[Code], words: &[&str]) -> Result<bool, Fail> {
    let wanted = codes(alloc, words)?;
    Ok(found == wanted.as_slice())
}

/// Whether there is this chain between the two words.
fn is_chain(alloc: Global, bill: &Links, row: &ChainRow) -> Result<bool, Fail> {
    let (from, target, words) = *row;
    let found = chain_of(alloc, bill, from, target)?;
    are_codes(alloc, found.as_slice(), words)
}

/// Fails, and says from which, unless from each word to the other there is its chain.
fn are_chains(alloc: Global, bill: &Links, rows: &[ChainRow]) -> Result<(), Fail> {
    for row in rows {
        if !is_chain(alloc, bill, row)? {
            return Err(Fail::new(format_args!("another chain of {row:?}")));
        }
    }
    Ok(())
}

#[test]
fn a_chain_ends_alone_where_there_is_none(rt: HostRuntime) -> Result<(), Fail> {
    let bill = kettle(rt.alloc())?;
    are_chains(
        rt.alloc(),
        &bill,
        &[
            ("cu", "cu", &["cu"]),
            ("plug", "cable", &["plug"]),
            ("glass", "plug", &["glass"]),
        ],
    )
}

#[test]
fn each_line_of_the_single_bill_counts_once(rt: HostRuntime) -> Result<(), Fail> {
    let whole = kettle(rt.alloc())?;
    let bill = whole.single(rt.alloc())?;
    weigh(
        rt.alloc(),
        &bill,
        &[Some(10), Some(5), Some(15), Some(30), Some(15)],
    )
}

/// Fails unless of each place among the five nodes so many parts reach it.
fn are_counted(alloc: Global, bill: &Links) -> Result<(), Fail> {
    if bill.nodes().len() != 5 {
        return Err(Fail::new("not five nodes"));
    }
    let counts = bill.reach_counts(alloc, &[4, 0, 1, 2, 3, 0])?;
    expect_eq(&counts.as_slice(), &[1, 3, 3, 1, 0, 3].as_slice())
}

#[test]
fn parts_that_reach_each_node_are_counted(rt: HostRuntime) -> Result<(), Fail> {
    let bill = kettle(rt.alloc())?;
    are_counted(rt.alloc(), &bill)
}

/// Fails unless of the five nodes the plug is or reaches these.
fn plug_reaches(alloc: Global, bill: &Links) -> Result<(), Fail> {
    if bill.nodes().len() != 5 {
        return Err(Fail::new("not five nodes"));
    }
    let marks = bill.reached_among(alloc, 4, &[4, 0, 2, 1, 3])?;
    let wanted = [true, true, false, true, false];
    expect_eq(&marks.as_slice(), &wanted.as_slice())
}

/// Fails unless copper is itself, and reaches no plastic.
fn copper_reaches(alloc: Global, bill: &Links) -> Result<(), Fail> {
    if bill.nodes().len() != 5 {
        return Err(Fail::new("not five nodes"));
    }
    let marks = bill.reached_among(alloc, 0, &[0, 1])?;
    expect_eq(&marks.as_slice(), &[true, false].as_slice())
}

#[test]
fn what_a_node_is_or_reaches_is_told_target_by_target(rt: HostRuntime) -> Result<(), Fail> {
    let bill = kettle(rt.alloc())?;
    plug_reaches(rt.alloc(), &bill)?;
    copper_reaches(rt.alloc(), &bill)
}

/// The bill with a line before the one at a place.
fn with_line_before(
    alloc: Global,
    bill: Links,
    place: usize,
    line: LineRow,
) -> Result<Links, Fail> {
    if place > bill.line_count() || !have_ends(bill.nodes(), &[line]) {
        return Err(Fail::new("no line"));
    }
    Ok(bill.with_line_before(alloc, place, &line)?)
}

/// The place of a line on a cycle.
fn line_on_cycle(alloc: Global, bill: &Links) -> Result<Option<usize>, Fail> {
    Ok(bill.line_on_cycle(alloc)?)
}

/// The place of a line of the kettle on a cycle.
fn cycle_of_kettle(alloc: Global) -> Result<Option<usize>, Fail> {
    let bill = kettle(alloc)?;
    line_on_cycle(alloc, &bill)
}

/// The kettle whose cable holds the kettle.
fn kettle_in_its_cable(alloc: Global) -> Result<Links, Fail> {
    let line = line(&("cable", "kettle", 1))?;
    with_line_before(alloc, kettle(alloc)?, 1, line)
}

/// The place of a line on a cycle where the cable holds the kettle.
fn cycle_of_cable(alloc: Global) -> Result<Option<usize>, Fail> {
    let bill = kettle_in_its_cable(alloc)?;
    line_on_cycle(alloc, &bill)
}

#[test]
fn a_line_on_a_cycle_is_told(rt: HostRuntime) -> Result<(), Fail> {
    expect_eq(&cycle_of_kettle(rt.alloc())?, &None)?;
    let place = cycle_of_cable(rt.alloc())?;
    if place == Some(1) || place == Some(3) {
        return Ok(());
    }
    Err(Fail::new(format_args!("the line at {place:?}")))
}

/// The code of a part: its layer and its side.
fn part(alloc: Global, layer: u32, side: &str) -> Result<Code, Fail> {
    let word = format!(in alloc; "{layer}{side}")?;
    code(word.as_str())
}

/// The codes of two materials, and of layers of two parts above them.
fn layer_nodes(alloc: Global, many: u8) -> Result<Vec<Code>, Fail> {
    let mut nodes = Vec::new(alloc);
    for layer in 100..=100 + u32::from(many) {
        for side in ["a", "b"] {
            nodes.push(part(alloc, layer, side)?)?;
        }
    }
    Ok(nodes)
}

/// Appends the lines of a part to the two parts of the layer below.
fn push_lines(
    alloc: Global,
    lines: &mut Vec<LineRow>,
    parent: Code,
    below: u32,
    count: u32,
) -> Result<(), Fail> {
    for side in ["a", "b"] {
        let child = part(alloc, below, side)?;
        lines.push(LineRow {
            parent,
            child,
            count,
        })?;
    }
    Ok(())
}

/// The lines of layers of two parts, each of which has two to the layer below.
fn layer_lines(alloc: Global, many: u8, count: u32) -> Result<Vec<LineRow>, Fail> {
    let mut lines = Vec::new(alloc);
    for layer in 101..=100 + u32::from(many) {
        for side in ["a", "b"] {
            let parent = part(alloc, layer, side)?;
            push_lines(alloc, &mut lines, parent, layer - 1, count)?;
        }
    }
    Ok(lines)
}

/// Two materials, and layers of two parts above them, each of which has two lines to the layer below.
fn layers(alloc: Global, many: u8, count: u32) -> Result<Links, Fail> {
    let lines = layer_lines(alloc, many, count)?;
    bill_of(alloc, layer_nodes(alloc, many)?, 2, &lines)
}

/// The first of these places at which something else stands in a list.
fn first_other<T: PartialEq>(list: &[T], rows: &[(usize, T)]) -> Option<usize> {
    for (place, one) in rows {
        if list.get(*place) != Some(one) {
            return Some(*place);
        }
    }
    None
}

/// Fails unless the list has so many items, and these at their places.
fn has_items<T: PartialEq>(list: &[T], len: usize, rows: &[(usize, T)]) -> Result<(), Fail> {
    expect_eq(&list.len(), &len)?;
    expect_eq(&first_other(list, rows), &None)
}

/// How many marks are set.
fn count_set(marks: &[bool]) -> usize {
    marks.iter().filter(|mark| **mark).count()
}

/// What a material of this mass weighs, and then a pair of it and a single one.
fn pair_and_single(alloc: Global, own: u128) -> Result<Vec<Option<u128>>, Fail> {
    let words = ["m", "pair", "single"];
    let bill = spelled(alloc, &words, 1, &[("pair", "m", 2), ("single", "m", 1)])?;
    if bill.nodes().len() != 3 {
        return Err(Fail::new("not three nodes"));
    }
    Ok(bill.rolled_up(alloc, &[own, 0, 0])?)
}

/// Fails unless a pair of a material of this mass weighs too much, and one of it doesn't.
fn pair_has_no_mass(alloc: Global, mass: u128) -> Result<(), Fail> {
    let found = pair_and_single(alloc, mass)?;
    let wanted = [Some(mass), None, Some(mass)];
    expect_eq(&found.as_slice(), &wanted.as_slice())
}

/// Fails unless it is so for each mass.
fn pairs_have_no_mass(alloc: Global, masses: &[u128]) -> Result<(), Fail> {
    for mass in masses {
        pair_has_no_mass(alloc, *mass)?;
    }
    Ok(())
}

#[test]
fn what_weighs_too_much_has_no_mass(rt: HostRuntime) -> Result<(), Fail> {
    pairs_have_no_mass(rt.alloc(), &[1 << 127, u128::MAX])
}

/// All places below this one.
fn places_below(alloc: Global, count: usize) -> Result<Vec<usize>, Fail>
    ensures { IfOk result (λ places. All (λ place. place < count) places.items) }
{
    let mut places = Vec::new(alloc);
    for place in 0..count {
        places.push(place)?;
    }
    Ok(places)
}

/// How many parts reach each node.
fn counts_of_all(alloc: Global, bill: &Links) -> Result<Vec<usize>, Fail> {
    let places = places_below(alloc, bill.nodes().len())?;
    Ok(bill.reach_counts(alloc, places.as_slice())?)
}

#[test]
fn more_nodes_are_counted_than_a_number_has_bits(rt: HostRuntime) -> Result<(), Fail> {
    let bill = layers(rt.alloc(), 40, 3)?;
    let counts = counts_of_all(rt.alloc(), &bill)?;
    has_items(
        counts.as_slice(),
        82,
        &[
            (0, 80),
            (1, 80),
            (2, 78),
            (63, 18),
            (64, 16),
            (80, 0),
            (81, 0),
        ],
    )
}

/// Whether the node at place 40 is or reaches each node.
fn reached_among_all(alloc: Global, bill: &Links) -> Result<Vec<bool>, Fail> {
    let count = bill.nodes().len();
    if count <= 40 {
        return Err(Fail::new("too few layers"));
    }
    let places = places_below(alloc, count)?;
    Ok(bill.reached_among(alloc, 40, places.as_slice())?)
}

#[test]
fn more_targets_are_told_than_a_number_has_bits(rt: HostRuntime) -> Result<(), Fail> {
    let bill = layers(rt.alloc(), 40, 3)?;
    let marks = reached_among_all(rt.alloc(), &bill)?;
    expect_eq(&marks.len(), &82)?;
    expect_eq(&count_set(marks.as_slice()), &41)
}
