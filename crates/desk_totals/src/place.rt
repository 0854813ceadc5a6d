ghost use Rattle.std.specs.Prelude.{◌≡◌, ◌<◌, ◌≤◌, false, true, length, map, MatchOption, IfOk};
ghost use Rattle.std.specs.List.{list_all};
ghost use Rattle.desk_totals.specs.Linked.{has_ends_in, is_among};
ghost use Rattle.desk_totals.specs.Places.{ArePlaces, line_at, node_at};

use crate::link::Link;
use desk_model::LineRow;
use desk_text::{Code, OutOfMemory};
use std::alloc::Global;

/// The place of the code among the nodes.
///
/// It takes a binary search among the materials and one among the parts where each stand in order of their codes and no other code
/// begins with the same sixteen bytes, as much again where another does, and else looks at all nodes.
pub(crate) fn place_of(nodes: &[Code], material_count: usize, code: &Code) -> Option<usize>
    requires { material_count ≤ length nodes.now }
    ensures { MatchOption result (is_among code.now nodes.now ≡ false)
        (λ place. (place < length nodes.now) × (node_at nodes.now place ≡ code.now)) }
{
    let near = place_by_head(nodes, material_count, code);
    if stands_at(nodes, near, code) {
        return Some(near);
    }
    let guess = guessed_place(nodes, material_count, code);
    if stands_at(nodes, guess, code) {
        return Some(guess);
    }
    first_place_of(nodes, code)
}

/// Where a code stands that begins as this one does, as far as a guess goes. Where no other begins so it is this one's place.
fn place_by_head(nodes: &[Code], material_count: usize, code: &Code) -> usize
    requires { material_count ≤ length nodes.now }
{
    let head = code.head();
    let (materials, parts) = nodes.split_at(material_count);
    match materials.binary_search_by(|node| node.head().cmp(&head)) {
        Ok(place) => place,
        Err(_) => match parts.binary_search_by(|node| node.head().cmp(&head)) {
            Ok(place) => material_count.saturating_add(place),
            Err(_) => nodes.len(),
        },
    }
}

/// Where the code stands, as far as a guess goes.
fn guessed_place(nodes: &[Code], material_count: usize, code: &Code) -> usize
    requires { material_count ≤ length nodes.now }
{
    let (materials, parts) = nodes.split_at(material_count);
    match materials.binary_search(code) {
        Ok(place) => place,
        Err(_) => match parts.binary_search(code) {
            Ok(place) => material_count.saturating_add(place),
            Err(_) => nodes.len(),
        },
    }
}

/// Whether the code stands at the place.
fn stands_at(nodes: &[Code], place: usize, code: &Code) -> bool
    ensures { result ≡ true → (place < length nodes.now) × (node_at nodes.now place ≡ code.now) }
{
    match nodes.get(place) {
        Some(node) => node == code,
        None => false,
    }
}

/// The first place at which the code stands.
fn first_place_of(nodes: &[Code], code: &Code) -> Option<usize>
    ensures { MatchOption result (is_among code.now nodes.now ≡ false)
        (λ place. (place < length nodes.now) × (node_at nodes.now place ≡ code.now)) }
{
    for (place, node) in nodes.iter().enumerate() {
        if node == code {
            return Some(place);
        }
    }
    None
}

/// The links of the lines, one for each. It takes a search for each end that is neither the same end of the line before nor the node
/// after that. Where lines stand in order the parents mostly are, and so are the children where codes are given in a row.
pub(crate) fn links_of(
    alloc: Global,
    nodes: &[Code],
    material_count: usize,
    lines: &[LineRow],
) -> Result<Vec<Link>, OutOfMemory>
    requires materials { material_count ≤ length nodes.now }
    requires ends { list_all (has_ends_in nodes.now) lines.now ≡ true }
    ensures lines { IfOk result (λ links. map (line_at nodes.now) links.items ≡ lines.now) }
    ensures places { IfOk result (λ links. ArePlaces (length nodes.now) links.items) }
{
    let mut links = Vec::with_capacity(alloc, lines.len())?;
    let mut near = (material_count, 0);
    for line in lines {
        let link = link_of(nodes, material_count, line, near);
        near = (link.parent, link.child);
        links.push_reserved(link);
    }
    Ok(links)
}

/// The link of a line, whose ends, parent and child, are looked for near these places first.
pub(crate) fn link_of(
    nodes: &[Code],
    material_count: usize,
    line: &LineRow,
    near: (usize, usize),
) -> Link
    requires materials { material_count ≤ length nodes.now }
    requires ends { has_ends_in nodes.now line.now ≡ true }
    ensures line { line_at nodes.now result ≡ line.now }
    ensures parent { result.parent < length nodes.now }
    ensures child { result.child < length nodes.now }
{
    Link {
        parent: place_near(nodes, material_count, &line.parent, near.0),
        child: place_near(nodes, material_count, &line.child, near.1),
        count: line.count,
    }
}

/// The place of a code that is one of the nodes: this place, or the next, or else where a search finds it.
fn place_near(nodes: &[Code], material_count: usize, code: &Code, near: usize) -> usize
    requires materials { material_count ≤ length nodes.now }
    requires there { is_among code.now nodes.now ≡ true }
    ensures within { result < length nodes.now }
    ensures code { node_at nodes.now result ≡ code.now }
{
    if stands_at(nodes, near, code) {
        return near;
    }
    let next = near.saturating_add(1);
    if stands_at(nodes, next, code) {
        return next;
    }
    place_in(nodes, material_count, code)
}

/// The place of a code that is one of the nodes.
fn place_in(nodes: &[Code], material_count: usize, code: &Code) -> usize
    requires materials { material_count ≤ length nodes.now }
    requires there { is_among code.now nodes.now ≡ true }
    ensures within { result < length nodes.now }
    ensures code { node_at nodes.now result ≡ code.now }
{
    match place_of(nodes, material_count, code) {
        Some(place) => place,
        // No node has the code: that can't be.
        None => nodes.len(),
    }
}
