use crate::link::Link;
use crate::links::Links;
use desk_text::OutOfMemory;
use std::alloc::Global;

/// The links in an order in which those below a node stand before those that lead to it, as far as a guess goes.
///
/// Nothing is proved of it but that it ends. Links on a cycle, and links above one, are left out. It takes one pass over
/// the nodes and a few over the links.
pub(crate) fn children_first(
    alloc: Global,
    node_count: usize,
    links: &[Link],
) -> Result<Vec<Link>, OutOfMemory> {
    let users = Users::new(alloc, node_count, links)?;
    let mut open = vec![in alloc; 0; node_count]?;
    for link in links {
        add_one(open.as_mut_slice(), link.parent);
    }
    let mut ready = nodes_without_lines(alloc, open.as_slice())?;
    let mut order = Vec::with_capacity(alloc, links.len())?;
    for at in 0..node_count {
        sweep_node(at, &users, &mut open, &mut ready, &mut order)?;
    }
    Ok(order)
}

/// The place of a node on a cycle, as far as a guess goes, or past the end.
///
/// It goes down from a node some of whose lines the order leaves out, each time to a child of which that holds too, as often as
/// there are nodes: such a way ends on a cycle. It takes a few passes over nodes and links.
pub(crate) fn place_on_cycle(alloc: Global, bill: &Links) -> Result<usize, OutOfMemory> {
    let node_count = bill.nodes().len();
    let mut open = vec![in alloc; 0; node_count]?;
    for link in bill.links() {
        add_one(open.as_mut_slice(), link.parent);
    }
    for link in bill.guess() {
        take_one(open.as_mut_slice(), link.parent);
    }
    let mut next = vec![in alloc; node_count; node_count]?;
    for link in bill.links() {
        put_if_some(
            number_at(open.as_slice(), link.child),
            next.as_mut_slice(),
            *link,
        );
    }
    let mut place = first_some(open.as_slice());
    for _step in 0..node_count {
        place = number_at(next.as_slice(), place);
    }
    Ok(place)
}

/// Puts down the link's child as the next of its parent, where the count is above 0.
fn put_if_some(count: usize, next: &mut [usize], link: Link) {
    if count == 0 {
        return;
    }
    if link.parent < next.len() {
        next[link.parent] = link.child;
    }
}

/// The place of the first count above 0, or the number of counts.
fn first_some(counts: &[usize]) -> usize {
    for (place, count) in counts.iter().enumerate() {
        if *count > 0 {
            return place;
        }
    }
    counts.len()
}

/// The links by their children: those of one child stand together.
#[derive(Drop)]
struct Users {
    links: Vec<Link>,
    ends: Vec<usize>,
}

impl Users {
    /// The links in the order of the places of their children.
    fn new(alloc: Global, node_count: usize, links: &[Link]) -> Result<Users, OutOfMemory> {
        let mut ends = vec![in alloc; 0; node_count]?;
        for link in links {
            add_one(ends.as_mut_slice(), link.child);
        }
        to_starts(ends.as_mut_slice());
        let mut sorted = Vec::from_slice(alloc, links)?;
        for link in links {
            let at = number_at(ends.as_slice(), link.child);
            put_link(sorted.as_mut_slice(), at, *link);
            add_one(ends.as_mut_slice(), link.child);
        }
        Ok(Users {
            links: sorted,
            ends,
        })
    }

    /// The links that lead to the child.
    fn of(&self, child: usize) -> &[Link] {
        let start = match child.checked_sub(1) {
            Some(before) => number_at(self.ends.as_slice(), before),
            None => 0,
        };
        let end = number_at(self.ends.as_slice(), child);
        match self.links.get(start..end) {
            Some(links) => links,
            None => &[],
        }
    }
}

/// Sweeps the node that is ready at this place, if one is: each link that leads to it comes next, and each parent whose lines have
/// all come is ready.
fn sweep_node(
    at: usize,
    users: &Users,
    open: &mut Vec<usize>,
    ready: &mut Vec<usize>,
    order: &mut Vec<Link>,
) -> Result<(), OutOfMemory> {
    if at >= ready.len() {
        return Ok(());
    }
    let node = ready[at];
    for link in users.of(node) {
        order.push(*link)?;
        take_one(open.as_mut_slice(), link.parent);
        push_if_none(number_at(open.as_slice(), link.parent), link.parent, ready)?;
    }
    Ok(())
}

/// The nodes that have no lines.
fn nodes_without_lines(alloc: Global, open: &[usize]) -> Result<Vec<usize>, OutOfMemory> {
    let mut nodes = Vec::with_capacity(alloc, open.len())?;
    for (node, count) in open.iter().enumerate() {
        push_if_none(*count, node, &mut nodes)?;
    }
    Ok(nodes)
}

/// Appends the node where the count is 0.
fn push_if_none(count: usize, node: usize, nodes: &mut Vec<usize>) -> Result<(), OutOfMemory> {
    if count == 0 {
        nodes.push(node)?;
    }
    Ok(())
}

/// Turns counts into the sums of those before each.
fn to_starts(counts: &mut [usize]) {
    let mut sum: usize = 0;
    for count in counts.iter_mut() {
        let next = sum.saturating_add(*count);
        *count = sum;
        sum = next;
    }
}

/// The number at the place, or 0 past the end.
fn number_at(numbers: &[usize], place: usize) -> usize {
    match numbers.get(place) {
        Some(number) => *number,
        None => 0,
    }
}

/// Counts one more at the place, and nothing past the end.
fn add_one(counts: &mut [usize], place: usize) {
    if place < counts.len() {
        counts[place] = counts[place].saturating_add(1);
    }
}

/// Counts one less at the place, and nothing past the end.
fn take_one(counts: &mut [usize], place: usize) {
    if place < counts.len() {
        counts[place] = counts[place].saturating_sub(1);
    }
}

/// Puts the link at the place, and nowhere past the end.
fn put_link(links: &mut [Link], place: usize, link: Link) {
    if place < links.len() {
        links[place] = link;
    }
}
