ghost use Rattle.std.specs.Prelude.{◌≡◌, ◌<◌, ◌≤◌, false, true, map, length, insert, remove, slice_set, IfOk, MatchOption};
ghost use Rattle.desk_totals.specs.Linked.{IsLinked, has_ends_in, is_among, single};
ghost use Rattle.desk_totals.specs.Places.{ArePlaces, IsKeptRight, line_at, node_at, single_link};

use crate::guess::children_first;
use crate::link::Link;
use crate::place::{link_of, links_of, place_of};
use desk_model::LineRow;
use desk_text::{Code, OutOfMemory};
use std::alloc::Global;
use std::marker::Model;

/// A bill of materials whose lines are links between places: the codes of materials and then of parts, and the lines.
///
/// Contracts see the codes, how many of them are materials, and the lines. Beside them it keeps the links once more, in an order
/// in which children come first as far as a guess goes.
#[derive(Drop)]
pub struct Links {
    nodes: Vec<Code>,
    material_count: usize,
    links: Vec<Link>,
    guess: Vec<Link>,
}

impl Model for Links {
    ghost use Rattle.std.specs.Prelude.{map};
    ghost use Rattle.desk_totals.specs.Linked.{Linked};
    ghost use Rattle.desk_totals.specs.Places.{IsKeptRight, line_at};

    ghost Value = { Linked };

    ghost view = { λ l. record { nodes = l.nodes.items; material_count = l.material_count; lines = map (line_at l.nodes.items) l.links.items } };

    ghost invariant = { λ l. IsKeptRight l.nodes.items l.material_count l.links.items };
}

impl Links {
    /// The bill of these codes, those of materials first, and of these lines between them.
    ///
    /// It takes two searches for each line, binary where the codes of materials and those of parts each stand in order, and a few
    /// passes over nodes and lines.
    pub fn new(
        alloc: Global,
        nodes: Vec<Code>,
        material_count: usize,
        lines: &[LineRow],
    ) -> Result<Links, OutOfMemory>
        requires { IsLinked (record { nodes = nodes.items; material_count = material_count; lines = lines.now }) }
        ensures { IfOk result (λ bill. bill ≡ record { nodes = nodes.items; material_count = material_count; lines = lines.now }) }
    {
        let links = links_of(alloc, nodes.as_slice(), material_count, lines)?;
        with_links(alloc, nodes, material_count, links)
    }

    /// The codes of materials and then of parts.
    pub fn nodes(&self) -> &[Code]
        ensures nodes { result.now ≡ self.now.nodes }
        ensures linked { IsLinked self.now }
    {
        self.nodes.as_slice()
    }

    /// How many of the nodes are materials.
    pub fn material_count(&self) -> usize
        ensures count { result ≡ self.now.material_count }
        ensures within { self.now.material_count ≤ length self.now.nodes }
    {
        self.material_count
    }

    /// How many lines there are.
    pub fn line_count(&self) -> usize
        ensures { result ≡ length self.now.lines }
    {
        self.links.len()
    }

    /// The place of the code among the nodes.
    ///
    /// It takes a binary search where the codes of materials and those of parts each stand in order, and else looks at all nodes.
    pub fn place_of(&self, code: &Code) -> Option<usize>
        ensures { MatchOption result (is_among code.now self.now.nodes ≡ false)
            (λ place. (place < length self.now.nodes) × (node_at self.now.nodes place ≡ code.now)) }
    {
        place_of(self.nodes.as_slice(), self.material_count, code)
    }

    /// The lines by the places of their ends.
    pub(crate) fn links(&self) -> &[Link]
        ensures lines { self.now.lines ≡ map (line_at self.now.nodes) result.now }
        ensures places { ArePlaces (length self.now.nodes) result.now }
        ensures linked { IsLinked self.now }
    {
        self.links.as_slice()
    }

    /// The codes of the nodes that lines lead to, in an order in which children come first, as far as a guess goes. Nothing is proved
    /// of it: it may save time, and no result may come of it.
    ///
    /// It takes a pass over the lines.
    pub fn guessed_order(&self, alloc: Global) -> Result<Vec<Code>, OutOfMemory> {
        let mut codes = Vec::with_capacity(alloc, self.nodes.len())?;
        let mut last = None;
        for link in self.guess() {
            if last != Some(link.child) && link.child < self.nodes.len() {
                codes.push(self.nodes[link.child])?;
            }
            last = Some(link.child);
        }
        Ok(codes)
    }

    /// The links in an order in which children come first, as far as a guess goes.
    pub(crate) fn guess(&self) -> &[Link] {
        self.guess.as_slice()
    }

    /// The same bill with the count 1 in each line, beside this one.
    ///
    /// It takes a copy of nodes and lines.
    pub fn single(&self, alloc: Global) -> Result<Links, OutOfMemory>
        ensures { IfOk result (λ bill. bill ≡ record { nodes = self.now.nodes; material_count = self.now.material_count; lines = map single self.now.lines }) }
    {
        let nodes = Vec::from_slice(alloc, self.nodes.as_slice())?;
        let links = single_links(alloc, self.links.as_slice())?;
        let guess = single_links(alloc, self.guess.as_slice())?;
        Ok(Links {
            nodes,
            material_count: self.material_count,
            links,
            guess,
        })
    }

    /// The same bill with this line in place of the one that stands at the place.
    ///
    /// It takes two searches and a few passes over nodes and lines.
    pub fn with_line_at(
        self,
        alloc: Global,
        place: usize,
        line: &LineRow,
    ) -> Result<Links, OutOfMemory>
        requires place { place < length self.lines }
        requires ends { has_ends_in self.nodes line.now ≡ true }
        ensures { IfOk result (λ bill. bill ≡ record { nodes = self.nodes; material_count = self.material_count; lines = slice_set self.lines place line.now }) }
    {
        let link = link_of(
            self.nodes.as_slice(),
            self.material_count,
            line,
            (self.material_count, 0),
        );
        let mut links = self.links;
        set_link(&mut links, place, link);
        with_links(alloc, self.nodes, self.material_count, links)
    }

    /// The same bill with this line before the one that stands at the place, or at the end.
    ///
    /// It takes two searches and a few passes over nodes and lines.
    pub fn with_line_before(
        self,
        alloc: Global,
        place: usize,
        line: &LineRow,
    ) -> Result<Links, OutOfMemory>
        requires place { place ≤ length self.lines }
        requires ends { has_ends_in self.nodes line.now ≡ true }
        ensures { IfOk result (λ bill. bill ≡ record { nodes = self.nodes; material_count = self.material_count; lines = insert self.lines place line.now }) }
    {
        let link = link_of(
            self.nodes.as_slice(),
            self.material_count,
            line,
            (self.material_count, 0),
        );
        let mut links = self.links;
        links.insert(place, link)?;
        with_links(alloc, self.nodes, self.material_count, links)
    }

    /// The same bill without the line that stands at the place.
    ///
    /// It takes a few passes over nodes and lines.
    pub fn without_line_at(self, alloc: Global, place: usize) -> Result<Links, OutOfMemory>
        requires { place < length self.lines }
        ensures { IfOk result (λ bill. bill ≡ record { nodes = self.nodes; material_count = self.material_count; lines = remove self.lines place }) }
    {
        let mut links = self.links;
        links.remove(place);
        with_links(alloc, self.nodes, self.material_count, links)
    }
}

/// The links with the count 1 in each.
fn single_links(alloc: Global, links: &[Link]) -> Result<Vec<Link>, OutOfMemory>
    ensures { IfOk result (λ singles. singles.items ≡ map single_link links.now) }
{
    let mut singles = Vec::with_capacity(alloc, links.len())?;
    for link in links {
        singles.push_reserved(Link {
            parent: link.parent,
            child: link.child,
            count: 1,
        });
    }
    Ok(singles)
}

/// Puts the link in place of the one at the place.
fn set_link(links: &mut Vec<Link>, place: usize, link: Link)
    requires { place < length links.old.items }
    ensures { links.new.items ≡ slice_set links.old.items place link }
{
    links[place] = link;
}

/// The bill of these nodes and links, with a guess at the order.
fn with_links(
    alloc: Global,
    nodes: Vec<Code>,
    material_count: usize,
    links: Vec<Link>,
) -> Result<Links, OutOfMemory>
    requires { IsKeptRight nodes.items material_count links.items }
    ensures { IfOk result (λ bill. bill ≡ record { nodes = nodes.items; material_count = material_count; lines = map (line_at nodes.items) links.items }) }
{
    let guess = children_first(alloc, nodes.len(), links.as_slice())?;
    Ok(Links {
        nodes,
        material_count,
        links,
        guess,
    })
}
