ghost use Rattle.std.specs.Prelude.{◌≡◌, ◌≢◌, ◌<◌, ◌≤◌, IfOk, IfSome, length, slice_get};
ghost use Rattle.frame_links.specs.Lists.{list_at, list_of, next_in, node_count, HasEachOnce, HasSameNodes, at_back, at_front, just_before, first_lists};
ghost use Rattle.frame_links.specs.Linked.{node_of};

use crate::ring::Ring;
use std::alloc::Global;
use std::marker::Model;
use surw_base::OutOfMemory;

/// Nodes, each in exactly one of some lists. A contract sees the list of the lists.
#[derive(Debug, Drop)]
pub struct Links {
    // The points are the nodes, and after them the ends: one before each list, and one after the last list.
    ring: Ring,
    // The list of each node.
    owners: Vec<u8>,
}

impl Model for Links {
    ghost use Rattle.std.specs.Prelude.{ℕ, List};
    ghost use Rattle.frame_links.specs.Linked.{linked_lists, IsLinked};

    ghost Value = { List (List ℕ) };

    ghost view = { λ links. linked_lists links.ring.after.items links.owners.items };

    ghost invariant = { λ links. IsLinked links.ring.after.items links.ring.before.items links.owners.items };
}

impl Links {
    /// So many nodes, all in list 0 and rising, and so many lists, at least one. An error comes only where memory is refused.
    pub fn new(alloc: Global, nodes: u16, lists: u8) -> Result<Links, OutOfMemory>
        requires { 1 ≤ lists }
        ensures lists { IfOk result (λ links. links ≡ first_lists nodes lists) }
        ensures nodes { IfOk result (λ links. node_count links ≡ nodes) }
        ensures each_once { IfOk result (λ links. HasEachOnce links) }
    {
        let ring = Ring::new(alloc, usize::from(nodes), usize::from(lists))?;
        let owners = vec![in alloc; 0; usize::from(nodes)]?;
        Ok(Links { ring, owners })
    }

    /// Equal links. An error comes only where memory is refused.
    pub fn copy(&self, alloc: Global) -> Result<Links, OutOfMemory>
        ensures { IfOk result (λ copy. copy ≡ self.now) }
    {
        let ring = self.ring.copy(alloc)?;
        let owners = Vec::from_slice(alloc, self.owners.as_slice())?;
        Ok(Links { ring, owners })
    }

    /// The first node of a list. None where the list is empty.
    pub fn first(&self, list: u8) -> Option<u16>
        requires { list < length self.now }
        ensures first { result ≡ slice_get (list_at self.now list) 0 }
        ensures within { IfSome result (λ node. node < node_count self.now) }
    {
        let end = self.owners.len() + usize::from(list);
        node_of(self.ring.after(end), self.owners.len())
    }

    /// The node after a node. None where it is the last of its list.
    pub fn next(&self, node: u16) -> Option<u16>
        requires { node < node_count self.now }
        ensures next { result ≡ next_in node (list_at self.now (list_of self.now node)) }
        ensures within { IfSome result (λ next. next < node_count self.now) }
    {
        node_of(self.ring.after(usize::from(node)), self.owners.len())
    }

    /// The list that has a node.
    pub fn list_of(&self, node: u16) -> u8
        requires { node < node_count self.now }
        ensures list { result ≡ list_of self.now node }
        ensures each_once { HasEachOnce self.now }
    {
        self.owners[usize::from(node)]
    }

    /// Moves a node to the back of a list.
    pub fn to_back(&mut self, list: u8, node: u16)
        requires list { list < length self.old }
        requires node { node < node_count self.old }
        ensures after { self.new ≡ at_back self.old list node }
        ensures same_nodes { HasSameNodes self.old self.new }
    {
        let node = usize::from(node);
        let end = self.owners.len() + usize::from(list) + 1;
        self.ring.take_out(node);
        self.ring.put_before(node, end);
        self.owners[node] = list;
    }

    /// Moves a node to the front of a list.
    pub fn to_front(&mut self, list: u8, node: u16)
        requires list { list < length self.old }
        requires node { node < node_count self.old }
        ensures after { self.new ≡ at_front self.old list node }
        ensures same_nodes { HasSameNodes self.old self.new }
    {
        let node = usize::from(node);
        let end = self.owners.len() + usize::from(list);
        self.ring.take_out(node);
        let first = self.ring.after(end);
        self.ring.put_before(node, first);
        self.owners[node] = list;
    }

    /// Moves a node into another's list, just before it.
    pub fn before(&mut self, node: u16, other: u16)
        requires apart { node ≢ other }
        requires node { node < node_count self.old }
        requires other { other < node_count self.old }
        ensures after { self.new ≡ just_before self.old node other }
        ensures same_nodes { HasSameNodes self.old self.new }
    {
        let node = usize::from(node);
        let other = usize::from(other);
        self.ring.take_out(node);
        self.ring.put_before(node, other);
        self.owners[node] = self.owners[other];
    }
}

// The node that a point is, if it is one of so many.
fn node_of(point: usize, nodes: usize) -> Option<u16>
    requires { nodes < 65536 }
    ensures { result ≡ node_of point nodes }
{
    if point < nodes {
        Some(point as u16)
    } else {
        None
    }
}

#[cfg(test)]
mod tests;
