ghost use Rattle.std.specs.Prelude.{◌≡◌, ◌+◌, ◌^◌, ◌<◌, IfOk, slice_index, length, map};
ghost use Rattle.std.specs.List.{range_with_len};
ghost use Rattle.frame_links.specs.Linked.{first_after, first_before, way_with, way_without};

use std::alloc::Global;
use surw_base::OutOfMemory;

/// Points that each know the point after them and the point before them.
#[derive(Debug, Drop)]
pub(crate) struct Ring {
    after: Vec<usize>,
    before: Vec<usize>,
}

impl Ring {
    /// So many nodes, rising, from the first end to the second, and after them one end for each further list.
    pub(crate) fn new(alloc: Global, nodes: usize, lists: usize) -> Result<Ring, OutOfMemory>
        requires nodes { nodes < 2 ^ 16 }
        requires lists { lists < 2 ^ 8 }
        ensures after { IfOk result (λ ring. ring.after.items ≡ map (first_after nodes) (range_with_len 0 (nodes + lists + 1))) }
        ensures before { IfOk result (λ ring. ring.before.items ≡ map (first_before nodes) (range_with_len 0 (nodes + lists + 1))) }
    {
        let points = nodes + lists + 1;
        let mut after = Vec::with_capacity(alloc, points)?;
        let mut before = Vec::with_capacity(alloc, points)?;
        for point in 0..points {
            after.push(first_after(nodes, point))?;
            before.push(first_before(nodes, point))?;
        }
        Ok(Ring { after, before })
    }

    /// Equal points. An error comes only where memory is refused.
    pub(crate) fn copy(&self, alloc: Global) -> Result<Ring, OutOfMemory>
        ensures after { IfOk result (λ ring. ring.after.items ≡ self.now.after.items) }
        ensures before { IfOk result (λ ring. ring.before.items ≡ self.now.before.items) }
    {
        let after = Vec::from_slice(alloc, self.after.as_slice())?;
        let before = Vec::from_slice(alloc, self.before.as_slice())?;
        Ok(Ring { after, before })
    }

    /// The point after a point.
    pub(crate) fn after(&self, point: usize) -> usize
        requires { point < length self.now.after.items }
        ensures { result ≡ slice_index self.now.after.items point }
    {
        self.after[point]
    }

    /// Links the points on both sides of a point with each other.
    pub(crate) fn take_out(&mut self, point: usize)
        requires after { point < length self.old.after.items }
        requires before { point < length self.old.before.items }
        requires next { slice_index self.old.after.items point < length self.old.before.items }
        requires last { slice_index self.old.before.items point < length self.old.after.items }
        ensures after { self.new.after.items ≡ way_without self.old.after.items self.old.before.items point }
        ensures before { self.new.before.items ≡ way_without self.old.before.items self.old.after.items point }
    {
        let after = self.after[point];
        let before = self.before[point];
        self.after[before] = after;
        self.before[after] = before;
    }

    /// Links a point in between the point `after` and the one before that.
    pub(crate) fn put_before(&mut self, point: usize, after: usize)
        requires point_after { point < length self.old.after.items }
        requires point_before { point < length self.old.before.items }
        requires after { after < length self.old.before.items }
        requires before { slice_index self.old.before.items after < length self.old.after.items }
        ensures after { self.new.after.items ≡ way_with self.old.after.items (slice_index self.old.before.items after) point after }
        ensures before { self.new.before.items ≡ way_with self.old.before.items after point (slice_index self.old.before.items after) }
    {
        let before = self.before[after];
        self.after[before] = point;
        self.after[point] = after;
        self.before[after] = point;
        self.before[point] = before;
    }
}

// The point after a point, where all nodes are in the first list.
fn first_after(nodes: usize, point: usize) -> usize
    requires nodes { nodes < 2 ^ 16 }
    requires point { point < 2 ^ 17 }
    ensures { result ≡ first_after nodes point }
{
    if point == nodes && nodes > 0 {
        0
    } else if point + 1 == nodes {
        nodes + 1
    } else {
        point + 1
    }
}

// The point before a point, where all nodes are in the first list.
fn first_before(nodes: usize, point: usize) -> usize
    requires nodes { nodes < 2 ^ 16 }
    requires point { point < 2 ^ 17 }
    ensures { result ≡ first_before nodes point }
{
    if point == nodes + 1 && nodes > 0 {
        nodes - 1
    } else if point == 0 {
        nodes
    } else {
        point - 1
    }
}
