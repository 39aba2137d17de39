// The nodes and the leafs of an image: each row as the file has it, and its parent behind it.
ghost use Rattle.std.specs.Prelude.{◌≡◌, ◌+◌, ◌*◌, ◌/◌, ◌^◌, ◌<◌, ◌≤◌, ℕ, length, None, Some, IfSome, if◌then◌else◌};
ghost use Rattle.std.specs.List.{flat_map, range_with_len};
ghost use Rattle.std.specs.Ordering.{int_eq};
ghost use Rattle.bsp29_build.specs.Parents.{child_of, parent_of, child_size, with_parent, child_rows};
ghost use Rattle.bsp29_build.specs.Parents.{node_rows, leaf_rows, HasRows, number_in, blank_row, PutsParents};
ghost use Rattle.bsp29_build.specs.declared.parents.ChildKind.TheVariants.{Node, Leaf};

use base_fields::{fill_u32, i16_at, put_u32};

/// What stands in the place of a parent where there is none.
const NO_PARENT: u32 = 0xffff_ffff;

/// The kinds of children that a node has.
#[derive(Clone, Copy, Debug)]
pub(crate) enum ChildKind {
    Node,
    Leaf,
}

impl ChildKind {
    // The bytes of a row in a file.
    fn size(self) -> usize
        ensures size { result ≡ child_size self }
        ensures positive { 0 < result }
        ensures small { result ≤ 28 }
    {
        match self {
            ChildKind::Node => 24,
            ChildKind::Leaf => 28,
        }
    }

    // The number of a child, if it is of this kind.
    fn number_of(self, child: i16) -> Option<usize>
        ensures { result ≡ number_in self child }
    {
        match self {
            ChildKind::Node if child >= 0 => Some(child as usize),
            ChildKind::Leaf if child < 0 => Some((-1 - i32::from(child)) as usize),
            _ => None,
        }
    }
}

// Fills `out` with a row and no parent.
fn put_row(row: &[u8], out: &mut [u8])
    requires { length out.old ≡ length row.now + 4 }
    ensures { out.new ≡ with_parent row.now None }
{
    let (front, back) = out.split_at_mut(row.len());
    front.copy_from_slice(row);
    fill_u32(back, NO_PARENT);
}

// Fills `out` with rows of this size and no parents.
fn put_rows(size: usize, rows: &[u8], out: &mut [u8])
    requires size { (0 < size) × (size ≤ 28) }
    requires room { length out.old ≡ (size + 4) * (length rows.now / size) }
    ensures { out.new ≡ flat_map (blank_row size rows.now) (range_with_len 0 (length rows.now / size)) }
{
    for n in 0..rows.len() / size {
        let row = &rows[n * size..n * size + size];
        put_row(row, &mut out[n * (size + 4)..n * (size + 4) + (size + 4)]);
    }
}

// Puts the parent behind the child's row, if the child is of this kind.
fn put_parent(kind: ChildKind, child: i16, parent: u32, out: &mut [u8])
    requires { IfSome (number_in kind child) (λ n. n < length out.old / (child_size kind + 4)) }
    ensures { PutsParents (child_size kind) (λ n. if int_eq child (child_of kind n) then Some parent else None)
        out.old out.new }
{
    if let Some(number) = kind.number_of(child) {
        let size = kind.size();
        put_u32(out, number * (size + 4) + size, parent);
    }
}

// Puts the parents of all children of this kind behind their rows. The nodes go from the last to the first, so the
// least writes last.
fn put_parents(kind: ChildKind, nodes: &[u8], out: &mut [u8])
    requires short { length nodes.now < 2 ^ 32 }
    requires children { HasRows kind nodes.now (length out.old / (child_size kind + 4)) }
    ensures { PutsParents (child_size kind) (λ n. parent_of nodes.now (child_of kind n)) out.old out.new }
{
    for n in (0..nodes.len() / 24).rev() {
        let row = &nodes[n * 24..n * 24 + 24];
        put_parent(kind, i16_at(row, 4), n as u32, out);
        put_parent(kind, i16_at(row, 6), n as u32, out);
    }
}

// Fills `out` with the rows of the children of a kind.
fn put_children(kind: ChildKind, nodes: &[u8], table: &[u8], out: &mut [u8])
    requires short { length nodes.now < 2 ^ 32 }
    requires room { length out.old ≡ (child_size kind + 4) * (length table.now / child_size kind) }
    requires children { HasRows kind nodes.now (length table.now / child_size kind) }
    ensures { out.new ≡ child_rows kind nodes.now table.now }
{
    put_rows(kind.size(), table, out);
    put_parents(kind, nodes, out);
}

/// Fills `out` with the nodes of an image, from the bytes of the lump of nodes. A node has 28 bytes there: the 24 of
/// its row, and the least node that has it as a child, or 0xFFFFFFFF where none has.
pub(crate) fn put_nodes(nodes: &[u8], out: &mut [u8])
    requires short { length nodes.now < 2 ^ 32 }
    requires room { length out.old ≡ 28 * (length nodes.now / 24) }
    requires children { HasRows Node nodes.now (length nodes.now / 24) }
    ensures { out.new ≡ node_rows nodes.now }
{
    put_children(ChildKind::Node, nodes, nodes, out);
}

/// Fills `out` with the leafs of an image, from the bytes of the lumps of nodes and leafs. A leaf has 32 bytes there:
/// the 28 of its row, and the least node that has it as a child, or 0xFFFFFFFF where none has.
pub(crate) fn put_leafs(nodes: &[u8], leafs: &[u8], out: &mut [u8])
    requires short { length nodes.now < 2 ^ 32 }
    requires room { length out.old ≡ 32 * (length leafs.now / 28) }
    requires children { HasRows Leaf nodes.now (length leafs.now / 28) }
    ensures { out.new ≡ leaf_rows nodes.now leafs.now }
{
    put_children(ChildKind::Leaf, nodes, leafs, out);
}
