// Hull 0 of an image: the nodes as clipnodes.
ghost use Rattle.std.specs.Prelude.{◌≡◌, ◌*◌, ◌/◌, ◌≤◌, ◌<◌, ◌+◌, length, IfSome};
ghost use Rattle.base_fields.specs.Fields.{field, i16_in};
ghost use Rattle.bsp29_build.specs.Parents.{HasRows, number_in};
ghost use Rattle.bsp29_build.specs.Hulls.{hull_child, hull_row, hull_rows};
ghost use Rattle.bsp29_build.specs.declared.parents.ChildKind.TheVariants.{Leaf};

use base_fields::i16_at;

// The two bytes of the child of a node that stands there in its row.
fn hull_child<'a>(row: &'a [u8], at: usize, leafs: &'a [u8]) -> &'a [u8]
    requires inside { at + 2 ≤ length row.now }
    requires leaf { IfSome (number_in Leaf (i16_in row.now at)) (λ n. n < length leafs.now / 28) }
    ensures { result.now ≡ hull_child leafs.now (field 2 row.now at) (i16_in row.now at) }
{
    let child = i16_at(row, at);
    if child >= 0 {
        return &row[at..at + 2];
    }
    let leaf = (-1 - i32::from(child)) as usize;
    &leafs[leaf * 28..leaf * 28 + 2]
}

// Fills `out` with the clipnode of a node.
#[tactic(auto, unfolding(crate::specs::Hulls::hull_row))]
fn put_clipnode(row: &[u8], leafs: &[u8], out: &mut [u8])
    requires row { length row.now ≡ 24 }
    requires front { IfSome (number_in Leaf (i16_in row.now 4)) (λ n. n < length leafs.now / 28) }
    requires back { IfSome (number_in Leaf (i16_in row.now 6)) (λ n. n < length leafs.now / 28) }
    requires room { length out.old ≡ 8 }
    ensures { out.new ≡ hull_row leafs.now row.now }
{
    let (plane, children) = out.split_at_mut(4);
    plane.copy_from_slice(&row[..4]);
    let (front, back) = children.split_at_mut(2);
    front.copy_from_slice(hull_child(row, 4, leafs));
    back.copy_from_slice(hull_child(row, 6, leafs));
}

/// Fills `out` with hull 0 of an image, from the bytes of the lumps of nodes and leafs: for each node a clipnode of 8
/// bytes. They are the plane, and for each child two bytes: the number of a node, or the contents of a leaf.
pub(crate) fn put_hull(nodes: &[u8], leafs: &[u8], out: &mut [u8])
    requires room { length out.old ≡ 8 * (length nodes.now / 24) }
    requires children { HasRows Leaf nodes.now (length leafs.now / 28) }
    ensures { out.new ≡ hull_rows nodes.now leafs.now }
{
    for n in 0..nodes.len() / 24 {
        put_clipnode(
            &nodes[n * 24..n * 24 + 24],
            leafs,
            &mut out[n * 8..n * 8 + 8],
        );
    }
}
