// The nodes of a graph.
ghost use Rattle.std.specs.Prelude.{◌≡◌};
ghost use Rattle.need_graph.specs.Needs.{needs_of as nodes_needed, has as has_number};

use text_kit::Seq;

// The nodes that `v` needs by itself.
pub(crate) fn needs_of(needs: &Seq<Seq<usize>>, v: usize) -> &[usize]
    ensures { result.now ≡ nodes_needed needs.now v }
{
    match needs.get(v) {
        Some(nodes) => nodes.as_slice(),
        None => &[],
    }
}

// Whether `v` is one of these nodes.
pub(crate) fn has(nodes: &[usize], v: usize) -> bool
    ensures { result ≡ has_number nodes.now v }
{
    nodes.iter().any(|u| *u == v)
}
