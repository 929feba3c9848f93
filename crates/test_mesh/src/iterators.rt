//! What the iterators of a mesh give.
ghost use Rattle.std.specs.Iterator.{IsFinite};

use crate::lookups::vertex;
use half_edge_dcel::{Dcel, MeshViews};
use half_edge_mesh::{AsVoronoiFace, VoronoiViews};

/// How many items are given. No list here is so long that it saturates.
pub fn count_of<T: Drop, I: Iterator<Item = T> + Drop>(items: I) -> usize
    requires can { I.can_next items }
    requires ends { IsFinite (I.remaining items) }
{
    let mut count = 0usize;
    for _ in items {
        count = count.saturating_add(1);
    }
    count
}

/// The least and the greatest index that is given.
fn range<I: Iterator<Item = u32> + Drop>(indexes: I) -> [Option<u32>; 2]
    requires can { I.can_next indexes }
    requires ends { IsFinite (I.remaining indexes) }
{
    let mut least: Option<u32> = None;
    let mut greatest: Option<u32> = None;
    for index in indexes {
        least = Some(least.map_or(index, |least| least.min(index)));
        greatest = greatest.max(Some(index));
    }
    [least, greatest]
}

/// How many edges the hull gives, and the greatest index of them.
fn hull<V, DE, UE, F>(mesh: &Dcel<V, DE, UE, F>) -> (usize, Option<u32>) {
    (
        count_of(mesh.convex_hull()),
        mesh.convex_hull().map(|edge| edge.index()).max(),
    )
}

/// How many vertices, directed edges, undirected edges, faces, inner faces, Voronoi faces, directed
/// and undirected Voronoi edges are given, and those of the hull.
pub fn lists<V, DE, UE, F>(mesh: &Dcel<V, DE, UE, F>) -> ([usize; 8], (usize, Option<u32>)) {
    let counts = [
        count_of(mesh.vertices()),
        count_of(mesh.directed_edges()),
        count_of(mesh.undirected_edges()),
        count_of(mesh.faces()),
        count_of(mesh.inner_faces()),
        count_of(mesh.voronoi_faces()),
        count_of(mesh.directed_voronoi_edges()),
        count_of(mesh.undirected_voronoi_edges()),
    ];
    (counts, hull(mesh))
}

/// How many names of vertices, directed edges, undirected edges, faces and inner faces are given,
/// and the first name of a face and of an inner one.
pub fn names<V, DE, UE, F>(mesh: &Dcel<V, DE, UE, F>) -> ([usize; 5], [Option<u32>; 2]) {
    let counts = [
        count_of(mesh.fixed_vertices()),
        count_of(mesh.fixed_directed_edges()),
        count_of(mesh.fixed_undirected_edges()),
        count_of(mesh.fixed_faces()),
        count_of(mesh.fixed_inner_faces()),
    ];
    let first = [
        mesh.fixed_faces().next().map(|face| face.index()),
        mesh.fixed_inner_faces().next().map(|face| face.index()),
    ];
    (counts, first)
}

/// How many edges start at a vertex, how many edges its face of the Voronoi diagram has, and the
/// least and the greatest index of a vertex where the former end.
pub fn round<V, DE, UE, F>(
    mesh: &Dcel<V, DE, UE, F>,
    index: u32,
) -> Option<([usize; 2], [Option<u32>; 2])> {
    let Some(vertex) = mesh.get_vertex(vertex(index)) else {
        return None;
    };
    let counts = [
        count_of(vertex.out_edges()),
        count_of(vertex.as_voronoi_face().adjacent_edges()),
    ];
    let ends = range(vertex.out_edges().map(|edge| edge.to().index()));
    Some((counts, ends))
}
