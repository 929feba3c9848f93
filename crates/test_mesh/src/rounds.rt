//! What rounds give from behind, and from both ends in turn.

use crate::lookups::vertex;
use half_edge_dcel::{CircularIterator, Dcel, DirectedEdgeHandle, HullIterator, MeshViews};
use half_edge_mesh::{AsVoronoiFace, DirectedVoronoiEdge, VoronoiCircularIterator};

fn index<V, DE, UE, F>(edge: Option<DirectedEdgeHandle<'_, V, DE, UE, F>>) -> Option<u32> {
    edge.map(|edge| edge.index())
}

fn across<V, DE, UE, F>(edge: Option<DirectedVoronoiEdge<'_, V, DE, UE, F>>) -> Option<u32> {
    edge.map(|edge| edge.as_delaunay_edge().index())
}

// What four calls from behind give of the edges of a vertex.
fn round_from_behind<V, DE, UE, F>(
    mut round: CircularIterator<'_, V, DE, UE, F>,
) -> [Option<u32>; 4] {
    [
        index(round.next_back()),
        index(round.next_back()),
        index(round.next_back()),
        index(round.next_back()),
    ]
}

// Of the hull.
fn hull_from_behind<V, DE, UE, F>(mut hull: HullIterator<'_, V, DE, UE, F>) -> [Option<u32>; 4] {
    [
        index(hull.next_back()),
        index(hull.next_back()),
        index(hull.next_back()),
        index(hull.next_back()),
    ]
}

// Of a face of the Voronoi diagram.
fn sides_from_behind<V, DE, UE, F>(
    mut sides: VoronoiCircularIterator<'_, V, DE, UE, F>,
) -> [Option<u32>; 4] {
    [
        across(sides.next_back()),
        across(sides.next_back()),
        across(sides.next_back()),
        across(sides.next_back()),
    ]
}

/// What four calls from behind give of the edges of a vertex, of the hull, and of the vertex's face
/// of the Voronoi diagram.
pub fn from_behind<V, DE, UE, F>(
    mesh: &Dcel<V, DE, UE, F>,
    name: u32,
) -> Option<[[Option<u32>; 4]; 3]> {
    let Some(vertex) = mesh.get_vertex(vertex(name)) else {
        return None;
    };
    Some([
        round_from_behind(vertex.out_edges()),
        hull_from_behind(mesh.convex_hull()),
        sides_from_behind(vertex.as_voronoi_face().adjacent_edges()),
    ])
}

// What five calls give of the edges of a vertex, the first, third and fifth from the front.
fn round_in_turn<V, DE, UE, F>(mut round: CircularIterator<'_, V, DE, UE, F>) -> [Option<u32>; 5] {
    [
        index(round.next()),
        index(round.next_back()),
        index(round.next()),
        index(round.next_back()),
        index(round.next()),
    ]
}

// Of the hull.
fn hull_in_turn<V, DE, UE, F>(mut hull: HullIterator<'_, V, DE, UE, F>) -> [Option<u32>; 5] {
    [
        index(hull.next()),
        index(hull.next_back()),
        index(hull.next()),
        index(hull.next_back()),
        index(hull.next()),
    ]
}

// Of a face of the Voronoi diagram.
fn sides_in_turn<V, DE, UE, F>(
    mut sides: VoronoiCircularIterator<'_, V, DE, UE, F>,
) -> [Option<u32>; 5] {
    [
        across(sides.next()),
        across(sides.next_back()),
        across(sides.next()),
        across(sides.next_back()),
        across(sides.next()),
    ]
}

/// The same of five calls, the first, third and fifth from the front.
pub fn from_both_ends<V, DE, UE, F>(
    mesh: &Dcel<V, DE, UE, F>,
    name: u32,
) -> Option<[[Option<u32>; 5]; 3]> {
    let Some(vertex) = mesh.get_vertex(vertex(name)) else {
        return None;
    };
    Some([
        round_in_turn(vertex.out_edges()),
        hull_in_turn(mesh.convex_hull()),
        sides_in_turn(vertex.as_voronoi_face().adjacent_edges()),
    ])
}
