//! What names and handles of the parts of a mesh derive: copies, equality, order, hashes and
//! printed forms.

use crate::lookups::{directed, edge_at, vertex};
use half_edge_dcel::{Dcel, DirectedEdgeHandle, IsolateVertexResult};
use half_edge_links::{FixedFaceHandle, HalfEdge, ReserveError};
use half_edge_mesh::{AsVoronoiEdge, AsVoronoiFace, DirectedVoronoiEdge};
use std::cmp::Ordering;
use std::fmt::Debug;
use std::hash::Hash;
use std::io;
use test_reader::hash_of;

/// Whether a value equals its copy, hashes as that does, equals another, and hashes as that does;
/// and the order of both.
type Comparison = Option<([bool; 4], Option<Ordering>, Ordering)>;

type Both<'a, V, DE, UE, F> = (
    DirectedEdgeHandle<'a, V, DE, UE, F>,
    DirectedEdgeHandle<'a, V, DE, UE, F>,
);

fn compare<T: Clone + Ord + Hash + Drop>(value: &T, other: &T) -> Comparison {
    let Ok(copy) = value.clone() else {
        return None;
    };
    let equal = [
        copy == *value,
        hash_of(&copy) == hash_of(value),
        *value == *other,
        hash_of(other) == hash_of(value),
    ];
    Some((equal, value.partial_cmp(other), value.cmp(other)))
}

/// Of the names of vertices, directed edges, undirected edges and faces with these indexes.
pub fn compare_names(a: u32, b: u32) -> [Comparison; 4] {
    let (first, second) = (directed(a), directed(b));
    [
        compare(&vertex(a), &vertex(b)),
        compare(&first, &second),
        compare(&first.as_undirected(), &second.as_undirected()),
        compare(
            &FixedFaceHandle::from_index(a),
            &FixedFaceHandle::from_index(b),
        ),
    ]
}

fn compare_parts<V, DE, UE, F>(
    first: &DirectedEdgeHandle<'_, V, DE, UE, F>,
    second: &DirectedEdgeHandle<'_, V, DE, UE, F>,
) -> [Comparison; 4] {
    [
        compare(first, second),
        compare(&first.as_undirected(), &second.as_undirected()),
        compare(&first.from(), &second.from()),
        compare(&first.face(), &second.face()),
    ]
}

// Two edges, if both are there.
fn edges_at<V, DE, UE, F>(
    mesh: &Dcel<V, DE, UE, F>,
    (a, b): (u32, u32),
) -> Option<Both<'_, V, DE, UE, F>> {
    match (edge_at(mesh, a), edge_at(mesh, b)) {
        (Some(first), Some(second)) => Some((first, second)),
        _ => None,
    }
}

/// Of two edges, and of their undirected edges, starts and left faces.
pub fn compare_edges<V, DE, UE, F>(
    mesh: &Dcel<V, DE, UE, F>,
    a: u32,
    b: u32,
) -> Option<[Comparison; 4]> {
    match edges_at(mesh, (a, b)) {
        Some((first, second)) => Some(compare_parts(&first, &second)),
        None => None,
    }
}

fn compare_forms<V, DE, UE, F>(
    first: &DirectedVoronoiEdge<'_, V, DE, UE, F>,
    second: &DirectedVoronoiEdge<'_, V, DE, UE, F>,
) -> [Comparison; 4] {
    [
        compare(first, second),
        compare(&first.as_undirected(), &second.as_undirected()),
        compare(&first.face(), &second.face()),
        compare(&first.from(), &second.from()),
    ]
}

/// The same of their Voronoi forms, and of the vertices that these start at.
pub fn compare_voronoi<V, DE, UE, F>(
    mesh: &Dcel<V, DE, UE, F>,
    a: u32,
    b: u32,
) -> Option<[Comparison; 4]> {
    match edges_at(mesh, (a, b)) {
        Some((first, second)) => {
            Some(compare_forms(&first.as_voronoi_edge(), &second.as_voronoi_edge()))
        }
        None => None,
    }
}

fn print_part<T: Debug, N: Debug>(rt: &impl Print, part: &T, name: &N) -> io::Result<()> {
    println!(rt; "{part:?} {name:?}")
}

fn print_handles<V, DE, UE, F>(
    rt: &impl Print,
    edge: &DirectedEdgeHandle<'_, V, DE, UE, F>,
) -> io::Result<()> {
    print_part(rt, edge, &edge.fix())?;
    let undirected = edge.as_undirected();
    print_part(rt, &undirected, &undirected.fix())?;
    let start = edge.from();
    print_part(rt, &start, &start.fix())?;
    let face = edge.face();
    print_part(rt, &face, &face.fix())
}

fn print_form<T: Debug>(rt: &impl Print, form: &T) -> io::Result<()> {
    println!(rt; "{form:?}")
}

fn print_voronoi_forms<V, DE, UE, F>(
    rt: &impl Print,
    across: &DirectedVoronoiEdge<'_, V, DE, UE, F>,
) -> io::Result<()> {
    print_form(rt, &across.as_undirected())?;
    print_form(rt, &across.face())?;
    print_form(rt, &across.to())
}

/// Prints an edge with its parts and its Voronoi forms, if it is there, and records that no other
/// call prints.
pub fn print_edge<V, DE, UE, F>(
    rt: &impl Print,
    mesh: &Dcel<V, DE, UE, F>,
    index: u32,
) -> io::Result<()> {
    if let Some(edge) = edge_at(mesh, index) {
        print_handles(rt, &edge)?;
        print_voronoi_forms(rt, &edge.as_voronoi_edge())?;
    }
    print_records(rt)
}

fn print_records(rt: &impl Print) -> io::Result<()> {
    let links = HalfEdge {
        origin: 1,
        next: 2,
        prev: 3,
        face: 4,
    };
    let lost = IsolateVertexResult { vertex: vertex(5) };
    println!(rt; "{links:?} {:?} {lost:?}", ReserveError::TooMany)
}
