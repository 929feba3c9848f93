//! Room for a mesh, made and refused, and the links of a mesh without data.

use crate::lookups::Mesh;
use half_edge_dcel::Dcel;
use half_edge_links::{HalfEdge, Links, MAX_ELEMENTS, ReserveError, are_few_enough, is_full};
use std::alloc::{AllocError, Global};

pub fn reserve(mesh: &mut Mesh, vertices: u32, edges: u32, faces: u32) -> Result<(), ReserveError> {
    mesh.reserve_capacity(vertices as usize, edges as usize, faces as usize)
}

/// How many vertices a mesh with so much room has.
pub fn with_capacity(
    alloc: Global,
    vertices: u32,
    edges: u32,
    faces: u32,
) -> Result<usize, ReserveError> {
    let mesh = Mesh::with_capacity(alloc, vertices as usize, edges as usize, faces as usize)?;
    Ok(mesh.num_vertices())
}

/// Whether so many elements are few enough, by the counts alone and by a request for room, which
/// may be refused for memory.
pub fn few_enough(alloc: Global, vertices: u32, edges: u32, faces: u32) -> [bool; 2] {
    [
        are_few_enough(vertices as usize, edges as usize, faces as usize),
        with_capacity(alloc, vertices, edges, faces) != Err(ReserveError::TooMany),
    ]
}

pub fn full(vertices: u32) -> bool {
    is_full(vertices as usize)
}

/// What requests for more than `MAX_ELEMENTS` vertices and faces tell.
pub fn past_the_limit(mesh: &mut Mesh) -> [Result<(), ReserveError>; 2] {
    [
        mesh.reserve_capacity(MAX_ELEMENTS + 1, 0, 1),
        mesh.reserve_capacity(0, 0, MAX_ELEMENTS + 1),
    ]
}

// 256 MB, so that some millions of them fit nowhere.
type Large = [u64; 33554432];

const MILLIONS: usize = 4000000;

/// What a request for room tells, and how many elements there are after it.
type Answer = (Result<(), ReserveError>, usize);

/// 64 KB of data of a face, so that a thousand million of them and more fit nowhere.
#[derive(Clone, Copy)]
struct LargeFace([u64; 8192]);

impl Default for LargeFace {
    fn default() -> Self {
        LargeFace([0; 8192])
    }
}

fn ask<V: Drop, DE: Drop, UE: Drop, F: Default + Drop>(
    alloc: Global,
    [vertices, edges, faces]: [usize; 3],
) -> Answer {
    let mut mesh: Dcel<V, DE, UE, F> = Dcel::new(alloc);
    let answer = mesh.reserve_capacity(vertices, edges, faces);
    let count = mesh
        .num_vertices()
        .saturating_add(mesh.num_directed_edges())
        .saturating_add(mesh.num_inner_faces());
    (answer, count)
}

fn ask_for_mesh(alloc: Global) -> Answer {
    match Dcel::<Large, u16, u32, u64>::with_capacity(alloc, MILLIONS, 0, 1) {
        Ok(mesh) => (Ok(()), mesh.num_vertices()),
        Err(error) => (Err(error), 0),
    }
}

/// What requests for room tell that no memory has.
pub fn large_data(alloc: Global) -> [Answer; 5] {
    [
        ask_for_mesh(alloc),
        ask::<Large, u16, u32, u64>(alloc, [MILLIONS, 0, 1]),
        ask::<u8, Large, u32, u64>(alloc, [0, MILLIONS, 1]),
        ask::<u8, u16, Large, u64>(alloc, [0, MILLIONS, 1]),
        ask::<u8, u16, u32, LargeFace>(alloc, [0, 0, MAX_ELEMENTS]),
    ]
}

/// Two vertices, and edge 0 from the first to the second. Without room for them it is empty.
fn line(alloc: Global) -> Links<u8> {
    let mut links = Links::new(alloc);
    if links.reserve(2, 1, 1) == Ok(()) {
        let a = links.push_vertex(1);
        let b = links.push_vertex(2);
        links.connect(a, b);
    }
    links
}

/// How many vertices, half-edges and inner faces there are.
fn link_counts(links: &Links<u8>) -> [usize; 3] {
    [
        links.vertex_count(),
        links.half_edge_count(),
        links.inner_face_count(),
    ]
}

/// Edge 0, if there is an edge, the edge that vertex 1 names, and the outer edge.
fn first_links(links: &Links<u8>) -> Option<(HalfEdge, Option<u32>, Option<u32>)> {
    if links.half_edge_count() == 0 || links.vertex_count() < 2 {
        return None;
    }
    Some((links.half_edge(0), links.out_edge(1), links.outer_edge()))
}

/// The counts of a line that was cleared, and those of its copy and its links.
type LineAndCopy = (
    [usize; 3],
    [usize; 3],
    Option<(HalfEdge, Option<u32>, Option<u32>)>,
);

pub fn links_of_a_line(alloc: Global) -> Result<LineAndCopy, AllocError> {
    let mut links = line(alloc);
    let copy = links.clone()?;
    links.clear();
    Ok((link_counts(&links), link_counts(&copy), first_links(&copy)))
}
