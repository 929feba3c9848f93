//! All elements of a triangulation, written to lists of C's.
ghost use Rattle.std.specs.Prelude.{◌≡◌, ◌/◌, ◌<◌, length, map};
ghost use Rattle.half_edge_links.specs.{face_edge};
ghost use Rattle.delaunay_legalization.specs.{constraints_by, state_of, triangulation_of};
ghost use Rattle.c_calls.specs.Links.{IsMarkOf, IsRawEdge, IsRawFace, IsRawSide};
ghost use Rattle.c_calls.specs.Queries.{face_number, IsEdgeEntry, IsElementAt, IsFaceEntry};
ghost use Rattle.c_calls.specs.Queries.{ListsRawFaces, number_of, raw_position};

use crate::raw::NumberedPoint;
use crate::statuses::{NONE, TOO_SHORT, WELL};
use crate::{Query, RawCounts, RawEdge, RawFace, RawPoint};
use delaunay_interface::Triangulation;
use delaunay_legalization::ConstraintMarker;
use half_edge_dcel::{DirectedEdgeHandle, FaceHandle};
use half_edge_links::{FixedFaceHandle, FixedUndirectedEdgeHandle, FixedVertexHandle};
use std::alloc::Global;

// 1 where an edge is a constraint, and else 0.
fn mark_of<M: ConstraintMarker<UE>, V, DE, UE, F>(edge: DirectedEdgeHandle<'_, V, DE, UE, F>) -> u32
    ensures { IsMarkOf (M.constraints edge.entry.dcel.now.undirected) (edge.entry.index / 2)
        result }
{
    if M::is_constraint_edge(edge.as_undirected().data()) {
        1
    } else {
        0
    }
}

/// The index that C has of a face, which counts the inner ones alone.
pub fn face_index(face: FixedFaceHandle) -> u32
    ensures { result ≡ face_number face }
{
    let index = face.index();
    if index == 0 { NONE } else { index - 1 }
}

// A side of a face: where it starts, the face on its right and whether it is a constraint.
#[derive(Clone, Copy)]
struct Side {
    from: u32,
    beyond: u32,
    constrained: u32,
}

// The side along an edge.
fn raw_side<M: ConstraintMarker<UE>, V, DE, UE, F>(
    edge: DirectedEdgeHandle<'_, V, DE, UE, F>,
) -> Side
    ensures { IsRawSide M.constraints (state_of edge.entry.dcel.now) edge.entry.index result.from
        result.beyond result.constrained }
{
    Side {
        from: edge.from().fix().index(),
        beyond: face_index(edge.rev().face().fix()),
        constrained: mark_of::<M, _, _, _, _>(edge),
    }
}

// A face, for C.
fn raw_face<M: ConstraintMarker<UE>, V, DE, UE, F>(face: FaceHandle<'_, V, DE, UE, F>) -> RawFace
    requires { 0 < face.index }
    ensures { IsRawFace M.constraints (state_of face.entry.dcel.now)
        (face_edge face.entry.dcel.now.mesh face.entry.index) result }
{
    let edge = face.adjacent_edge();
    let first = raw_side::<M, _, _, _, _>(edge);
    let second = raw_side::<M, _, _, _, _>(edge.next());
    let third = raw_side::<M, _, _, _, _>(edge.prev());
    RawFace {
        corner_0: first.from,
        corner_1: second.from,
        corner_2: third.from,
        neighbor_0: second.beyond,
        neighbor_1: third.beyond,
        neighbor_2: first.beyond,
        constrained_0: second.constrained,
        constrained_1: third.constrained,
        constrained_2: first.constrained,
    }
}

// The face with this index, for C.
fn face_at<T: Triangulation>(points: &T, index: u32) -> RawFace
    requires { index < length (T.state points.now).faces }
    ensures { IsFaceEntry (triangulation_of T.Vertex.place (T.state points.now))
        (constraints_by T.Constraints.constraints (T.state points.now)) index result }
{
    points.recall_invariant();
    raw_face::<T::Constraints, _, _, _, _>(points.face(FixedFaceHandle::from_index(index + 1)))
}

/// Writes the faces, if there is room.
pub fn write_faces<T: Triangulation>(points: &T, faces: &mut [RawFace], length: &mut usize) -> u32
    ensures { ListsRawFaces (triangulation_of T.Vertex.place (T.state points.now))
        (constraints_by T.Constraints.constraints (T.state points.now)) result length.new faces.old
        faces.new }
{
    let count = points.num_inner_faces();
    *length = count;
    if faces.len() < count {
        return TOO_SHORT;
    }
    for index in 0..count {
        faces[index] = face_at(points, index as u32);
    }
    WELL
}

/// Each face.
pub struct ListFaces;

impl Query for ListFaces {
    ghost use Rattle.c_calls.specs.Queries.{ListsRawFaces};

    type Item = RawFace;

    type Told = usize;

    ghost tells = { λ _ v status _ told old new. ListsRawFaces v.drawing v.constraints status told
        old new };

    fn ask<T: Triangulation<Vertex = NumberedPoint>>(
        &self,
        points: &T,
        _alloc: Global,
        faces: &mut [RawFace],
        length: &mut usize,
    ) -> u32 {
        write_faces(points, faces, length)
    }
}

/// An edge, for C.
pub fn raw_edge<M: ConstraintMarker<UE>, V, DE, UE, F>(
    edge: DirectedEdgeHandle<'_, V, DE, UE, F>,
) -> RawEdge
    ensures { IsRawEdge M.constraints (state_of edge.entry.dcel.now) edge.entry.index result.from
        result.to result.constrained }
{
    RawEdge {
        from: edge.from().fix().index(),
        to: edge.to().fix().index(),
        constrained: mark_of::<M, _, _, _, _>(edge),
    }
}

// The edge with this index, for C.
fn edge_at<T: Triangulation>(points: &T, index: u32) -> RawEdge
    requires { index < length (T.state points.now).undirected }
    ensures { IsEdgeEntry (triangulation_of T.Vertex.place (T.state points.now))
        (constraints_by T.Constraints.constraints (T.state points.now)) index result }
{
    points.recall_invariant();
    let edge = points.undirected_edge(FixedUndirectedEdgeHandle::from_index(index));
    raw_edge::<T::Constraints, _, _, _, _>(edge.as_directed())
}

/// Each edge.
pub struct ListEdges;

impl Query for ListEdges {
    ghost use Rattle.c_calls.specs.Queries.{ListsRawEdges};

    type Item = RawEdge;

    type Told = usize;

    ghost tells = { λ _ v status _ told old new. ListsRawEdges v.drawing v.constraints status told
        old new };

    fn ask<T: Triangulation<Vertex = NumberedPoint>>(
        &self,
        points: &T,
        _alloc: Global,
        edges: &mut [RawEdge],
        length: &mut usize,
    ) -> u32 {
        let count = points.num_undirected_edges();
        *length = count;
        if edges.len() < count {
            return TOO_SHORT;
        }
        for index in 0..count {
            edges[index] = edge_at(points, index as u32);
        }
        WELL
    }
}

// The position of a vertex, for C.
fn position_at<T: Triangulation<Vertex = NumberedPoint>>(points: &T, vertex: u32) -> RawPoint
    requires { vertex < length (T.state points.now).vertices }
    ensures { IsElementAt (map raw_position (T.state points.now).vertices) vertex result }
{
    let position = points
        .vertex(FixedVertexHandle::from_index(vertex))
        .data()
        .position;
    RawPoint {
        x: position.x,
        y: position.y,
    }
}

/// The position of each vertex.
pub struct ListPositions;

impl Query for ListPositions {
    ghost use Rattle.c_calls.specs.Queries.{ListsPositions};

    type Item = RawPoint;

    type Told = usize;

    ghost tells = { λ _ v status _ told old new. ListsPositions v.vertices status told old new };

    fn ask<T: Triangulation<Vertex = NumberedPoint>>(
        &self,
        points: &T,
        _alloc: Global,
        positions: &mut [RawPoint],
        length: &mut usize,
    ) -> u32 {
        let count = points.num_vertices();
        *length = count;
        if positions.len() < count {
            return TOO_SHORT;
        }
        for index in 0..count {
            positions[index] = position_at(points, index as u32);
        }
        WELL
    }
}

// The number of a vertex.
fn number_at<T: Triangulation<Vertex = NumberedPoint>>(points: &T, vertex: u32) -> u64
    requires { vertex < length (T.state points.now).vertices }
    ensures { IsElementAt (map number_of (T.state points.now).vertices) vertex result }
{
    points
        .vertex(FixedVertexHandle::from_index(vertex))
        .data()
        .number
}

/// The number of each vertex.
pub struct ListNumbers;

impl Query for ListNumbers {
    ghost use Rattle.c_calls.specs.Queries.{ListsNumbers};

    type Item = u64;

    type Told = usize;

    ghost tells = { λ _ v status _ told old new. ListsNumbers v.vertices status told old new };

    fn ask<T: Triangulation<Vertex = NumberedPoint>>(
        &self,
        points: &T,
        _alloc: Global,
        numbers: &mut [u64],
        length: &mut usize,
    ) -> u32 {
        let count = points.num_vertices();
        *length = count;
        if numbers.len() < count {
            return TOO_SHORT;
        }
        for index in 0..count {
            numbers[index] = number_at(points, index as u32);
        }
        WELL
    }
}

/// How many elements there are.
pub fn counts_of<T: Triangulation>(points: &T, constraints: usize) -> RawCounts
    ensures vertices { result.vertices ≡ length (T.state points.now).vertices }
    ensures edges { result.edges ≡ length
        (triangulation_of T.Vertex.place (T.state points.now)).edges }
    ensures faces { result.faces ≡ length
        (triangulation_of T.Vertex.place (T.state points.now)).faces }
    ensures constraints { result.constraints ≡ constraints }
{
    RawCounts {
        vertices: points.num_vertices() as u64,
        edges: points.num_undirected_edges() as u64,
        faces: points.num_inner_faces() as u64,
        constraints: constraints as u64,
    }
}
