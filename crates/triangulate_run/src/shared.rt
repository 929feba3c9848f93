//! Replies that a plain and a constrained triangulation give alike.
ghost use Rattle.std.specs.Prelude.{◌≡◌, ◌<◌, IfOk, MatchOption, nat_lt, if◌then◌else◌};
ghost use Rattle.plane.specs.{IsLocation, IsTiling, Point, whole};
ghost use Rattle.delaunay_legalization.specs.{constraints_by, triangulation_of};
ghost use Rattle.{delaunay_location.specs.location_of, triangulate_run.specs.Stage.position};
ghost use Rattle.delaunay_edit.specs.{HasElement};
ghost use Rattle.triangulate_run.specs.Answer.{AreSoMany, AreVertices, IsThere, ListsFaces};
ghost use Rattle.triangulate_run.specs.Answer.{MayCount, MayInsert, MayList, MayLocate, MayRemove};
ghost use Rattle.triangulate_run.specs.Engine.{HasSites, IsStageReady, stage_by};
ghost use Rattle.triangulate_run.specs.{declared.reply.Reply.TheVariants.Edge, MeshFaces.row_at};

use crate::corners::{Corners, from_least};
use crate::points::{SheetPoint, index_of, site_index_of};
use crate::reply::Reply;
use delaunay_core::math::{InsertionError, PlaneTests, validate_vertex};
use delaunay_core::point::Point2;
use delaunay_interface::Triangulation;
use delaunay_location::PositionInTriangulation;
use half_edge_dcel::FaceHandle;
use half_edge_links::FixedVertexHandle;
use std::alloc::{AllocError, Global};

/// Inserts a point, if it is a site of the list.
pub(crate) fn insert<T: Triangulation<Vertex = Point2<i64>>, P: PlaneTests<i64>>(
    triangulation: &mut T,
    tests: &P,
    points: &[SheetPoint],
    point: Point2<i64>,
) -> Reply
    requires ready { IsStageReady (P.covered tests.now) (P.sites tests.now) points.now
        (stage_by T.Constraints.constraints (T.state triangulation.old)) }
    ensures ready { IsStageReady (P.covered tests.now) (P.sites tests.now) points.now
        (stage_by T.Constraints.constraints (T.state triangulation.new)) }
    ensures reply { MayInsert points.now
        (stage_by T.Constraints.constraints (T.state triangulation.old)) point result
        (stage_by T.Constraints.constraints (T.state triangulation.new)) }
{
    if let Err(error) = validate_vertex(&point) {
        return Reply::Refused(error);
    }
    if site_index_of(points, point).is_none() {
        return Reply::UnknownPoint;
    }
    match triangulation.insert(point, tests) {
        Ok(vertex) => Reply::Vertex(u64::from(vertex.index())),
        Err(error) => Reply::Refused(error),
    }
}

/// Removes a vertex by its index.
pub(crate) fn remove<T: Triangulation<Vertex = Point2<i64>>, P: PlaneTests<i64>>(
    triangulation: &mut T,
    tests: &P,
    index: u64,
) -> Reply
    requires sites { HasSites (P.sites tests.now)
        (stage_by T.Constraints.constraints (T.state triangulation.old)) }
    ensures sites { HasSites (P.sites tests.now)
        (stage_by T.Constraints.constraints (T.state triangulation.new)) }
    ensures reply { MayRemove (stage_by T.Constraints.constraints (T.state triangulation.old))
        index result (stage_by T.Constraints.constraints (T.state triangulation.new)) }
{
    if index >= triangulation.num_vertices() as u64 {
        return Reply::NoVertex;
    }
    let vertex = FixedVertexHandle::from_index(index as u32);
    match triangulation.remove(vertex, tests) {
        Ok(point) => Reply::Removed(point.x, point.y),
        Err(_) => Reply::Refused(InsertionError::OutOfMemory),
    }
}

/// The vertices of two indexes, if both are there.
pub(crate) fn vertices_at<T: Triangulation<Vertex = Point2<i64>>>(
    triangulation: &T,
    from: u64,
    to: u64,
) -> Option<(FixedVertexHandle, FixedVertexHandle)>
    ensures { let s = stage_by T.Constraints.constraints (T.state triangulation.now) in
        MatchOption result (¬ AreVertices s from to)
        (λ p. (p.0 ≡ from) × (p.1 ≡ to) × AreVertices s from to) }
{
    let count = triangulation.num_vertices() as u64;
    if from >= count || to >= count {
        return None;
    }
    Some((
        FixedVertexHandle::from_index(from as u32),
        FixedVertexHandle::from_index(to as u32),
    ))
}

/// Where a point of the list is.
pub(crate) fn locate<T: Triangulation<Vertex = Point2<i64>>, P: PlaneTests<i64>>(
    triangulation: &T,
    tests: &P,
    points: &[SheetPoint],
    point: Point2<i64>,
) -> Reply
    requires ready { IsStageReady (P.covered tests.now) (P.sites tests.now) points.now
        (stage_by T.Constraints.constraints (T.state triangulation.now)) }
    ensures { MayLocate points.now (triangulation_of position (T.state triangulation.now))
        (position point) result }
{
    if index_of(points, point).is_none() {
        return Reply::UnknownPoint;
    }
    let answer = triangulation.locate(point, tests);
    triangulation.recall_invariant();
    location_reply(triangulation, answer)
}

/// How many vertices, edges, inner faces and constraints there are.
pub(crate) fn count_reply<T: Triangulation<Vertex = Point2<i64>>>(
    triangulation: &T,
    constraints: u64,
) -> Reply
    requires { AreSoMany
        (constraints_by T.Constraints.constraints (T.state triangulation.now)) constraints }
    ensures { MayCount (stage_by T.Constraints.constraints (T.state triangulation.now)) result }
{
    triangulation.recall_invariant();
    Reply::Counts(
        triangulation.num_vertices() as u64,
        triangulation.num_undirected_edges() as u64,
        triangulation.num_inner_faces() as u64,
        constraints,
    )
}

/// All faces, or a refusal.
pub(crate) fn faces<T: Triangulation<Vertex = Point2<i64>>>(
    triangulation: &T,
    alloc: Global,
) -> Reply
    ensures { MayList (triangulation_of position (T.state triangulation.now)) result }
{
    match sorted_faces(triangulation, alloc) {
        Ok(faces) => Reply::Faces(faces),
        Err(_) => Reply::Refused(InsertionError::OutOfMemory),
    }
}

/// All faces, sorted.
fn sorted_faces<T: Triangulation<Vertex = Point2<i64>>>(
    triangulation: &T,
    alloc: Global,
) -> Result<Vec<Corners>, AllocError>
    ensures { IfOk result
        (λ list. ListsFaces (triangulation_of position (T.state triangulation.now)) list.items) }
{
    triangulation.recall_invariant();
    let mut faces = Vec::with_capacity(alloc, triangulation.num_inner_faces())?;
    for face in triangulation.inner_faces() {
        faces.push(corner_row(face))?;
    }
    faces.sort()?;
    Ok(faces)
}

/// The corners of an inner face, the least index first.
fn corner_row<DE, UE, F>(face: FaceHandle<'_, Point2<i64>, DE, UE, F>) -> Corners
    requires { 0 < face.index }
    ensures { result ≡ row_at face.entry.dcel.now.mesh face.entry.index }
{
    let [a, b, c] = face.vertices();
    from_least(
        u64::from(a.index()),
        u64::from(b.index()),
        u64::from(c.index()),
    )
}

/// The ends of an edge, the lesser index first.
fn edge_reply(i: u64, j: u64) -> Reply
    ensures { result ≡ (if nat_lt i j then Edge i j else Edge j i) }
{
    if i < j {
        Reply::Edge(i, j)
    } else {
        Reply::Edge(j, i)
    }
}

/// The reply to a query of a point that is there.
fn location_reply<T: Triangulation<Vertex = Point2<i64>>>(
    triangulation: &T,
    answer: PositionInTriangulation,
) -> Reply
    requires handle { HasElement (T.state triangulation.now) answer }
    requires tiling { IsTiling (triangulation_of position (T.state triangulation.now)) }
    ensures { let s = T.state triangulation.now in (p : Point)
        → IsLocation (triangulation_of position s) (whole p) (location_of s.mesh answer)
        → IsThere (triangulation_of position s) p result }
{
    match answer {
        PositionInTriangulation::OnVertex(vertex) => Reply::Vertex(u64::from(vertex.index())),
        PositionInTriangulation::OnEdge(edge) => {
            let edge = triangulation.directed_edge(edge);
            edge_reply(u64::from(edge.from().index()), u64::from(edge.to().index()))
        }
        PositionInTriangulation::OnFace(face) => Reply::Face(corner_row(triangulation.face(face))),
        PositionInTriangulation::OutsideOfConvexHull(_) => Reply::Outside,
        PositionInTriangulation::NoTriangulation => Reply::NoTriangulation,
    }
}
