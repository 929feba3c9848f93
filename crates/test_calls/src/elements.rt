//! All vertices, edges and faces, each with its links and its data.
ghost use Rattle.std.specs.Prelude.{◌<◌};

use crate::vertices::TaggedVertex;
use delaunay_interface::Triangulation;
use delaunay_legalization::CdtEdge;
use half_edge_dcel::{DirectedEdgeHandle, FaceHandle, VertexHandle};
use std::io;

/// What is printed of the data of an edge: its number, and whether it is a constraint.
pub trait Shown {
    fn shown(&self) -> (u32, bool);
}

impl Shown for u32 {
    fn shown(&self) -> (u32, bool) {
        (*self, false)
    }
}

impl Shown for CdtEdge<u32> {
    fn shown(&self) -> (u32, bool) {
        (*self.data(), self.is_constraint_edge())
    }
}

fn out_edge_of<V, DE, UE, F>(vertex: &VertexHandle<'_, V, DE, UE, F>) -> Option<u32> {
    match vertex.out_edge() {
        Some(edge) => Some(edge.index()),
        None => None,
    }
}

fn print_vertex<DE, UE, F>(
    rt: &impl Print,
    vertex: &VertexHandle<'_, TaggedVertex, DE, UE, F>,
) -> io::Result<()> {
    let TaggedVertex { position, tag } = *vertex.data();
    let (x, y) = (position.x, position.y);
    let out_edge = out_edge_of(vertex);
    println!(rt; "vertex {} ({x}, {y}) {tag} {out_edge:?}", vertex.index())
}

fn print_edge<V, UE: Shown, F>(
    rt: &impl Print,
    edge: &DirectedEdgeHandle<'_, V, u32, UE, F>,
) -> io::Result<()> {
    let ends = (edge.from().index(), edge.to().index());
    let links = [
        edge.next().index(),
        edge.prev().index(),
        edge.face().index(),
    ];
    let (number, is_constraint) = edge.as_undirected().data().shown();
    println!(rt;
        "edge {} {ends:?} {links:?} {} {number} {is_constraint}",
        edge.index(),
        *edge.data()
    )
}

fn print_face<V, DE, UE>(rt: &impl Print, face: &FaceHandle<'_, V, DE, UE, u32>) -> io::Result<()>
    requires { 0 < face.now.index }
{
    let [a, b, c] = face.vertices();
    let corners = [a.index(), b.index(), c.index()];
    println!(rt; "face {} {corners:?} {}", face.index(), *face.data())
}

fn print_vertices<T: Triangulation<Vertex = TaggedVertex>>(
    rt: &impl Print,
    points: &T,
) -> io::Result<()> {
    for vertex in points.vertices() {
        print_vertex(rt, &vertex)?;
    }
    Ok(())
}

fn print_edges<UE: Shown, T: Triangulation<DirectedEdge = u32, UndirectedEdge = UE>>(
    rt: &impl Print,
    points: &T,
) -> io::Result<()> {
    for edge in points.directed_edges() {
        print_edge(rt, &edge)?;
    }
    Ok(())
}

fn print_faces<T: Triangulation<Face = u32>>(rt: &impl Print, points: &T) -> io::Result<()> {
    println!(rt; "outer face {}", *points.outer_face().data())?;
    for face in points.inner_faces() {
        print_face(rt, &face)?;
    }
    Ok(())
}

/// Prints all vertices, edges and faces.
pub fn print_state<
    UE: Shown,
    T: Triangulation<Vertex = TaggedVertex, DirectedEdge = u32, UndirectedEdge = UE, Face = u32>,
>(rt: &impl Print, points: &T) -> io::Result<()> {
    print_vertices(rt, points)?;
    print_edges(rt, points)?;
    print_faces(rt, points)
}
