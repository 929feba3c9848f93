//! What the way from one point to another meets.
use crate::building::point_index;
use crate::kept::KeptFaces;
use anyhow::{Context, bail};
use delaunay_core::math::validate_vertex;
use delaunay_core::point::Point2;
use delaunay_interface::Triangulation;
use delaunay_location::{Intersection, LineIntersectionIterator};
use exact_predicates::ExactTests;
use half_edge_dcel::DirectedEdgeHandle;
use half_edge_links::FixedVertexHandle;
use mesh_files::Asked;
use mesh_io::Scene;
use std::alloc::{AllocError, Global};
use std::io;
use std::io::{BufWriter, Write};

/// The number of the point of a vertex, from 1.
fn vertex_number(indexes: &[u32], vertex: FixedVertexHandle) -> u64 {
    u64::from(point_index(indexes, vertex.index())).saturating_add(1)
}

/// Puts an edge behind a line, by the numbers of its ends.
fn push_edge<V, DE, UE, F>(
    line: &mut String,
    kind: &str,
    indexes: &[u32],
    edge: DirectedEdgeHandle<'_, V, DE, UE, F>,
) -> Result<(), AllocError> {
    let [from, to] = edge.vertices();
    let (from, to) = (
        vertex_number(indexes, from.fix()),
        vertex_number(indexes, to.fix()),
    );
    writeln!(line, "{kind},{from},{to}")
}

/// Puts a vertex behind a line, by its number.
fn push_vertex(line: &mut String, number: u64) -> Result<(), AllocError> {
    writeln!(line, "point,{number},")
}

/// Puts what a way meets behind a line: a vertex, or an edge that it crosses or runs along.
fn push_met<V, DE, UE, F>(
    line: &mut String,
    indexes: &[u32],
    met: &Intersection<'_, V, DE, UE, F>,
) -> Result<(), AllocError> {
    match met {
        Intersection::VertexIntersection(vertex) => {
            push_vertex(line, vertex_number(indexes, vertex.fix()))
        }
        Intersection::EdgeIntersection(edge) => push_edge(line, "crosses", indexes, *edge),
        Intersection::EdgeOverlap(edge) => push_edge(line, "along", indexes, *edge),
    }
}

/// Whether what a way meets is at a face that is kept.
fn is_kept<V, DE, UE, F>(
    kept: &KeptFaces<'_>,
    met: &Intersection<'_, V, DE, UE, F>,
    numbers: &mut Vec<u32>,
) -> Result<bool, AllocError> {
    numbers.clear();
    match met {
        Intersection::VertexIntersection(vertex) => kept.add_round(*vertex, numbers),
        Intersection::EdgeIntersection(edge) | Intersection::EdgeOverlap(edge) => {
            kept.add_beside(*edge, numbers)
        }
    }
}

/// Writes what the way between two points in range meets at faces that are kept.
fn write_way<W: Write, T: Triangulation<Vertex = Point2<i32>>>(
    writer: &mut W,
    triangulation: &T,
    kept: &KeptFaces<'_>,
    from: Point2<i32>,
    to: Point2<i32>,
    alloc: Global,
) -> io::Result<()> {
    triangulation.recall_invariant();
    if validate_vertex(&from).is_err() || validate_vertex(&to).is_err() {
        return Ok(());
    }
    writer.write_all(b"meets,a,b\n")?;
    let mut line = String::new(alloc);
    let mut numbers = Vec::new(alloc);
    for met in LineIntersectionIterator::new(triangulation, from, to, &ExactTests) {
        line.clear();
        if is_kept(kept, &met, &mut numbers)? {
            push_met(&mut line, kept.drawn.indexes, &met)?;
            writer.write_all(line.as_bytes())?;
        }
    }
    writer.flush()
}

/// Tells what the way between the two points that are asked about meets, in order, at faces that
/// are kept.
pub fn tell_way<T: Triangulation<Vertex = Point2<i32>>>(
    rt: &HostRuntime,
    scene: &Scene,
    triangulation: &T,
    kept: &KeptFaces<'_>,
) -> anyhow::Result<()> {
    let [Asked::Near(from), Asked::Near(to)] = scene.asked_points.as_slice() else {
        bail!(
            "--line: an end is more than 2^29 units from the middle of the input: move it nearer"
        );
    };
    let mut writer = BufWriter::new(rt.alloc(), io::writer(rt))?;
    write_way(&mut writer, triangulation, kept, *from, *to, rt.alloc()).context("standard output")
}
