//! The calls that open, close and read a triangulation, and those without one that C keeps.
ghost use Rattle.std.specs.Prelude.{◌≡◌, None};
ghost use Rattle.c_calls.specs.Calls.{CopiesOpen, OpensClosed, TellsBeyond, TellsCounts};
ghost use Rattle.c_calls.specs.Calls.{TellsCrossed, TellsEdges, TellsEdgesIn, TellsFaces};
ghost use Rattle.c_calls.specs.Calls.{TellsInSight, TellsLabels, TellsLayers, TellsLine};
ghost use Rattle.c_calls.specs.Calls.{TellsLocations, TellsNearest, TellsNumbers, TellsPositions};
ghost use Rattle.c_calls.specs.Calls.{TellsVerticesIn, TellsWay, TellsWide};
ghost use Rattle.{c_calls.specs.Words.TellsWords, tevasulim_c.specs.Whole.Triangulates};

use crate::whole::triangulate;
use c_calls::{
    Edges, FindWay, Handle, InShape, ListBeyond, ListConflicts, ListEdges, ListFaces, ListLabels,
    ListLayers, ListNumbers, ListPositions, ListWide, Locate, LookAlong, RawBox, RawCounts,
    RawEdge, RawFace, RawLocation, RawMeeting, RawPoint, RawSegment, RawShape, Vertices, WalkLine,
};
use std::alloc::Global;

/// The version of the library.
pub const VERSION: u32 = 100;

#[unsafe(no_mangle)]
pub extern "C" fn tevasulim_version() -> u32 {
    VERSION
}

#[unsafe(no_mangle)]
pub extern "C" fn tevasulim_status_text(status: u32, text: &mut [u8], length: &mut usize) -> u32
    ensures { TellsWords status result length.new text.old text.new }
{
    c_calls::write_words(status, text, length)
}

#[unsafe(no_mangle)]
pub extern "C" fn tevasulim_open(alloc: Global, handle: &mut Handle, kind: u32) -> u32
    ensures { OpensClosed kind result handle.old.kept handle.new.kept }
{
    handle.open(alloc, kind)
}

// `tevasulim_close` of c/calls.c is this for any pointer but NULL.
#[unsafe(no_mangle)]
pub extern "C" fn tevasulim_close_handle(alloc: Global, handle: &mut Handle)
    ensures { handle.new.kept ≡ None }
{
    handle.close(alloc)
}

#[unsafe(no_mangle)]
pub extern "C" fn tevasulim_copy(alloc: Global, handle: &mut Handle, copy: &mut Handle) -> u32
    ensures kept { handle.new.kept ≡ handle.old.kept }
    ensures copy { CopiesOpen handle.old.kept result copy.old.kept copy.new.kept }
{
    handle.copy(alloc, copy)
}

#[unsafe(no_mangle)]
pub extern "C" fn tevasulim_count(alloc: Global, handle: &mut Handle, counts: &mut RawCounts) -> u32
    ensures kept { handle.new.kept ≡ handle.old.kept }
    ensures counts { TellsCounts handle.old.kept result counts.new }
{
    handle.count(alloc, counts)
}

#[unsafe(no_mangle)]
pub extern "C" fn tevasulim_positions(
    alloc: Global,
    handle: &mut Handle,
    positions: &mut [RawPoint],
    length: &mut usize,
) -> u32
    ensures kept { handle.new.kept ≡ handle.old.kept }
    ensures positions { TellsPositions handle.old.kept result length.old length.new positions.old
        positions.new }
{
    handle.ask(alloc, &ListPositions, positions, length)
}

#[unsafe(no_mangle)]
pub extern "C" fn tevasulim_numbers(
    alloc: Global,
    handle: &mut Handle,
    numbers: &mut [u64],
    length: &mut usize,
) -> u32
    ensures kept { handle.new.kept ≡ handle.old.kept }
    ensures numbers { TellsNumbers handle.old.kept result length.old length.new numbers.old
        numbers.new }
{
    handle.ask(alloc, &ListNumbers, numbers, length)
}

#[unsafe(no_mangle)]
pub extern "C" fn tevasulim_edges(
    alloc: Global,
    handle: &mut Handle,
    edges: &mut [RawEdge],
    length: &mut usize,
) -> u32
    ensures kept { handle.new.kept ≡ handle.old.kept }
    ensures edges { TellsEdges handle.old.kept result length.old length.new edges.old edges.new }
{
    handle.ask(alloc, &ListEdges, edges, length)
}

#[unsafe(no_mangle)]
pub extern "C" fn tevasulim_faces(
    alloc: Global,
    handle: &mut Handle,
    faces: &mut [RawFace],
    length: &mut usize,
) -> u32
    ensures kept { handle.new.kept ≡ handle.old.kept }
    ensures faces { TellsFaces handle.old.kept result length.old length.new faces.old faces.new }
{
    handle.ask(alloc, &ListFaces, faces, length)
}

#[unsafe(no_mangle)]
pub extern "C" fn tevasulim_face_layers(
    alloc: Global,
    handle: &mut Handle,
    layers: &mut [u32],
    length: &mut usize,
) -> u32
    ensures kept { handle.new.kept ≡ handle.old.kept }
    ensures layers { TellsLayers handle.old.kept result length.old length.new layers.old
        layers.new }
{
    handle.ask(alloc, &ListLayers, layers, length)
}

#[unsafe(no_mangle)]
pub extern "C" fn tevasulim_faces_beyond(
    alloc: Global,
    handle: &mut Handle,
    within: &RawBox,
    flags: &mut [u8],
    length: &mut usize,
) -> u32
    ensures kept { handle.new.kept ≡ handle.old.kept }
    ensures flags { TellsBeyond handle.old.kept within.now result length.old length.new flags.old
        flags.new }
{
    handle.ask(alloc, &ListBeyond { within: *within }, flags, length)
}

#[unsafe(no_mangle)]
pub extern "C" fn tevasulim_locate(
    alloc: Global,
    handle: &mut Handle,
    queries: &[RawPoint],
    locations: &mut [RawLocation],
) -> u32
    ensures kept { handle.new.kept ≡ handle.old.kept }
    ensures locations { TellsLocations handle.old.kept queries.now result locations.old
        locations.new }
{
    handle.ask(alloc, &Locate { queries }, locations, &mut ())
}

#[unsafe(no_mangle)]
pub extern "C" fn tevasulim_nearest(
    alloc: Global,
    handle: &mut Handle,
    queries: &[RawPoint],
    vertices: &mut [u32],
) -> u32
    ensures kept { handle.new.kept ≡ handle.old.kept }
    ensures vertices { TellsNearest handle.old.kept queries.now result vertices.old vertices.new }
{
    handle.nearest(alloc, queries, vertices)
}

#[unsafe(no_mangle)]
pub extern "C" fn tevasulim_line(
    alloc: Global,
    handle: &mut Handle,
    from: &RawPoint,
    to: &RawPoint,
    meetings: &mut [RawMeeting],
    length: &mut usize,
) -> u32
    ensures kept { handle.new.kept ≡ handle.old.kept }
    ensures meetings { TellsLine handle.old.kept from.now to.now result length.old length.new
        meetings.old meetings.new }
{
    let line = WalkLine {
        from: *from,
        to: *to,
    };
    handle.ask(alloc, &line, meetings, length)
}

#[unsafe(no_mangle)]
pub extern "C" fn tevasulim_conflicts(
    alloc: Global,
    handle: &mut Handle,
    from: &RawPoint,
    to: &RawPoint,
    conflicts: &mut [RawSegment],
    length: &mut usize,
) -> u32
    ensures kept { handle.new.kept ≡ handle.old.kept }
    ensures conflicts { TellsCrossed handle.old.kept from.now to.now result length.old length.new
        conflicts.old conflicts.new }
{
    let line = ListConflicts {
        from: *from,
        to: *to,
    };
    handle.ask(alloc, &line, conflicts, length)
}

#[unsafe(no_mangle)]
pub extern "C" fn tevasulim_in_sight(
    alloc: Global,
    handle: &mut Handle,
    from: &RawPoint,
    to: &RawPoint,
    bytes: &[u8],
    seen: &mut u32,
) -> u32
    ensures kept { handle.new.kept ≡ handle.old.kept }
    ensures seen { TellsInSight handle.old.kept from.now to.now bytes.now result seen.new }
{
    let line = LookAlong {
        from: *from,
        to: *to,
        bytes,
    };
    handle.ask(alloc, &line, &mut [], seen)
}

#[unsafe(no_mangle)]
pub extern "C" fn tevasulim_way(
    alloc: Global,
    handle: &mut Handle,
    from: &RawPoint,
    to: &RawPoint,
    bytes: &[u8],
    points: &mut [RawPoint],
    length: &mut usize,
) -> u32
    ensures kept { handle.new.kept ≡ handle.old.kept }
    ensures way { TellsWay handle.old.kept from.now to.now bytes.now result length.old length.new
        points.old points.new }
{
    let query = FindWay {
        from: *from,
        to: *to,
        bytes,
    };
    handle.ask(alloc, &query, points, length)
}

#[unsafe(no_mangle)]
pub extern "C" fn tevasulim_reachable(
    alloc: Global,
    handle: &mut Handle,
    bytes: &[u8],
    labels: &mut [u32],
    length: &mut usize,
) -> u32
    ensures kept { handle.new.kept ≡ handle.old.kept }
    ensures labels { TellsLabels handle.old.kept bytes.now result length.old length.new labels.old
        labels.new }
{
    handle.ask(alloc, &ListLabels { bytes }, labels, length)
}

#[unsafe(no_mangle)]
pub extern "C" fn tevasulim_wide_faces(
    alloc: Global,
    handle: &mut Handle,
    bytes: &[u8],
    width_2: i64,
    flags: &mut [u8],
    length: &mut usize,
) -> u32
    ensures kept { handle.new.kept ≡ handle.old.kept }
    ensures flags { TellsWide handle.old.kept bytes.now width_2 result length.old length.new
        flags.old flags.new }
{
    handle.ask(alloc, &ListWide { bytes, width_2 }, flags, length)
}

#[unsafe(no_mangle)]
pub extern "C" fn tevasulim_vertices_in(
    alloc: Global,
    handle: &mut Handle,
    shape: &RawShape,
    vertices: &mut [u32],
    length: &mut usize,
) -> u32
    ensures kept { handle.new.kept ≡ handle.old.kept }
    ensures vertices { TellsVerticesIn handle.old.kept shape.now result length.old length.new
        vertices.old vertices.new }
{
    let query = InShape {
        part: Vertices,
        shape: *shape,
    };
    handle.ask(alloc, &query, vertices, length)
}

#[unsafe(no_mangle)]
pub extern "C" fn tevasulim_edges_in(
    alloc: Global,
    handle: &mut Handle,
    shape: &RawShape,
    edges: &mut [u32],
    length: &mut usize,
) -> u32
    ensures kept { handle.new.kept ≡ handle.old.kept }
    ensures edges { TellsEdgesIn handle.old.kept shape.now result length.old length.new edges.old
        edges.new }
{
    let query = InShape {
        part: Edges,
        shape: *shape,
    };
    handle.ask(alloc, &query, edges, length)
}

#[unsafe(no_mangle)]
pub extern "C" fn tevasulim_triangulate(
    alloc: Global,
    points: &[RawPoint],
    segments: &[RawSegment],
    faces: &mut [RawFace],
    length: &mut usize,
    at: &mut usize,
) -> u32
    ensures { Triangulates points.now segments.now result at.new length.old length.new faces.old
        faces.new }
{
    triangulate(points, segments, faces, length, at, alloc)
}
