//! Which polygons of a drawing each face is in, by the even-odd rule; or which regions, where it
//! has none but regions.
use crate::building::point_index;
use crate::paths::{Turn, path_between};
use crate::splitting::point_vertices;
use crate::ways::corner_indexes;
use delaunay_core::math::validate_vertex;
use delaunay_core::point::Point2;
use delaunay_interface::Triangulation;
use delaunay_legalization::ConstraintMarker;
use delaunay_location::PositionInTriangulation;
use drawing_faces::{Borders, PolygonsOfFaces, polygons_of_faces};
use exact_predicates::ExactTests;
use half_edge_dcel::DirectedEdgeHandle;
use half_edge_links::{FixedUndirectedEdgeHandle, FixedVertexHandle};
use mesh_files::{Asked, Drawing, FacePolygons, Records, Ring};
use mesh_io::Scene;
use std::alloc::{AllocError, Global};

/// No face.
pub const NO_FACE: u32 = u32::MAX;

/// A side of a face: its ends with the lesser first, the face, and which of its sides it is.
#[derive(Clone, Copy, PartialEq, Eq, PartialOrd, Ord)]
struct FaceSide {
    low: u32,
    high: u32,
    face: u32,
    side: u8,
}

impl FaceSide {
    fn new(from: u32, to: u32, face: u32, side: u8) -> Self {
        FaceSide {
            low: from.min(to),
            high: from.max(to),
            face,
            side,
        }
    }

    /// Where the side stands in a list of three entries for each face.
    fn entry(&self) -> usize {
        (self.face as usize)
            .saturating_mul(3)
            .saturating_add(usize::from(self.side))
    }

    /// Whether two sides have the same ends.
    fn is_beside(&self, other: &FaceSide) -> bool {
        self.low == other.low && self.high == other.high
    }
}

/// Faces by the indexes of their corners, and what is next to them.
#[derive(Drop)]
struct FaceMap<'a> {
    points: &'a [Point2<i32>],
    faces: &'a [[u32; 3]],
    /// The sides of all faces, in order.
    sides: Vec<FaceSide>,
    /// Of each side the face on its other side.
    across: Vec<u32>,
}

/// The sides of all faces, in order.
fn face_sides(faces: &[[u32; 3]], alloc: Global) -> Result<Vec<FaceSide>, AllocError> {
    let mut sides = Vec::new(alloc);
    for (index, [a, b, c]) in faces.iter().enumerate() {
        let face = u32::try_from(index).unwrap_or(NO_FACE);
        sides.push(FaceSide::new(*a, *b, face, 0))?;
        sides.push(FaceSide::new(*b, *c, face, 1))?;
        sides.push(FaceSide::new(*c, *a, face, 2))?;
    }
    sides.sort()?;
    Ok(sides)
}

/// Of each side the face on its other side.
fn across_of(sides: &[FaceSide], alloc: Global) -> Result<Vec<u32>, AllocError> {
    let mut across = Vec::from_elem(alloc, NO_FACE, sides.len())?;
    for (one, next) in sides.iter().zip(sides.iter().skip(1)) {
        if one.is_beside(next) {
            if let Some(entry) = across.get_mut(one.entry()) {
                *entry = next.face;
            }
            if let Some(entry) = across.get_mut(next.entry()) {
                *entry = one.face;
            }
        }
    }
    Ok(across)
}

/// Of each side of each face the face on its other side.
pub fn across_faces(faces: &[[u32; 3]], alloc: Global) -> Result<Vec<u32>, AllocError> {
    let sides = face_sides(faces, alloc)?;
    across_of(sides.as_slice(), alloc)
}

impl FaceMap<'_> {
    /// The sides of faces that are the edge between two points.
    fn beside(&self, [from, to]: [u32; 2]) -> &[FaceSide] {
        let least = FaceSide::new(from, to, 0, 0);
        let start = match self.sides.binary_search(&least) {
            Ok(index) | Err(index) => index,
        };
        let behind = self.sides.get(start..).unwrap_or(&[]);
        let mut count = 0usize;
        for side in behind {
            if !side.is_beside(&least) {
                break;
            }
            count = count.saturating_add(1);
        }
        behind.get(..count).unwrap_or(&[])
    }

    /// Three times the coordinates of a point.
    fn tripled(&self, index: u32) -> (i128, i128) {
        match self.points.get(index as usize) {
            Some(point) => (
                i128::from(point.x).wrapping_mul(3),
                i128::from(point.y).wrapping_mul(3),
            ),
            None => (0, 0),
        }
    }

    /// Three times the coordinates of the middle of a face.
    fn middle(&self, face: u32) -> (i128, i128) {
        let (mut x, mut y) = (0i128, 0i128);
        for corner in self.faces.get(face as usize).unwrap_or(&[0; 3]) {
            if let Some(point) = self.points.get(*corner as usize) {
                x = x.wrapping_add(i128::from(point.x));
                y = y.wrapping_add(i128::from(point.y));
            }
        }
        (x, y)
    }

    /// Whether the way to the right from a point meets a side, all coordinates being tripled.
    fn is_left_of(&self, (x, y): (i128, i128), [from, to]: [u32; 2]) -> bool {
        let ((ax, ay), (bx, by)) = (self.tripled(from), self.tripled(to));
        if (ay > y) == (by > y) {
            return false;
        }
        let turn = bx
            .wrapping_sub(ax)
            .wrapping_mul(y.wrapping_sub(ay))
            .wrapping_sub(by.wrapping_sub(ay).wrapping_mul(x.wrapping_sub(ax)));
        (turn > 0) == (by > ay)
    }

    /// Whether the middle of a face is in a polygon with these sides.
    fn is_within(&self, face: u32, sides: &[[u32; 2]]) -> bool {
        let middle = self.middle(face);
        let mut is_within = false;
        for side in sides {
            if self.is_left_of(middle, *side) {
                is_within = !is_within;
            }
        }
        is_within
    }
}

/// That a face is in a polygon, which is the one of this order.
#[derive(Clone, Copy, PartialEq, Eq, PartialOrd, Ord)]
struct Found {
    face: u32,
    order: u32,
    polygon: u32,
}

/// A search for the faces of one polygon after another, by their orders from 1.
#[derive(Drop)]
struct Search {
    /// Of each face the last polygon that it was found in.
    inside: Vec<u32>,
    /// Of each side the last polygon whose side it was.
    constraints: Vec<u32>,
    due: Vec<u32>,
    found: Vec<Found>,
}

/// A polygon: its number, its order, its sides, and the edges that sides are.
#[derive(Drop)]
struct Polygon {
    number: u32,
    order: u32,
    sides: Vec<[u32; 2]>,
    edges: Vec<FixedUndirectedEdgeHandle>,
}

impl Polygon {
    fn new(alloc: Global) -> Self {
        Polygon {
            number: 0,
            order: 0,
            sides: Vec::new(alloc),
            edges: Vec::new(alloc),
        }
    }
}

impl Search {
    fn new(faces: usize, alloc: Global) -> Result<Self, AllocError> {
        Ok(Search {
            inside: Vec::from_elem(alloc, 0, faces)?,
            constraints: Vec::from_elem(alloc, 0, faces.saturating_mul(3))?,
            due: Vec::new(alloc),
            found: Vec::new(alloc),
        })
    }

    /// Whether a face was found in a polygon.
    fn has(&self, face: u32, polygon: &Polygon) -> bool {
        self.inside.get(face as usize).copied() == Some(polygon.order)
    }

    /// Notes that a face is in a polygon, unless that is noted, and that it is to be gone on from.
    fn note(&mut self, face: u32, polygon: &Polygon) -> Result<(), AllocError> {
        if self.has(face, polygon) {
            return Ok(());
        }
        let Some(entry) = self.inside.get_mut(face as usize) else {
            return Ok(());
        };
        *entry = polygon.order;
        self.due.push(face)?;
        self.found.push(Found {
            face,
            order: polygon.order,
            polygon: polygon.number,
        })?;
        Ok(())
    }

    /// Marks the edges that are sides of a region.
    fn mark(&mut self, map: &FaceMap<'_>, region: &Polygon) {
        for side in &region.sides {
            for one in map.beside(*side) {
                if let Some(entry) = self.constraints.get_mut(one.entry()) {
                    *entry = region.order;
                }
            }
        }
    }

    /// Goes on from faces of a polygon to all that no side of it parts from them.
    fn spread(&mut self, map: &FaceMap<'_>, polygon: &Polygon) -> Result<(), AllocError> {
        // a face is listed once
        for _ in 0..map.faces.len() {
            let Some(face) = self.due.pop() else {
                break;
            };
            let first = (face as usize).saturating_mul(3);
            for entry in first..first.saturating_add(3) {
                if self.constraints.get(entry).copied() == Some(polygon.order) {
                    continue;
                }
                if let Some(next) = map.across.get(entry).copied() {
                    self.note(next, polygon)?;
                }
            }
        }
        Ok(())
    }

    /// Finds the faces of a polygon, of whose sides some are no edges: each by itself.
    fn look_at_all(&mut self, map: &FaceMap<'_>, polygon: &Polygon) -> Result<(), AllocError> {
        for face in 0..u32::try_from(map.faces.len()).unwrap_or(NO_FACE) {
            if map.is_within(face, polygon.sides.as_slice()) {
                self.note(face, polygon)?;
            }
        }
        self.due.clear();
        Ok(())
    }

    /// Notes that a face is in polygons of these orders, where `numbers` are those of all.
    fn note_all(&mut self, face: u32, orders: &[u32], numbers: &[u32]) -> Result<(), AllocError> {
        for order in orders {
            let before = (*order as usize).saturating_sub(1);
            self.found.push(Found {
                face,
                order: *order,
                polygon: numbers.get(before).copied().unwrap_or(0),
            })?;
        }
        Ok(())
    }

    /// Notes of each face of a map the polygons that it is in.
    fn take<T: Triangulation<Vertex = Point2<i32>>>(
        &mut self,
        map: &FaceMap<'_>,
        triangulation: &T,
        indexes: &[u32],
        polygons: &PolygonsOfFaces,
        numbers: &[u32],
    ) -> Result<(), AllocError> {
        triangulation.recall_invariant();
        let mut next = 0usize;
        for face in triangulation.inner_faces() {
            let index = next;
            next = index.saturating_add(1);
            let orders = polygons.at(face.fix());
            if orders.is_empty() {
                continue;
            }
            if let Some(corners) = corner_indexes(face, indexes)
                && let Some(face) = map.find(index, corners)
            {
                self.note_all(face, orders, numbers)?;
            }
        }
        Ok(())
    }
}

/// What rings are made of: the vertices of points, the points of vertices, and the turns of
/// segments that were split.
#[derive(Clone, Copy)]
struct Outlines<'a> {
    vertices: &'a [u32],
    indexes: &'a [u32],
    turns: &'a [Turn],
}

/// The edge between two vertices, if they are joined.
fn edge_between<T: Triangulation<Vertex = Point2<i32>>>(
    triangulation: &T,
    from: u32,
    to: u32,
) -> Option<FixedUndirectedEdgeHandle> {
    triangulation.recall_invariant();
    if from as usize >= triangulation.num_vertices() {
        return None;
    }
    let (from, to) = (
        FixedVertexHandle::from_index(from),
        FixedVertexHandle::from_index(to),
    );
    let edge = triangulation.get_edge_from_neighbors(from, to)?;
    Some(edge.as_undirected().fix())
}

/// Adds the sides of a ring to those of its polygon: along the edges that they became, by the
/// indexes of their ends with the lesser first.
fn add_ring<T: Triangulation<Vertex = Point2<i32>>>(
    triangulation: &T,
    ring: &Ring,
    outlines: Outlines<'_>,
    polygon: &mut Polygon,
    alloc: Global,
) -> Result<(), AllocError> {
    let mut last = ring.end.saturating_sub(1);
    for next in ring.start..ring.end {
        let ends = [
            point_index(outlines.vertices, last),
            point_index(outlines.vertices, next),
        ];
        last = next;
        let [from, to] = ends;
        if from == to {
            continue;
        }
        let path = path_between(triangulation, outlines.turns, ends, alloc)?;
        for (one, other) in path.iter().zip(path.iter().skip(1)) {
            if let Some(edge) = edge_between(triangulation, *one, *other) {
                polygon.edges.push(edge)?;
            }
            let one = point_index(outlines.indexes, *one);
            let other = point_index(outlines.indexes, *other);
            polygon.sides.push([one.min(other), one.max(other)])?;
        }
    }
    Ok(())
}

/// The polygons that are looked for: their numbers, by their orders, and the edges that they have
/// for sides.
#[derive(Drop)]
struct Sought {
    numbers: Vec<u32>,
    borders: Borders,
}

impl Sought {
    fn new<T: Triangulation<Vertex = Point2<i32>>>(
        triangulation: &T,
        alloc: Global,
    ) -> Result<Self, AllocError> {
        Ok(Sought {
            numbers: Vec::new(alloc),
            borders: Borders::new(triangulation.num_undirected_edges(), alloc)?,
        })
    }

    /// Adds a polygon, with its sides if all of them are edges, and tells whether they are.
    fn add(&mut self, polygon: &Polygon, alloc: Global) -> Result<bool, AllocError> {
        self.numbers.push(polygon.number)?;
        if polygon.edges.len() != polygon.sides.len() {
            return Ok(false);
        }
        for edge in &polygon.edges {
            self.borders.add(*edge, polygon.order, alloc)?;
        }
        Ok(true)
    }
}

/// Finds the faces of all polygons: where `by_edges` holds by the edges that their sides are, if
/// all of them are; and else face by face. It tells whether the edges were closed rings.
fn find_all<T: Triangulation<Vertex = Point2<i32>>>(
    search: &mut Search,
    map: &FaceMap<'_>,
    triangulation: &T,
    drawing: &Drawing,
    outlines: Outlines<'_>,
    by_edges: bool,
    alloc: Global,
) -> Result<bool, AllocError> {
    let mut sought = Sought::new(triangulation, alloc)?;
    let mut polygon = Polygon::new(alloc);
    for (i, ring) in drawing.rings.iter().enumerate() {
        add_ring(triangulation, ring, outlines, &mut polygon, alloc)?;
        polygon.number = ring.polygon;
        if let Some(next) = drawing.rings.get(i.saturating_add(1))
            && next.polygon == ring.polygon
        {
            continue;
        }
        polygon.order = polygon.order.saturating_add(1);
        if !by_edges || !sought.add(&polygon, alloc)? {
            search.look_at_all(map, &polygon)?;
        }
        polygon.sides.clear();
        polygon.edges.clear();
    }
    let Some(found) = polygons_of_faces(triangulation, &sought.borders, alloc)? else {
        return Ok(false);
    };
    let numbers = sought.numbers.as_slice();
    search.take(map, triangulation, outlines.indexes, &found, numbers)?;
    Ok(true)
}

impl FaceMap<'_> {
    /// The face with these corners, which may be the one of this index.
    fn find(&self, index: usize, corners: [u32; 3]) -> Option<u32> {
        if self.faces.get(index) == Some(&corners) {
            return u32::try_from(index).ok();
        }
        self.face_at(corners)
    }

    /// The face with these corners.
    fn face_at(&self, [a, b, c]: [u32; 3]) -> Option<u32> {
        for side in self.beside([a, b]) {
            if self.faces.get(side.face as usize)?.contains(&c) {
                return Some(side.face);
            }
        }
        None
    }
}

/// The corners of a face at an edge, by the indexes of their points.
fn corners_beside<DE, UE, F>(
    indexes: &[u32],
    edge: DirectedEdgeHandle<'_, Point2<i32>, DE, UE, F>,
) -> Option<[u32; 3]> {
    let third = match edge.opposite_vertex() {
        Some(third) => third,
        None => edge.rev().opposite_vertex()?,
    };
    let [from, to] = edge.vertices();
    Some([
        point_index(indexes, from.fix().index()),
        point_index(indexes, to.fix().index()),
        point_index(indexes, third.fix().index()),
    ])
}

/// The corners of the face that a point is in, or of one at the edge that it is on, by the indexes
/// of their points.
fn corners_round<T: Triangulation<Vertex = Point2<i32>>>(
    triangulation: &T,
    indexes: &[u32],
    point: Point2<i32>,
) -> Option<[u32; 3]> {
    triangulation.recall_invariant();
    if validate_vertex(&point).is_err() {
        return None;
    }
    match triangulation.locate(point, &ExactTests) {
        PositionInTriangulation::OnFace(face) => {
            let [edge, _, _] = triangulation.face(face).adjacent_edges();
            corners_beside(indexes, edge)
        }
        PositionInTriangulation::OnEdge(edge) => corners_beside(
            indexes,
            triangulation.directed_edge(edge),
        ),
        _ => None,
    }
}

/// The edges that are constraints, by the indexes of their ends.
fn constraint_sides<T: Triangulation<Vertex = Point2<i32>>>(
    triangulation: &T,
    indexes: &[u32],
    alloc: Global,
) -> Result<Vec<[u32; 2]>, AllocError> {
    let mut sides = Vec::new(alloc);
    for edge in triangulation.undirected_edges() {
        if T::Constraints::is_constraint_edge(edge.data()) {
            let [a, b] = edge.vertices();
            sides.push([
                point_index(indexes, a.fix().index()),
                point_index(indexes, b.fix().index()),
            ])?;
        }
    }
    Ok(sides)
}

/// Finds the faces of all regions: those that a way past no constraint leads to from the face that
/// a region's point is in.
fn find_regions<T: Triangulation<Vertex = Point2<i32>>>(
    search: &mut Search,
    map: &FaceMap<'_>,
    triangulation: &T,
    indexes: &[u32],
    points: &[Asked],
    alloc: Global,
) -> Result<(), AllocError> {
    let mut polygon = Polygon::new(alloc);
    polygon.sides = constraint_sides(triangulation, indexes, alloc)?;
    for asked in points {
        polygon.number = polygon.number.saturating_add(1);
        polygon.order = polygon.number;
        let Asked::Near(point) = asked else {
            continue;
        };
        let Some(corners) = corners_round(triangulation, indexes, *point) else {
            continue;
        };
        if let Some(face) = map.face_at(corners) {
            search.mark(map, &polygon);
            search.note(face, &polygon)?;
            search.spread(map, &polygon)?;
        }
    }
    Ok(())
}

/// The polygons that each of some faces is in, by their numbers, those of a face one behind the
/// other.
#[derive(Drop)]
pub struct PolygonLists {
    starts: Vec<u32>,
    numbers: Vec<u32>,
}

impl PolygonLists {
    /// The lists, with what the file says of polygons.
    pub fn lists<'a>(&'a self, records: &'a Records) -> FacePolygons<'a> {
        FacePolygons {
            starts: self.starts.as_slice(),
            numbers: self.numbers.as_slice(),
            records: if records.is_empty() {
                None
            } else {
                Some(records)
            },
        }
    }

    /// The faces that are in a polygon, and their polygons.
    pub fn within(
        &self,
        faces: &[[u32; 3]],
        alloc: Global,
    ) -> Result<(Vec<[u32; 3]>, PolygonLists), AllocError> {
        let mut kept = Vec::new(alloc);
        let mut starts = Vec::new(alloc);
        let mut numbers = Vec::new(alloc);
        numbers.extend_from_slice(self.numbers.as_slice())?;
        starts.push(0)?;
        let ends = self.starts.iter().skip(1);
        for ((face, start), end) in faces.iter().zip(&self.starts).zip(ends) {
            if start < end {
                kept.push(*face)?;
                starts.push(*end)?;
            }
        }
        Ok((kept, PolygonLists { starts, numbers }))
    }
}

/// Of each of so many faces how many were found before it, and then how many there are.
fn starts_of(found: &[Found], faces: usize, alloc: Global) -> Result<Vec<u32>, AllocError> {
    let mut starts = Vec::from_elem(alloc, 0u32, faces.saturating_add(1))?;
    for one in found {
        let behind = (one.face as usize).saturating_add(1);
        if let Some(count) = starts.get_mut(behind) {
            *count = count.saturating_add(1);
        }
    }
    let mut all = 0u32;
    for start in starts.iter_mut() {
        all = all.saturating_add(*start);
        *start = all;
    }
    Ok(starts)
}

/// The lists of what was found, in order, for so many faces.
fn lists_of(found: &[Found], faces: usize, alloc: Global) -> Result<PolygonLists, AllocError> {
    let mut numbers = Vec::with_capacity(alloc, found.len())?;
    for one in found {
        numbers.push(one.polygon)?;
    }
    Ok(PolygonLists {
        starts: starts_of(found, faces, alloc)?,
        numbers,
    })
}

/// The polygons or regions that each face is in. Faces are all inner faces, by the indexes of their
/// corners.
pub fn polygon_lists<T: Triangulation<Vertex = Point2<i32>>>(
    scene: &Scene,
    triangulation: &T,
    indexes: &[u32],
    turns: &[Turn],
    faces: &[[u32; 3]],
    alloc: Global,
) -> Result<PolygonLists, AllocError> {
    let points = scene.scaled.points.as_slice();
    let vertices = point_vertices(triangulation, indexes, points, alloc)?;
    let outlines = Outlines {
        vertices: vertices.as_slice(),
        indexes,
        turns,
    };
    let sides = face_sides(faces, alloc)?;
    let across = across_of(sides.as_slice(), alloc)?;
    let map = FaceMap {
        points,
        faces,
        sides,
        across,
    };
    let mut search = Search::new(faces.len(), alloc)?;
    if scene.drawing.rings.is_empty() {
        let regions = scene.region_points.as_slice();
        find_regions(&mut search, &map, triangulation, indexes, regions, alloc)?;
    } else {
        let drawing = &scene.drawing;
        if !find_all(
            &mut search,
            &map,
            triangulation,
            drawing,
            outlines,
            true,
            alloc,
        )? {
            search = Search::new(faces.len(), alloc)?;
            find_all(
                &mut search,
                &map,
                triangulation,
                drawing,
                outlines,
                false,
                alloc,
            )?;
        }
    }
    search.found.sort()?;
    lists_of(search.found.as_slice(), faces.len(), alloc)
}
