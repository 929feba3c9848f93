//! Which faces are kept, by their corners, and the polygons that they are in.
use crate::building::{DrawnLists, point_index};
use half_edge_dcel::{DirectedEdgeHandle, VertexHandle};
use mesh_io::{KeepRule, Task};
use std::alloc::{AllocError, Global};

/// A face: its corners in their order, the least first, and which of the list it is.
#[derive(Clone, Copy, PartialEq, Eq, PartialOrd, Ord)]
struct FaceKey {
    a: u32,
    b: u32,
    c: u32,
    face: u32,
}

/// The key of a face by its corners.
fn key_of([a, b, c]: [u32; 3], face: u32) -> FaceKey {
    let (a, b, c) = if b < a && b < c {
        (b, c, a)
    } else if c < a && c < b {
        (c, a, b)
    } else {
        (a, b, c)
    };
    FaceKey { a, b, c, face }
}

/// The faces that are kept, in order, where it counts which they are, and what there is of the
/// drawing.
#[derive(Drop)]
pub struct KeptFaces<'a> {
    pub drawn: &'a DrawnLists<'a>,
    keys: Vec<FaceKey>,
    is_part: bool,
}

impl<'a> KeptFaces<'a> {
    /// Of all that a task keeps.
    pub fn of(
        task: &Task<'_>,
        drawn: &'a DrawnLists<'a>,
        alloc: Global,
    ) -> Result<Self, AllocError> {
        let is_part = task.keep != KeepRule::All;
        let mut keys = Vec::new(alloc);
        if is_part || drawn.polygons.is_some() {
            for (index, face) in drawn.faces.iter().enumerate() {
                keys.push(key_of(*face, u32::try_from(index).unwrap_or(u32::MAX)))?;
            }
            keys.sort()?;
        }
        Ok(KeptFaces {
            drawn,
            keys,
            is_part,
        })
    }

    /// Which of the list a face is, by the indexes of its corners.
    fn find(&self, corners: [u32; 3]) -> Option<usize> {
        let wanted = key_of(corners, 0);
        let index = match self.keys.binary_search(&wanted) {
            Ok(index) | Err(index) => index,
        };
        let key = self.keys.get(index)?;
        if key.a == wanted.a && key.b == wanted.b && key.c == wanted.c {
            Some(key.face as usize)
        } else {
            None
        }
    }

    /// Adds the polygons of a face, and tells whether it is kept.
    pub fn add(&self, corners: [u32; 3], numbers: &mut Vec<u32>) -> Result<bool, AllocError> {
        let Some(face) = self.find(corners) else {
            return Ok(!self.is_part);
        };
        if let Some(polygons) = &self.drawn.polygons {
            numbers.extend_from_slice(polygons.of(face))?;
        }
        Ok(true)
    }

    /// The index of a vertex's point.
    fn index_of<V, DE, UE, F>(&self, vertex: VertexHandle<'_, V, DE, UE, F>) -> u32 {
        point_index(self.drawn.indexes, vertex.fix().index())
    }

    /// The corners of the face on the left of an edge, if one is there.
    fn left_corners<V, DE, UE, F>(
        &self,
        edge: DirectedEdgeHandle<'_, V, DE, UE, F>,
    ) -> Option<[u32; 3]> {
        let third = edge.opposite_vertex()?;
        let [from, to] = edge.vertices();
        Some([self.index_of(from), self.index_of(to), self.index_of(third)])
    }

    /// Adds the polygons of the face on the left of an edge, and tells whether it is kept.
    fn add_left<V, DE, UE, F>(
        &self,
        edge: DirectedEdgeHandle<'_, V, DE, UE, F>,
        numbers: &mut Vec<u32>,
    ) -> Result<bool, AllocError> {
        match self.left_corners(edge) {
            Some(corners) => self.add(corners, numbers),
            None => Ok(!self.is_part),
        }
    }

    /// Adds the polygons of the faces at an edge, and tells whether one of these is kept.
    pub fn add_beside<V, DE, UE, F>(
        &self,
        edge: DirectedEdgeHandle<'_, V, DE, UE, F>,
        numbers: &mut Vec<u32>,
    ) -> Result<bool, AllocError> {
        let left = self.add_left(edge, numbers)?;
        let right = self.add_left(edge.rev(), numbers)?;
        Ok(left || right)
    }

    /// Adds the polygons of the faces round a vertex, and tells whether one of these is kept.
    pub fn add_round<V, DE, UE, F>(
        &self,
        vertex: VertexHandle<'_, V, DE, UE, F>,
        numbers: &mut Vec<u32>,
    ) -> Result<bool, AllocError> {
        let mut is_kept = !self.is_part;
        for edge in vertex.out_edges() {
            if self.add_left(edge, numbers)? {
                is_kept = true;
            }
        }
        Ok(is_kept)
    }
}
