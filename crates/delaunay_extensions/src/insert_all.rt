//! The call of both triangulations that inserts the vertices of a list.
ghost use Rattle.std.specs.Prelude.{◌≡◌, ◌+◌, ◌*◌, ◌<◌, length, slice_set, All, IfErr, IfOk};
ghost use Rattle.plane.specs.{InRange};
ghost use Rattle.delaunay_edit.specs.{AreSites, IsDelaunay};
ghost use Rattle.delaunay_extensions.specs.Bulk.{InsertsAll, RefusesWhere, StopsAt};

use crate::by_place::ByPlace;
use crate::float_triangulation::ScalarOf;
use crate::order::first_too_large;
use crate::{BulkInsertion, BulkInsertionError};
use delaunay_core::math::{InsertionError, PlaneTests};
use delaunay_interface::{Triangulation, VertexOf};
use half_edge_links::FixedVertexHandle;

/// Insertions of many vertices: of both triangulations.
pub trait InsertAll: Triangulation {
    /// Inserts all vertices of a list, as `insert` would one after another, and gives their handles
    /// in the order of the list. They are inserted in another order, by searches that each begin at
    /// the vertex before: along a curve, in rounds of about eight times as many as before, each from
    /// all over the plane. That takes less time than any order of the list. Of several vertices at one position
    /// the last of the list is kept, and all have its handle.
    ///
    /// The first of these that applies decides. It gives `Vertex` with `TooLarge` exactly where a
    /// vertex of the list is out of range, for the least place of one. It gives `NoRoom` with
    /// `OutOfIndexes` exactly where six times the number of vertices with those of the list passes
    /// `MAX_ELEMENTS`, and with `OutOfMemory` where memory was refused. Then nothing is inserted.
    /// By then all memory that it takes is reserved but that of a hint generator, which does with
    /// less. If a later insertion is refused all the same, it gives `Vertex` with `OutOfMemory`,
    /// and those before it stay. The vertices that were not inserted are dropped.
    ///
    /// ```
    /// let mut hill: DelaunayTriangulation<Point2<i64>> = DelaunayTriangulation::new(rt.alloc());
    /// let mut points = Vec::new(rt.alloc());
    /// for (x, y) in [(0, 0), (120, 35), (-80, 140), (-150, -60)] {
    ///     points.push(Point2::new(x, y))?;
    /// }
    /// let vertices = hill.insert_all(points, &ExactTests)?; // 4 handles
    /// ```
    final fn insert_all<P: PlaneTests<ScalarOf<Self>>>(
        &mut self,
        vertices: Vec<VertexOf<Self>>,
        tests: &P,
    ) -> Result<Vec<FixedVertexHandle>, BulkInsertionError>
        requires sites { AreSites Self.Vertex.place (P.sites tests.now)
            (Self.state self.old).vertices }
        requires new_sites { All (λ v. InRange (Self.Vertex.place v) → P.sites tests.now
            (Self.Vertex.place v)) vertices.items }
        ensures inserts { IfOk result (λ handles. InsertsAll Self.Vertex.place
            Self.Constraints.constraints vertices.items handles.items (Self.state self.old)
            (Self.state self.new)) }
        ensures stops { IfErr result (λ error. StopsAt Self.Vertex.place
            Self.Constraints.constraints vertices.items error (Self.state self.old)
            (Self.state self.new)) }
        ensures refuses { RefusesWhere Self.Vertex.place vertices.items
            (length (Self.state self.old).vertices) result }
        ensures headline { IsDelaunay Self.Vertex.place Self.Constraints.constraints
            (Self.state self.new) }
    {
        self.recall_invariant();
        if let Some(place) = first_too_large(vertices.as_slice()) {
            let error = InsertionError::TooLarge;
            return Err(BulkInsertionError::Vertex { place, error });
        }
        if let Err(error) = self.reserve(vertices.len()) {
            return Err(BulkInsertionError::NoRoom(error));
        }
        let alloc = *vertices.allocator();
        let Ok(mut insertion) = BulkInsertion::in_order(vertices) else {
            return Err(BulkInsertionError::NoRoom(InsertionError::OutOfMemory));
        };
        let none = FixedVertexHandle::from_index(0);
        let Ok(mut handles) = ByPlace::new(alloc, none, insertion.len()) else {
            return Err(BulkInsertionError::NoRoom(InsertionError::OutOfMemory));
        };
        'vertices: while let Some(inserted) = insertion.insert_next(self, tests)? {
            handles.write(inserted);
        }
        Ok(handles.finish())
    }
}

impl<T: Triangulation> InsertAll for T {}
