//! Vertices that are inserted one after another, as the caller asks.
ghost use Rattle.std.specs.Prelude.{◌≡◌, ◌↔◌, [], length, map, All, IfErr, IfOk, IsErrOf, IsTrue};
ghost use Rattle.std.specs.Prelude.{OnOk};
ghost use Rattle.{delaunay_core.specs.OutOfIndexes, plane.specs.InRange};
ghost use Rattle.delaunay_edit.specs.{AreSites, IsDelaunay};
ghost use Rattle.delaunay_extensions.specs.{Bulk.InsertsNext, Bulk.RefusesList, Order.IsListed};
ghost use Rattle.delaunay_extensions.specs.declared.error.BulkInsertionError.TheVariants.{NoRoom};

use crate::BulkInsertionError;
use crate::order::{Keyed, along_curve, first_too_large};
use delaunay_core::math::{InsertionError, PlaneTests};
use delaunay_core::point::HasPosition;
use delaunay_interface::Triangulation;
use half_edge_links::FixedVertexHandle;
use std::alloc::AllocError;
use std::marker::Model;
use std::vec::IntoIter;

/// The vertices of a list that are still to be inserted: in rounds along a curve through the plane,
/// so that each is near the one before it. It is for long work, of which a caller wants to hear
/// between insertions; `insert_all` does the whole at once.
///
/// ```
/// let mut insertion = BulkInsertion::new(points)?;
/// hill.reserve(insertion.len())?;
/// while let Some((place, vertex)) = insertion.insert_next(&mut hill, &ExactTests)? {
///     if insertion.len() % 100000 == 0 {
///         println!(rt; "{} left", insertion.len())?;
///     }
/// }
/// ```
#[derive(Drop)]
pub struct BulkInsertion<V: Drop> {
    left: IntoIter<Keyed<V>>,
    // The vertex that was inserted last: the next one is near it.
    hint: FixedVertexHandle,
}

impl<V: Drop> Model for BulkInsertion<V> {
    ghost use Rattle.std.specs.Prelude.{ℕ, List, map};
    ghost use Rattle.std.specs.Vec.Iter.{into_iter_items};
    ghost use Rattle.delaunay_extensions.specs.Order.{entry_of};

    // The vertices that are left, in the order of their insertion, each with its place in the list.
    ghost Value = { List (ℕ × V) };

    ghost view = { λ b. map entry_of (into_iter_items b.left) };
}

impl<V: HasPosition + Drop> BulkInsertion<V> {
    /// All vertices of a list, in an order for their insertion: each is near the one before it, and
    /// of several at one position the last of the list comes last. It gives `Vertex` with
    /// `TooLarge` exactly where a vertex is out of range, for the least place of one, and else
    /// `NoRoom` with `OutOfMemory` where memory was refused; then the vertices are dropped.
    pub fn new(vertices: Vec<V>) -> Result<Self, BulkInsertionError>
        ensures listed { IfOk result (IsListed V.place vertices.items) }
        ensures in_range { OnOk result (All (λ v. InRange (V.place v)) vertices.items) }
        ensures err { IfErr result (RefusesList V.place vertices.items) }
        ensures not_full { ¬ IsErrOf result (NoRoom OutOfIndexes) }
    {
        if let Some(place) = first_too_large(vertices.as_slice()) {
            let error = InsertionError::TooLarge;
            return Err(BulkInsertionError::Vertex { place, error });
        }
        match BulkInsertion::in_order(vertices) {
            Ok(insertion) => Ok(insertion),
            Err(_) => Err(BulkInsertionError::NoRoom(InsertionError::OutOfMemory)),
        }
    }

    /// The same of vertices that are in range. It gives `AllocError` where memory was refused.
    pub(crate) fn in_order(vertices: Vec<V>) -> Result<Self, AllocError>
        ensures { IfOk result (IsListed V.place vertices.items) }
    {
        let keyed = along_curve(vertices)?;
        Ok(BulkInsertion {
            left: keyed.into_iter(),
            hint: FixedVertexHandle::from_index(0),
        })
    }

    /// How many vertices are still to be inserted.
    pub fn len(&self) -> usize
        ensures { result ≡ length self.now }
    {
        self.left.len()
    }

    /// Whether no vertex is left.
    pub fn is_empty(&self) -> bool
        ensures { IsTrue result ↔ (self.now ≡ []) }
    {
        self.left.len() == 0
    }

    /// Inserts the next vertex as `insert_with_hint` does, by a search from the one before it, and
    /// gives its place in the list and its handle; `None` where no vertex is left. It gives
    /// `Vertex` where the vertex was refused: it is dropped, the triangulation is as it was, and
    /// the next call goes on with the vertex after it.
    pub fn insert_next<T: Triangulation<Vertex = V>, P: PlaneTests<V::Scalar>>(
        &mut self,
        triangulation: &mut T,
        tests: &P,
    ) -> Result<Option<(usize, FixedVertexHandle)>, BulkInsertionError>
        requires sites { AreSites V.place (P.sites tests.now) (T.state triangulation.old).vertices }
        requires new_sites { All
            (λ e. InRange (V.place e.1) → P.sites tests.now (V.place e.1)) self.old }
        ensures inserts { InsertsNext V.place T.Constraints.constraints result self.old self.new
            (T.state triangulation.old) (T.state triangulation.new) }
        ensures sites { AreSites V.place (P.sites tests.now) (T.state triangulation.new).vertices }
        ensures headline { IsDelaunay V.place T.Constraints.constraints
            (T.state triangulation.new) }
    {
        triangulation.recall_invariant();
        let Some(
            Keyed {
                key: _,
                place,
                vertex,
            },
        ) = self.left.next()
        else {
            return Ok(None);
        };
        match triangulation.insert_with_hint(vertex, self.hint, tests) {
            Ok(handle) => {
                self.hint = handle;
                Ok(Some((place, handle)))
            }
            Err(error) => Err(BulkInsertionError::Vertex { place, error }),
        }
    }
}
