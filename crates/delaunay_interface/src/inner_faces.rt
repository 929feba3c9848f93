//! An iterator over the faces but the outer one.
#![tactic(auto, using(crate::proofs::Taken::length_each))]

ghost use Rattle.std.specs.Prelude.{◌≡◌, ◌<◌, ◌≤◌, ⊤, All, IfSome, length};
ghost use Rattle.std.specs.List.{range_with_len};
ghost use Rattle.std.specs.Iterator.{YieldsFirstBy, YieldsLastBy, item_count};

use half_edge_dcel::{Dcel, FaceHandle, MeshViews};
use half_edge_links::FixedFaceIterator;
use std::alloc::AllocError;
use std::iter::FusedIterator;

/// The inner faces that are left, by rising index. Each item is known to be an inner face, so that
/// its corners can be asked for.
///
/// ```
/// let mut faces = points.inner_faces();
/// println!(rt; "{} faces", faces.len())?;
/// let first = faces.next();
/// let last = faces.next_back();
/// ```
#[derive(Drop)]
#[derive_where(Debug)]
pub struct InnerFaceIterator<'a, V, DE, UE, F> {
    #[derive_where(skip)]
    dcel: &'a Dcel<V, DE, UE, F>,
    rest: FixedFaceIterator,
    ghost inner: { All (λ i. (0 < i) × (i ≤ length dcel.now.faces)) rest },
}

impl<'a, V, DE, UE, F> InnerFaceIterator<'a, V, DE, UE, F> {
    // All inner faces of a mesh.
    pub(crate) fn new(dcel: &'a Dcel<V, DE, UE, F>) -> Self
        ensures dcel { result.dcel ≡ dcel.entry }
        ensures rest { result.rest ≡ range_with_len 1 (length dcel.now.faces) }
    {
        InnerFaceIterator {
            dcel,
            rest: dcel.fixed_inner_faces(),
        }
    }
}

impl<'a, V, DE, UE, F> Clone for InnerFaceIterator<'a, V, DE, UE, F> {
    ghost is_clone = { λ it copy. (copy.dcel ≡ it.dcel) × (copy.rest ≡ it.rest) };

    ghost is_infallible = { λ _. ⊤ };

    fn clone(&self) -> Result<Self, AllocError> {
        Ok(InnerFaceIterator {
            dcel: self.dcel,
            rest: self.rest.clone()?,
        })
    }
}

impl<'a, V, DE, UE, F> Iterator for InnerFaceIterator<'a, V, DE, UE, F> {
    ghost use Rattle.delaunay_interface.specs.InnerFaces.{inner_faces_left};

    type Item = FaceHandle<'a, V, DE, UE, F>;

    ghost next_gives = { λ it r after. YieldsFirstBy (λ x. (x.dcel, x.index)) inner_faces_left it r
        after × IfSome r (λ f. 0 < f.index) };

    ghost remaining = { item_count inner_faces_left };

    fn next(&mut self) -> Option<FaceHandle<'a, V, DE, UE, F>> {
        let face = self.rest.next()?;
        Some(self.dcel.face(face))
    }

    fn size_hint(&self) -> (usize, Option<usize>) {
        (self.len(), Some(self.len()))
    }
}

impl<'a, V, DE, UE, F> DoubleEndedIterator for InnerFaceIterator<'a, V, DE, UE, F> {
    ghost use Rattle.delaunay_interface.specs.InnerFaces.{inner_faces_left};

    ghost next_back_gives = { λ it r after. YieldsLastBy (λ x. (x.dcel, x.index)) inner_faces_left
        it r after × IfSome r (λ f. 0 < f.index) };

    fn next_back(&mut self) -> Option<FaceHandle<'a, V, DE, UE, F>> {
        let face = self.rest.next_back()?;
        Some(self.dcel.face(face))
    }
}

impl<'a, V, DE, UE, F> ExactSizeIterator for InnerFaceIterator<'a, V, DE, UE, F> {
    fn len(&self) -> usize {
        self.rest.len()
    }
}

impl<'a, V, DE, UE, F> FusedIterator for InnerFaceIterator<'a, V, DE, UE, F> {}
