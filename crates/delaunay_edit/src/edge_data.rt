//! The user's part of the data of an edge.
ghost use Rattle.std.specs.Prelude.{◌≡◌, ◌<◌, ℕ, List, length, map, refl, Some};
ghost use Rattle.std.specs.Prelude.{slice_get, slice_set};
ghost use Rattle.std.proofs.Common.{length-set};
ghost use Rattle.std.specs.Borrow.{Lends, sem};
ghost use Rattle.std.proofs.lemmas.List.{map-set};
ghost use Rattle.half_edge_dcel.specs.contracts.dcel.Dcel.{the_row};
ghost use Rattle.delaunay_edit.specs.EdgeData.{with_data, with_data_marks, with_data_users};

use delaunay_legalization::{CdtEdge, ConstraintMarker, EdgeConstraints, NoConstraints};
use half_edge_dcel::Dcel;
use half_edge_links::FixedUndirectedEdgeHandle;

pub(crate) mod sealed {
    pub trait Sealed {}
}

impl sealed::Sealed for NoConstraints {}

impl sealed::Sealed for EdgeConstraints {}

/// Which edges are constraints, by a mark in their data, and the part of the data that is the
/// user's. `NoConstraints` and `EdgeConstraints` have it, and no other type.
pub trait EdgeData<UE>: ConstraintMarker<UE> + sealed::Sealed {
    type User;

    // The user's part of the data of an edge.
    ghost user: { UE → Self.User };

    // The data of all edges, with another user's part at one.
    ghost with_user: { List UE → ℕ → Self.User → List UE };

    /// The user's part of the data of an edge, for writing.
    fn user_data_mut<V, DE, F>(
        dcel: &mut Dcel<V, DE, UE, F>,
        edge: FixedUndirectedEdgeHandle,
    ) -> &mut Self::User
        requires { edge < length dcel.old.undirected }
        ensures* writes_back { sem 𝓛 (Lends (the_row V.row DE.row UE.row F.row) Self.User.row
            dcel.entry result (λ w. record dcel.old
            { undirected = with_user dcel.old.undirected edge w })) }
        ensures value { slice_get (map user dcel.old.undirected) edge ≡ Some result.now };

    ghost with_user_length: { (es : List UE) (i : ℕ) (w : Self.User) →
        length (with_user es i w) ≡ length es };

    ghost with_user_constraints: { (es : List UE) (i : ℕ) (w : Self.User) →
        Self.constraints (with_user es i w) ≡ Self.constraints es };

    // The other edges keep the user's part of their data.
    ghost with_user_users: { (es : List UE) (i : ℕ) (w : Self.User) →
        map user (with_user es i w) ≡ slice_set (map user es) i w };
}

impl<UE> EdgeData<UE> for NoConstraints {
    type User = UE;

    ghost user = { λ d. d };

    ghost with_user = { slice_set };

    ghost with_user_length = { λ es i w. length-set es i w };

    ghost with_user_constraints = { λ _ _ _. refl };

    ghost with_user_users = { λ es i w. map-set (λ d. d) es i w };

    fn user_data_mut<V, DE, F>(
        dcel: &mut Dcel<V, DE, UE, F>,
        edge: FixedUndirectedEdgeHandle,
    ) -> &mut UE {
        dcel.undirected_edge_data_mut(edge)
    }
}

impl<UE> EdgeData<CdtEdge<UE>> for EdgeConstraints {
    type User = UE;

    ghost user = { λ d. d.«data» };

    ghost with_user = { with_data };

    ghost with_user_length = { λ es i w. length-set es i _ };

    ghost with_user_constraints = { λ es i w. with_data_marks 0 es i w };

    ghost with_user_users = { λ es i w. with_data_users es i w };

    fn user_data_mut<V, DE, F>(
        dcel: &mut Dcel<V, DE, CdtEdge<UE>, F>,
        edge: FixedUndirectedEdgeHandle,
    ) -> &mut UE {
        dcel.undirected_edge_data_mut(edge).data_mut()
    }
}
