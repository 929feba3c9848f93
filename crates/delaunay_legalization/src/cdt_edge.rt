//! The data of an edge that may be a constraint.
ghost use Rattle.std.specs.Prelude.{◌≡◌, true, false, refl};
ghost use Rattle.delaunay_legalization.specs.CdtEdge.{is_constraint, with_mark};
ghost use Rattle.delaunay_legalization.specs.Constraints.{marked_edges};

use crate::ConstraintMarker;

/// The data of an undirected edge of a constrained triangulation: whether the edge is a constraint,
/// and the user's data.
///
/// ```
/// let data = site.undirected_edge(edge).data();
/// if data.is_constraint_edge() {
///     println!(rt; "a constraint of height {}", *data.data())?;
/// }
/// ```
#[derive(Clone, Copy, Debug, PartialEq, Eq, PartialOrd, Ord, Hash, Drop)]
pub struct CdtEdge<UE> {
    is_constraint_edge: bool,
    data: UE,
}

/// No constraint, with these data.
pub fn free_edge_data<UE>(value: UE) -> CdtEdge<UE>
    ensures free { result.is_constraint_edge ≡ false }
    ensures value { result.«data» ≡ value }
{
    CdtEdge {
        is_constraint_edge: false,
        data: value,
    }
}

/// No constraint, with default data.
impl<UE: Default> Default for CdtEdge<UE> {
    ghost is_default = { λ e. (e.is_constraint_edge ≡ false) × UE.is_default e.«data» };

    fn default() -> Self {
        free_edge_data(UE::default())
    }
}

impl<UE> CdtEdge<UE> {
    ghost use Rattle.std.specs.Borrow.{sem};
    ghost use Rattle.delaunay_legalization.specs.Lending.{LendsData};

    /// Whether the edge is a constraint.
    pub fn is_constraint_edge(&self) -> bool
        ensures { result ≡ self.now.is_constraint_edge }
    {
        self.is_constraint_edge
    }

    /// The user's data.
    pub fn data(&self) -> &UE
        ensures { result.now ≡ self.now.«data» }
    {
        &self.data
    }

    /// The user's data, for writing.
    pub fn data_mut(&mut self) -> &mut UE
        ensures* writes_back { sem 𝓛 (LendsData UE.row self.entry result) }
        ensures value { result.now ≡ self.old.«data» }
    {
        &mut self.data
    }
}

/// Edges whose data have the flag are constraints.
#[derive(Drop)]
pub struct EdgeConstraints;

impl<UE> ConstraintMarker<CdtEdge<UE>> for EdgeConstraints {
    ghost marks = { is_constraint };

    ghost constraints = { marked_edges is_constraint };

    ghost can_mark = { true };

    ghost marked = { with_mark true };

    ghost unmarked = { with_mark false };

    ghost constraints_are_marked = { λ ds. refl };

    ghost marked_has_mark = { λ d can. refl };

    ghost unmarked_has_none = { λ d. refl };

    ghost can_mark_where_marked = { λ d is. refl };

    fn is_constraint_edge(value: &CdtEdge<UE>) -> bool {
        value.is_constraint_edge
    }

    fn make_constraint(value: &mut CdtEdge<UE>) {
        value.is_constraint_edge = true;
    }

    fn free(value: &mut CdtEdge<UE>) {
        value.is_constraint_edge = false;
    }
}
