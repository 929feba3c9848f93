//! Which edges are constraints.
ghost use Rattle.std.specs.Prelude.{◌≡◌, ℕ, Bool, true, false, List, [], refl};
ghost use Rattle.delaunay_legalization.specs.Constraints.{marked_edges, none_marked, not_both};

/// Which undirected edges of a triangulation are constraints, so that no edit flips them, by a mark
/// in their data.
pub trait ConstraintMarker<UE> {
    ghost marks: { UE → Bool };

    // The constraints, by rising index, where these are the data of all edges.
    ghost constraints: { List UE → List ℕ };

    // Whether data can have the mark.
    ghost can_mark: { Bool };

    // The data with the mark, and without it.
    ghost marked: { UE → UE };

    ghost unmarked: { UE → UE };

    /// Whether these data make their edge a constraint.
    fn is_constraint_edge(value: &UE) -> bool
        ensures { result ≡ marks value.now };

    /// Makes their edge a constraint, where data can have the mark.
    fn make_constraint(value: &mut UE)
        ensures { value.new ≡ marked value.old };

    /// Makes their edge none.
    fn free(value: &mut UE)
        ensures { value.new ≡ unmarked value.old };

    ghost constraints_are_marked: { (ds : List UE) → constraints ds ≡ marked_edges marks ds };

    ghost marked_has_mark: { (d : UE) → can_mark ≡ true → marks (marked d) ≡ true };

    ghost unmarked_has_none: { (d : UE) → marks (unmarked d) ≡ false };

    ghost can_mark_where_marked: { (d : UE) → marks d ≡ true → can_mark ≡ true };
}

/// No edge is a constraint, as in a triangulation without constraints.
#[derive(Drop)]
pub struct NoConstraints;

impl<UE> ConstraintMarker<UE> for NoConstraints {
    ghost marks = { λ _. false };

    ghost constraints = { λ _. [] };

    ghost can_mark = { false };

    ghost marked = { λ d. d };

    ghost unmarked = { λ d. d };

    ghost constraints_are_marked = { λ ds. none_marked ds };

    ghost marked_has_mark = { λ d can. not_both can };

    ghost unmarked_has_none = { λ d. refl };

    ghost can_mark_where_marked = { λ d is. is };

    fn is_constraint_edge(_value: &UE) -> bool {
        false
    }

    fn make_constraint(_value: &mut UE) {}

    fn free(_value: &mut UE) {}
}
