//! Markers for meshes that grow.
ghost use Rattle.std.specs.Prelude.{◌≡◌, false, refl};

use delaunay_legalization::{CdtEdge, ConstraintMarker, EdgeConstraints, NoConstraints};

/// Markers by which no edge with default data is a constraint, so that none of the edges that an
/// insertion makes is one by itself.
pub trait FreeByDefault<UE: Default>: ConstraintMarker<UE> {
    ghost default_is_free: { (d : UE) → UE.is_default d → Self.marks d ≡ false };
}

impl<UE: Default> FreeByDefault<UE> for NoConstraints {
    ghost default_is_free = { λ d is. refl };
}

impl<UE: Default> FreeByDefault<CdtEdge<UE>> for EdgeConstraints {
    ghost default_is_free = { λ d is. is.0 };
}
