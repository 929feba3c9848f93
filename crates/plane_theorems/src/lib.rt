//! Theorems of the plane: tilings, edits, Delaunay triangulations, segments, lines of sight,
//! chains of positions in sight of each other, and parts.
//! The functions are laws: each holds by its contract and does nothing.
#![tactic(auto)]

ghost use Rattle.plane_theorems.specs.Delaunay.Theorems.{DelaunayTheorems};
ghost use Rattle.plane_theorems.specs.{Edits.Theorems.EditTheorems, Tiling.Theorems.TilingTheorems};
ghost use Rattle.plane_theorems.specs.{Parts.Theorems.PartTheorems, Sight.Theorems.SightTheorems};
ghost use Rattle.plane_theorems.specs.Segments.Theorems.{SegmentTheorems};
ghost use Rattle.plane_theorems.specs.Ways.Theorems.{WayTheorems};

/// Theorems: from a local mesh invariant to the tiling of the hull.
pub fn tilings_hold()
    ensures { TilingTheorems }
{}

/// Theorems: what each edit does keeps the local mesh invariant, and flips end.
pub fn edits_hold()
    ensures { EditTheorems }
{}

/// Theorems: from the local circle test to constrained Delaunay, and what queries stand on.
pub fn delaunay_holds()
    ensures { DelaunayTheorems }
{}

/// Theorems: what a segment meets, item by item, and the flips that make it an edge.
pub fn segments_hold()
    ensures { SegmentTheorems }
{}

/// Theorems: lines of sight over free faces.
pub fn sight_holds()
    ensures { SightTheorems }
{}

/// Theorems: a chain of positions through free faces joins two positions exactly where sides of free
/// faces lead from a corner at one to a corner at the other.
pub fn ways_hold()
    ensures { WayTheorems }
{}

/// Theorems: which faces of a part of the points and constraints are faces of the whole, and what
/// the part need not know of it.
pub fn parts_hold()
    ensures { PartTheorems }
{}
