//! Laws of every mesh, for the layers above.
ghost use Rattle.half_edge_links.specs.{Flow.SidesAddUp, Flow.SidesCancel, Hull.OutlineGoesRound};
ghost use Rattle.half_edge_links.specs.Round.{EdgesGoRound};

/// A law: the sides of the inner faces and the outer edges are, taken together, the two directions
/// of the edges.
pub fn sides_add_up()
    ensures { SidesAddUp }
{}

/// A law: where the way back counts against the way there, the sides of the inner faces and the
/// outer edges cancel out.
pub fn sides_cancel()
    ensures { SidesCancel }
{}

/// A law: the edges of a vertex go once round it, and an inner face at it lies between two
/// neighbours that follow each other.
pub fn edges_go_round()
    ensures { EdgesGoRound }
{}

/// A law: in a mesh with one outer loop the outer edges go round in it once, from the one that the
/// mesh names.
pub fn outline_goes_round()
    ensures { OutlineGoesRound }
{}
