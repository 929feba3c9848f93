//! Vertices without edges, the first edge, and a mesh of one line.
ghost use Rattle.std.specs.Prelude.{◌≡◌, ◌≢◌, ◌+◌, ◌/◌, ◌<◌, ◌++◌, ◌∷◌, [], length, IsSome};
ghost use Rattle.half_edge_links.specs.{along, KeepsOneOutline, origin, out_edge, rev, with_vertex};
ghost use Rattle.half_edge_dcel.specs.GrownData.{AddsEdgeData};
ghost use Rattle.half_edge_dcel.specs.Growth.{AddsEdges, joins, with_ends};
ghost use Rattle.half_edge_dcel.specs.MeshContents.{edges, HasRoom, IsMeshWithData};
ghost use Rattle.half_edge_dcel.specs.Shapes.{ExtendsLineTo, JoinsFirst, SplitsOnLine};

use crate::Dcel;
use crate::growth::push_defaults;
use half_edge_links::{FixedDirectedEdgeHandle, FixedVertexHandle};

impl<V, DE, UE, F> Dcel<V, DE, UE, F> {
    /// A new last vertex without edges, for which there is room.
    pub fn append_unconnected_vertex(&mut self, value: V) -> FixedVertexHandle
        requires room { HasRoom self.old 1 0 0 }
        ensures vertex { result ≡ length self.old.vertices }
        ensures contents { self.new ≡ record self.old {
          mesh = with_vertex self.old.mesh;
          vertices = self.old.vertices ++ value ∷ [];
        } }
        ensures outline { KeepsOneOutline self.old.mesh self.new.mesh }
        ensures whole { IsMeshWithData self.new }
    {
        FixedVertexHandle::from_index(self.links.push_vertex(value))
    }
}

impl<V, DE: Default, UE: Default, F> Dcel<V, DE, UE, F> {
    /// Makes the first edge, for which there is room. It joins vertices `a` and `b`.
    pub fn setup_initial_two_vertices(&mut self, a: FixedVertexHandle, b: FixedVertexHandle)
        requires no_edges { length self.old.undirected ≡ 0 }
        requires a_within { a < length self.old.vertices }
        requires b_within { b < length self.old.vertices }
        requires apart { a ≢ b }
        requires room { HasRoom self.old 0 1 0 }

        ensures links { JoinsFirst self.old.mesh self.new.mesh a b }
        ensures data { AddsEdgeData DE.is_default UE.is_default self.old.vertices self.old
            self.new }
        ensures edges { AddsEdges UE.is_default (edges self.old) (edges self.new) (joins a b ∷ []) }
    {
        self.links.connect(a.index(), b.index());
        push_defaults(&mut self.directed, 2);
        push_defaults(&mut self.undirected, 1);
    }

    /// Puts an edge from vertex `end` of a line of vertices to a new last vertex. There is room for
    /// both.
    pub fn extend_line(&mut self, end: FixedVertexHandle, value: V) -> FixedVertexHandle
        requires one_face { length self.old.faces ≡ 0 }
        requires within { end < length self.old.vertices }
        requires joined { IsSome (out_edge self.old.mesh end) }
        requires room { HasRoom self.old 1 1 0 }

        ensures vertex { result ≡ length self.old.vertices }
        ensures links { ExtendsLineTo self.old.mesh self.new.mesh (length self.old.directed) end
            result }
        ensures data { AddsEdgeData DE.is_default UE.is_default (self.old.vertices ++ value ∷ [])
            self.old self.new }
        ensures edges { AddsEdges UE.is_default (edges self.old) (edges self.new)
            (joins end result ∷ []) }
    {
        let v = self.links.push_vertex(value);
        self.links.extend_line(end.index(), v);
        push_defaults(&mut self.directed, 2);
        push_defaults(&mut self.undirected, 1);
        FixedVertexHandle::from_index(v)
    }

    /// Splits an edge of a line of vertices at a new last vertex. Gives the vertex and both parts,
    /// directed as `edge`, the first of which keeps the data of `edge`. There is room for the
    /// vertex and one more edge.
    pub fn split_edge_when_all_vertices_on_line(
        &mut self,
        edge: FixedDirectedEdgeHandle,
        value: V,
    ) -> (FixedVertexHandle, [FixedDirectedEdgeHandle; 2])
        requires one_face { length self.old.faces ≡ 0 }
        requires within { edge < length self.old.directed }
        requires room { HasRoom self.old 1 1 0 }

        ensures vertex { result.0 ≡ length self.old.vertices }
        ensures parts { result.1 ≡ edge ∷ (length self.old.directed + 1) ∷ [] }
        ensures links { SplitsOnLine self.old.mesh self.new.mesh (length self.old.directed) result.0
            edge }
        ensures data { AddsEdgeData DE.is_default UE.is_default (self.old.vertices ++ value ∷ [])
            self.old self.new }
        ensures edges { let m = self.old.mesh in
            AddsEdges UE.is_default (with_ends (edges self.old) (edge / 2)
            (along edge (origin m edge) result.0)) (edges self.new)
            (joins (origin m (rev edge)) result.0 ∷ []) }
    {
        let v = self.links.push_vertex(value);
        let [first, second] = self.links.split_line(edge.index(), v);
        push_defaults(&mut self.directed, 2);
        push_defaults(&mut self.undirected, 1);
        (
            FixedVertexHandle::from_index(v),
            [
                FixedDirectedEdgeHandle::from_index(first),
                FixedDirectedEdgeHandle::from_index(second),
            ],
        )
    }
}
