//! Growth beside the outer face.
ghost use Rattle.std.specs.Prelude.{◌≡◌, ◌≢◌, ◌+◌, ◌/◌, ◌<◌, ◌++◌, ◌∷◌, [], length};
ghost use Rattle.half_edge_links.specs.{along, face, IsHalfSplittable, next, origin, prev, rev};
ghost use Rattle.half_edge_dcel.specs.GrownData.{AddsData, MovesData};
ghost use Rattle.half_edge_dcel.specs.Growth.{AddsEdges, joins, SplitsEdge};
ghost use Rattle.half_edge_dcel.specs.MeshContents.{edges, HasRoom};
ghost use Rattle.half_edge_dcel.specs.Shapes.{AddsFaceTo, ClosesTriangle, SplitsBesideOuter};

use crate::Dcel;
use crate::growth::{move_item, push_defaults};
use half_edge_links::{FixedDirectedEdgeHandle, FixedVertexHandle};

impl<V, DE: Default, UE: Default, F: Default> Dcel<V, DE, UE, F> {
    /// Makes a face of an outer edge and a new last vertex, with two new edges. There is room for
    /// all of them.
    pub fn create_new_face_adjacent_to_edge(
        &mut self,
        edge: FixedDirectedEdgeHandle,
        value: V,
    ) -> FixedVertexHandle
        requires within { edge < length self.old.directed }
        requires outer { face self.old.mesh edge ≡ 0 }
        requires room { HasRoom self.old 1 2 1 }

        ensures vertex { result ≡ length self.old.vertices }
        ensures links { AddsFaceTo self.old.mesh self.new.mesh (length self.old.directed) result
            edge }
        ensures data { AddsData DE.is_default UE.is_default F.is_default
            (self.old.vertices ++ value ∷ []) self.old self.new 4 2 1 }
        ensures edges { let m = self.old.mesh in
            AddsEdges UE.is_default (edges self.old) (edges self.new)
            (joins (origin m (rev edge)) result ∷ joins result (origin m edge) ∷ []) }
    {
        let v = self.links.push_vertex(value);
        self.links.add_face_beside(edge.index(), v);
        push_defaults(&mut self.directed, 4);
        push_defaults(&mut self.undirected, 2);
        push_defaults(&mut self.faces, 1);
        FixedVertexHandle::from_index(v)
    }

    /// Makes a face of an outer edge, the one after it and a new edge. Gives the new outer edge,
    /// from the start of `edge` to the end of the one after it. There is room for the edge and the
    /// face.
    pub fn create_single_face_between_edge_and_next(
        &mut self,
        edge: FixedDirectedEdgeHandle,
    ) -> FixedDirectedEdgeHandle
        requires within { edge < length self.old.directed }
        requires outer { face self.old.mesh edge ≡ 0 }
        requires apart { let m = self.old.mesh in origin m (rev (next m edge)) ≢ origin m edge }
        requires room { HasRoom self.old 0 1 1 }

        ensures edge { result ≡ length self.old.directed + 1 }
        ensures links { ClosesTriangle self.old.mesh self.new.mesh (length self.old.directed) edge }
        ensures data { AddsData DE.is_default UE.is_default F.is_default self.old.vertices self.old
            self.new 2 1 1 }
        ensures edges { let m = self.old.mesh in
            AddsEdges UE.is_default (edges self.old) (edges self.new)
            (joins (origin m (rev (next m edge))) (origin m edge) ∷ []) }
    {
        let n = self.num_directed_edges() as u32;
        self.links.close(edge.index());
        push_defaults(&mut self.directed, 2);
        push_defaults(&mut self.undirected, 1);
        push_defaults(&mut self.faces, 1);
        FixedDirectedEdgeHandle::from_index(n + 1)
    }

    /// Splits an edge with an inner face on its left and the outer one on its right at a new last
    /// vertex, which is joined to the opposite corner. Gives the vertex and both parts, directed as
    /// `edge`, the first of which keeps the data of `edge`. There is room for the vertex, two more
    /// edges and one more face.
    pub fn split_half_edge(
        &mut self,
        edge: FixedDirectedEdgeHandle,
        value: V,
    ) -> (FixedVertexHandle, [FixedDirectedEdgeHandle; 2])
        requires half { IsHalfSplittable self.old.mesh edge }
        requires room { HasRoom self.old 1 2 1 }

        ensures vertex { result.0 ≡ length self.old.vertices }
        ensures parts { let n = length self.old.directed in result.1 ≡ n ∷ (n + 2) ∷ [] }
        ensures links { SplitsBesideOuter self.old.mesh self.new.mesh (length self.old.directed)
            result.0 edge }
        ensures data { MovesData DE.is_default UE.is_default F.is_default
            (self.old.vertices ++ value ∷ []) self.old self.new edge 2 1 1 }
        ensures edges { let m = self.old.mesh in
            SplitsEdge UE.is_default (edges self.old) (edges self.new) (edge / 2)
            (along edge (origin m (prev m edge)) result.0) (joins (origin m edge) result.0)
            (joins result.0 (origin m (rev edge)) ∷ []) }
    {
        let h = edge.index();
        let v = self.links.push_vertex(value);
        let [first, second] = self.links.split_half_edge(h, v);
        move_item(&mut self.directed, h as usize, 0);
        move_item(&mut self.directed, edge.rev().index() as usize, 2);
        move_item(&mut self.undirected, h as usize / 2, 1);
        push_defaults(&mut self.faces, 1);
        (
            FixedVertexHandle::from_index(v),
            [
                FixedDirectedEdgeHandle::from_index(first),
                FixedDirectedEdgeHandle::from_index(second),
            ],
        )
    }
}
