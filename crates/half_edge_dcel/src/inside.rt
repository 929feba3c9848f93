//! Changes inside the outer loop.
ghost use Rattle.std.specs.Prelude.{◌≡◌, ◌≢◌, ◌+◌, ◌*◌, ◌/◌, ◌<◌, ◌≤◌, ◌++◌, ◌∷◌, [], length};
ghost use Rattle.half_edge_links.specs.{along, face, face_edge, flipped, FlipsTriangles};
ghost use Rattle.half_edge_links.specs.{IsBetweenFaces, KeepsOneOutline, KeepsOuter, next, origin};
ghost use Rattle.half_edge_links.specs.{prev, rev};
ghost use Rattle.half_edge_dcel.specs.GrownData.{AddsData, MovesData};
ghost use Rattle.half_edge_dcel.specs.Growth.{AddsEdges, joins, SplitsEdge, with_ends};
ghost use Rattle.half_edge_dcel.specs.MeshContents.{edges, HasRoom, IsMeshWithData};
ghost use Rattle.half_edge_dcel.specs.Shapes.{InsertsInFace, SplitsBetweenFaces};

use crate::Dcel;
use crate::growth::{move_item, push_defaults};
use half_edge_links::{
    FixedDirectedEdgeHandle, FixedFaceHandle, FixedUndirectedEdgeHandle, FixedVertexHandle,
};

impl<V, DE, UE, F> Dcel<V, DE, UE, F> {
    /// Turns an edge between two inner faces clockwise, so that it joins the two opposite corners.
    /// All data stay.
    pub fn flip_cw(&mut self, edge: FixedUndirectedEdgeHandle)
        requires between { IsBetweenFaces self.old.mesh (2 * edge) }
        requires corners { let m = self.old.mesh in
            origin m (prev m (2 * edge)) ≢ origin m (prev m (rev (2 * edge))) }

        ensures mesh { self.new.mesh ≡ flipped self.old.mesh (2 * edge) }
        ensures contents { self.new ≡ record self.old { mesh = self.new.mesh } }
        ensures edges { let m = self.old.mesh in
            edges self.new ≡ with_ends (edges self.old) edge
            (joins (origin m (prev m (2 * edge))) (origin m (prev m (rev (2 * edge))))) }
        ensures triangles { FlipsTriangles self.old.mesh self.new.mesh (2 * edge) }
        ensures outer { KeepsOuter self.old.mesh self.new.mesh }
        ensures whole { KeepsOneOutline self.old.mesh self.new.mesh × IsMeshWithData self.new }
    {
        self.links.flip(edge.as_directed().index());
    }
}

impl<V, DE: Default, UE: Default, F: Default> Dcel<V, DE, UE, F> {
    /// Makes three faces of an inner one, each of one of its edges and a new last vertex. There is
    /// room for the vertex, three more edges and two more faces: `reserve_capacity` makes it.
    pub fn insert_into_triangle(&mut self, value: V, triangle: FixedFaceHandle) -> FixedVertexHandle
        requires inner { 0 < triangle }
        requires within { triangle ≤ length self.old.faces }
        requires room { HasRoom self.old 1 3 2 }

        ensures vertex { result ≡ length self.old.vertices }
        ensures links { InsertsInFace self.old.mesh self.new.mesh result
            (face_edge self.old.mesh triangle) }
        ensures data { AddsData DE.is_default UE.is_default F.is_default
            (self.old.vertices ++ value ∷ []) self.old self.new 6 3 2 }
        ensures edges { let m = self.old.mesh in let e = face_edge m triangle in
            AddsEdges UE.is_default (edges self.old) (edges self.new)
            (joins (origin m e) result ∷ joins (origin m (next m e)) result ∷ joins
            (origin m (prev m e)) result ∷ []) }
        ensures face { face self.old.mesh (face_edge self.old.mesh triangle) ≡ triangle }
    {
        let edge = self.links.face_edge(triangle.index());
        let v = self.links.push_vertex(value);
        self.links.insert_beside(v, edge);
        push_defaults(&mut self.directed, 6);
        push_defaults(&mut self.undirected, 3);
        push_defaults(&mut self.faces, 2);
        FixedVertexHandle::from_index(v)
    }

    /// Splits an edge between two inner faces at a new last vertex, which is joined to the two
    /// opposite corners. Gives the vertex and both parts, directed as `edge`, the first of which
    /// keeps the data of `edge`. There is room for the vertex, three more edges and two more faces.
    pub fn split_edge(
        &mut self,
        edge: FixedDirectedEdgeHandle,
        value: V,
    ) -> (FixedVertexHandle, [FixedDirectedEdgeHandle; 2])
        requires between { IsBetweenFaces self.old.mesh edge }
        requires room { HasRoom self.old 1 3 2 }

        ensures vertex { result.0 ≡ length self.old.vertices }
        ensures parts { let n = length self.old.directed in result.1 ≡ n ∷ (n + 3) ∷ [] }
        ensures links { SplitsBetweenFaces self.old.mesh self.new.mesh result.0 edge }
        ensures data { MovesData DE.is_default UE.is_default F.is_default
            (self.old.vertices ++ value ∷ []) self.old self.new edge 4 2 2 }
        ensures edges { let m = self.old.mesh in
            SplitsEdge UE.is_default (edges self.old) (edges self.new) (edge / 2)
            (along edge result.0 (origin m (prev m (rev edge)))) (joins (origin m edge) result.0)
            (joins (origin m (next m edge)) result.0 ∷ joins (origin m (prev m edge)) result.0 ∷
            []) }
    {
        let n = self.links.half_edge_count() as u32;
        let h = edge.index();
        let v = self.links.push_vertex(value);
        self.links.split_edge(v, h);
        move_item(&mut self.directed, h as usize, 0);
        move_item(&mut self.directed, edge.rev().index() as usize, 4);
        move_item(&mut self.undirected, h as usize / 2, 2);
        push_defaults(&mut self.faces, 2);
        (
            FixedVertexHandle::from_index(v),
            [
                FixedDirectedEdgeHandle::from_index(n),
                FixedDirectedEdgeHandle::from_index(n + 3),
            ],
        )
    }
}
