//! How many constraints lie between the faces and the outside.
use crate::Query;
use crate::raw::NumberedPoint;
use crate::statuses::{OUT_OF_MEMORY, TOO_SHORT, WELL};
use delaunay_extensions::face_layers;
use delaunay_interface::Triangulation;
use std::alloc::Global;

/// The layer of each face.
pub struct ListLayers;

impl Query for ListLayers {
    ghost use Rattle.c_calls.specs.Layers.{ListsLayers};

    type Item = u32;

    type Told = usize;

    ghost tells = { λ _ v status _ told old new. ListsLayers v.drawing v.links v.marked status told
        old new };

    fn ask<T: Triangulation<Vertex = NumberedPoint>>(
        &self,
        points: &T,
        alloc: Global,
        layers: &mut [u32],
        length: &mut usize,
    ) -> u32 {
        let count = points.num_inner_faces();
        *length = count;
        if layers.len() < count {
            return TOO_SHORT;
        }
        points.recall_invariant();
        let Ok(found) = face_layers(points, alloc) else {
            return OUT_OF_MEMORY;
        };
        for index in 0..count {
            layers[index] = found[index + 1];
        }
        WELL
    }
}
