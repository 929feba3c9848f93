//! Data written, mapped and copied.
ghost use Rattle.std.specs.Prelude.{◌/◌};

use crate::elements::counts;
use crate::lookups::{Mesh, directed, has_edge, has_face, undirected_at};
use half_edge_links::FixedFaceHandle;
use std::alloc::Global;
use std::mem::replace;

pub fn write_directed(mesh: &mut Mesh, edge: u32, value: u32) -> Option<()> {
    let edge = directed(edge);
    if !has_edge(mesh, edge) {
        return None;
    }
    *mesh.directed_edge_data_mut(edge) = u16::try_from(value).unwrap_or(u16::MAX);
    Some(())
}

pub fn write_undirected(mesh: &mut Mesh, edge: u32, value: u32) -> Option<()> {
    let edge = undirected_at(mesh, edge)?;
    *mesh.undirected_edge_data_mut(edge) = value;
    Some(())
}

pub fn write_face(mesh: &mut Mesh, face: u32, value: u32) -> Option<()> {
    let face = FixedFaceHandle::from_index(face);
    if !has_face(mesh, face) {
        return None;
    }
    *mesh.face_data_mut(face) = u64::from(value);
    Some(())
}

/// A tenth of the data of each undirected edge takes their place.
pub fn map_undirected_edges(alloc: Global, mesh: &mut Mesh) -> Result<(), &'static str> {
    let former = replace(mesh, Mesh::new(alloc));
    match former.map_undirected_edges(|data| data / 10) {
        Ok(mapped) => {
            *mesh = mapped;
            Ok(())
        }
        Err(same) => {
            *mesh = same;
            Err("OutOfMemory")
        }
    }
}

/// A copy takes the mesh's place, which is cleared: the counts that this leaves.
pub fn copy(mesh: &mut Mesh) -> Result<[usize; 5], &'static str> {
    let Ok(copy) = mesh.clone() else {
        return Err("OutOfMemory");
    };
    mesh.clear();
    let left = counts(mesh);
    *mesh = copy;
    Ok(left)
}
