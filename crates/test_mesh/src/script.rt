//! A line of the script: the name of a call and up to three numbers, and what the call gives.

use crate::comparisons::{compare_edges, compare_names, compare_voronoi, print_edge};
use crate::data::{copy, map_undirected_edges, write_directed, write_face, write_undirected};
use crate::elements::{
    counts, directed_edge, edge_data, edge_kind, edges_between, face, links, undirected_edge,
    vertex,
};
use crate::ends::{copies, last_names, lasts, lengths};
use crate::growth::{
    append_unconnected_vertex, create_new_face_adjacent_to_edge,
    create_single_face_between_edge_and_next, extend_line, flip_cw, insert_into_triangle,
    setup_initial_two_vertices, split_edge, split_edge_when_all_vertices_on_line, split_half_edge,
    update_vertex,
};
use crate::indexes::{forms, names_from_two};
use crate::iterators::{lists, names, round};
use crate::lookups::Mesh;
use crate::removal::{
    disconnect_edge_strip, isolate_vertex_and_fill_hole, remove_when_degenerate, swap_remove_vertex,
};
use crate::room::{
    few_enough, full, large_data, links_of_a_line, past_the_limit, reserve, with_capacity,
};
use crate::rounds::{from_behind, from_both_ends};
use crate::voronoi::{undirected_voronoi_edge, voronoi_edge, voronoi_face, voronoi_vertex};
use half_edge_dcel::MeshViews;
use std::io;
use test_reader::Call;

// As many as a test makes fit a byte.
fn byte(number: u32) -> u8 {
    u8::try_from(number).unwrap_or(u8::MAX)
}

/// Makes the call that a line asks for, and prints what it gives. Here are those that start a mesh,
/// and below those that let it grow, that remove, that write, and that read.
pub fn answer(rt: &(impl Print + AllocGlobal), mesh: &mut Mesh, call: &Call<'_>) -> io::Result<()> {
    let [a, b, _] = call.indexes();
    match call.name {
        "clear" => {
            mesh.clear();
            call.tell(rt, &counts(mesh))
        }
        "append_unconnected_vertex" => call.tell(rt, &append_unconnected_vertex(mesh, byte(a))),
        "setup_initial_two_vertices" => call.tell(rt, &setup_initial_two_vertices(mesh, a, b)),
        "extend_line" => call.tell(rt, &extend_line(mesh, a, byte(b))),
        "split_edge_when_all_vertices_on_line" => {
            call.tell(rt, &split_edge_when_all_vertices_on_line(mesh, a, byte(b)))
        }
        _ => grow(rt, mesh, call),
    }
}

fn grow(rt: &(impl Print + AllocGlobal), mesh: &mut Mesh, call: &Call<'_>) -> io::Result<()> {
    let [a, b, _] = call.indexes();
    match call.name {
        "create_new_face_adjacent_to_edge" => {
            call.tell(rt, &create_new_face_adjacent_to_edge(mesh, a, byte(b)))
        }
        "create_single_face_between_edge_and_next" => {
            call.tell(rt, &create_single_face_between_edge_and_next(mesh, a))
        }
        "insert_into_triangle" => call.tell(rt, &insert_into_triangle(mesh, byte(a), b)),
        "split_half_edge" => call.tell(rt, &split_half_edge(mesh, a, byte(b))),
        "split_edge" => call.tell(rt, &split_edge(mesh, a, byte(b))),
        "flip_cw" => call.tell(rt, &flip_cw(mesh, a)),
        _ => remove(rt, mesh, call),
    }
}

fn remove(rt: &(impl Print + AllocGlobal), mesh: &mut Mesh, call: &Call<'_>) -> io::Result<()> {
    let [a, b, _] = call.indexes();
    match call.name {
        "swap_remove_vertex" => call.tell(rt, &swap_remove_vertex(mesh, a)),
        "remove_when_degenerate" => call.tell(rt, &remove_when_degenerate(mesh, a)),
        "disconnect_edge_strip" => call.tell(rt, &disconnect_edge_strip(mesh, a)),
        "isolate_vertex_and_fill_hole" => call.tell(rt, &isolate_vertex_and_fill_hole(mesh, a)),
        "update_vertex" => call.tell(rt, &update_vertex(mesh, a, byte(b))),
        _ => write(rt, mesh, call),
    }
}

fn write(rt: &(impl Print + AllocGlobal), mesh: &mut Mesh, call: &Call<'_>) -> io::Result<()> {
    let [a, b, _] = call.indexes();
    match call.name {
        "directed_edge_data_mut" => call.tell(rt, &write_directed(mesh, a, b)),
        "undirected_edge_data_mut" => call.tell(rt, &write_undirected(mesh, a, b)),
        "face_data_mut" => call.tell(rt, &write_face(mesh, a, b)),
        "map_undirected_edges" => call.tell(rt, &map_undirected_edges(rt.alloc(), mesh)),
        "clone" => call.tell(rt, &copy(mesh)),
        _ => make_room(rt, mesh, call),
    }
}

fn make_room(rt: &(impl Print + AllocGlobal), mesh: &mut Mesh, call: &Call<'_>) -> io::Result<()> {
    let [a, b, c] = call.indexes();
    match call.name {
        "reserve_capacity" => call.tell(rt, &reserve(mesh, a, b, c)),
        "past_the_limit" => call.tell(rt, &past_the_limit(mesh)),
        "with_capacity" => call.tell(rt, &with_capacity(rt.alloc(), a, b, c)),
        "few_enough" => call.tell(rt, &few_enough(rt.alloc(), a, b, c)),
        "large_data" => call.tell(rt, &large_data(rt.alloc())),
        "links_of_a_line" => call.tell(rt, &links_of_a_line(rt.alloc())),
        _ => read(rt, mesh, call),
    }
}

fn read(rt: &impl Print, mesh: &Mesh, call: &Call<'_>) -> io::Result<()> {
    let [a, b, _] = call.indexes();
    match call.name {
        "vertex" => call.tell(rt, &vertex(mesh, a)),
        "directed_edge" => call.tell(rt, &directed_edge(mesh, a)),
        "edge_kind" => call.tell(rt, &edge_kind(mesh, a)),
        "undirected_edge" => call.tell(rt, &undirected_edge(mesh, a)),
        "edge_data" => call.tell(rt, &edge_data(mesh, a)),
        "face" => call.tell(rt, &face(mesh, a)),
        "links" => call.tell(rt, &links(mesh, a)),
        "get_edge_from_neighbors" => call.tell(rt, &edges_between(mesh, a, b)),
        _ => list(rt, mesh, call),
    }
}

fn list(rt: &impl Print, mesh: &Mesh, call: &Call<'_>) -> io::Result<()> {
    let [a, ..] = call.indexes();
    match call.name {
        "counts" => call.tell(rt, &counts(mesh)),
        "out_edges" => call.tell(rt, &round(mesh, a)),
        "rounds_from_behind" => call.tell(rt, &from_behind(mesh, a)),
        "rounds_from_both_ends" => call.tell(rt, &from_both_ends(mesh, a)),
        "lists" => call.tell(rt, &lists(mesh)),
        "names" => call.tell(rt, &names(mesh)),
        "lengths" => call.tell(rt, &lengths(mesh)),
        "lasts" => call.tell(rt, &lasts(mesh)),
        "last_names" => call.tell(rt, &last_names(mesh)),
        "copies" => call.tell(rt, &copies(mesh)),
        "show" => call.tell(rt, &mesh.vertices()),
        _ => compare(rt, mesh, call),
    }
}

fn compare(rt: &impl Print, mesh: &Mesh, call: &Call<'_>) -> io::Result<()> {
    let [a, b, _] = call.indexes();
    match call.name {
        "voronoi_edge" => call.tell(rt, &voronoi_edge(mesh, a)),
        "undirected_voronoi_edge" => call.tell(rt, &undirected_voronoi_edge(mesh, a)),
        "voronoi_face" => call.tell(rt, &voronoi_face(mesh, a)),
        "voronoi_vertex" => call.tell(rt, &voronoi_vertex(mesh, a)),
        "compare_edges" => call.tell(rt, &compare_edges(mesh, a, b)),
        "compare_voronoi" => call.tell(rt, &compare_voronoi(mesh, a, b)),
        "print_edge" => print_edge(rt, mesh, a),
        _ => name(rt, call),
    }
}

// The calls that need no mesh.
fn name(rt: &impl Print, call: &Call<'_>) -> io::Result<()> {
    let [a, b, _] = call.indexes();
    match call.name {
        "forms" => call.tell(rt, &forms(a)),
        "names_from_two" => call.tell(rt, &names_from_two()),
        "compare_names" => call.tell(rt, &compare_names(a, b)),
        "is_full" => call.tell(rt, &full(a)),
        _ => call.tell(rt, &"no such call"),
    }
}
