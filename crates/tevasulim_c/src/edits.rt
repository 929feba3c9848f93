//! The calls that edit a triangulation.
ghost use Rattle.c_calls.specs.{Answers.InsertsAt, Calls.EditsOpen, unnumbered_points};
ghost use Rattle.c_calls.specs.Edits.{AddsKept, AllowsConstraints, ClearsKept, EditsAt};
ghost use Rattle.c_calls.specs.{Edits.ReleasesKept, Edits.RemovesKept, Kept.unnumbered_at};
ghost use Rattle.c_calls.specs.Lists.{AddsChainKept, InsertsListKept, NumbersKept};

use c_calls::{Handle, RawPoint};
use std::alloc::Global;

#[unsafe(no_mangle)]
pub extern "C" fn tevasulim_allow_constraints(alloc: Global, handle: &mut Handle) -> u32
    ensures { EditsOpen (EditsAt (AllowsConstraints result)) result handle.old.kept
        handle.new.kept }
{
    handle.allow_constraints(alloc)
}

#[unsafe(no_mangle)]
pub extern "C" fn tevasulim_clear(alloc: Global, handle: &mut Handle) -> u32
    ensures { EditsOpen (EditsAt (ClearsKept result)) result handle.old.kept handle.new.kept }
{
    handle.clear(alloc)
}

#[unsafe(no_mangle)]
pub extern "C" fn tevasulim_insert(
    alloc: Global,
    handle: &mut Handle,
    x: i32,
    y: i32,
    vertex: &mut u32,
) -> u32
    ensures { EditsOpen (InsertsAt (unnumbered_at x y) result vertex.new) result handle.old.kept
        handle.new.kept }
{
    handle.insert(alloc, x, y, vertex)
}

#[unsafe(no_mangle)]
pub extern "C" fn tevasulim_insert_all(
    alloc: Global,
    handle: &mut Handle,
    positions: &[RawPoint],
    vertices: &mut [u32],
) -> u32
    ensures { EditsOpen (EditsAt (InsertsListKept (unnumbered_points positions.now) result
        vertices.old vertices.new)) result handle.old.kept handle.new.kept }
{
    handle.insert_all(alloc, positions, vertices)
}

#[unsafe(no_mangle)]
pub extern "C" fn tevasulim_remove(alloc: Global, handle: &mut Handle, vertex: u32) -> u32
    ensures { EditsOpen (EditsAt (RemovesKept vertex result)) result handle.old.kept
        handle.new.kept }
{
    handle.remove(alloc, vertex)
}

#[unsafe(no_mangle)]
pub extern "C" fn tevasulim_constrain(alloc: Global, handle: &mut Handle, from: u32, to: u32) -> u32
    ensures { EditsOpen (EditsAt (AddsKept from to result)) result handle.old.kept handle.new.kept }
{
    handle.constrain(alloc, from, to)
}

#[unsafe(no_mangle)]
pub extern "C" fn tevasulim_constrain_chain(
    alloc: Global,
    handle: &mut Handle,
    vertices: &[u32],
    closed: bool,
    made: &mut usize,
) -> u32
    ensures { EditsOpen (EditsAt (AddsChainKept vertices.now closed result made.new)) result
        handle.old.kept handle.new.kept }
{
    handle.constrain_chain(alloc, vertices, closed, made)
}

#[unsafe(no_mangle)]
pub extern "C" fn tevasulim_release(alloc: Global, handle: &mut Handle, from: u32, to: u32) -> u32
    ensures { EditsOpen (EditsAt (ReleasesKept from to result)) result handle.old.kept
        handle.new.kept }
{
    handle.release(alloc, from, to)
}

#[unsafe(no_mangle)]
pub extern "C" fn tevasulim_set_numbers(
    alloc: Global,
    handle: &mut Handle,
    vertices: &[u32],
    numbers: &[u64],
) -> u32
    ensures { EditsOpen (EditsAt (NumbersKept vertices.now numbers.now result)) result
        handle.old.kept handle.new.kept }
{
    handle.set_numbers(alloc, vertices, numbers)
}
