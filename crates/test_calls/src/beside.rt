//! Calls beside triangulations: generators of hints by themselves, data of edges, and answers to
//! locations.

use crate::derived::{compare_answers, compare_edges, each_answer};
use crate::markers::{free_and_fixed, made_and_unmade, markers, written};
use crate::named::copy_named;
use delaunay_core::point::Point2;
use delaunay_core::{HintGenerator, LastUsedVertexHintGenerator};
use hint_hierarchy::HierarchyHintGeneratorWithBranchFactor as Hierarchy;
use std::alloc::Global;
use std::io;
use test_reader::hints::generators::{duplicate, five, initialize};
use test_reader::hints::last_used;
use test_reader::{Call, index};

/// A generator that belongs to no triangulation.
#[derive(Drop)]
pub struct Beside {
    generator: LastUsedVertexHintGenerator,
    is_marked: bool,
}

impl Beside {
    /// Which marks the beginning of a copy or not.
    pub fn new(alloc: Global, is_marked: bool) -> Self {
        Beside {
            generator: last_used::new_generator(alloc),
            is_marked,
        }
    }

    /// Makes the call of a line, and tells whether there is such a call here.
    pub fn answer(&mut self, rt: &(impl Print + AllocGlobal), call: &Call<'_>) -> io::Result<bool> {
        if answer_generator::<Hierarchy<i64, 2>>(rt, call, self.is_marked)?
            || answer_values(rt, call)?
        {
            return Ok(true);
        }
        self.answer_alone(rt, call)
    }

    // Calls of the generator of last used vertices.
    fn answer_alone(
        &mut self,
        rt: &(impl Print + AllocGlobal),
        call: &Call<'_>,
    ) -> io::Result<bool> {
        let ([x, y, c, ..], generator) = (call.numbers, &mut self.generator);
        let point = Point2::new(x, y);
        let printed = match call.name {
            "alone_hint" => call.tell(rt, &last_used::hint(generator, point)),
            "alone_inserted" => call.tell(rt, &last_used::insert(generator, index(c), point)),
            "alone_removed" => call.tell(rt, &last_used::remove(generator, index(c), point)),
            "alone_lookup" => call.tell(rt, &last_used::look_up(generator, index(x))),
            "alone_duplicate" => call.tell(rt, &last_used::duplicate(generator, index(x))),
            "alone_initialized" => call.tell(rt, &last_used::initialized(rt.alloc())),
            _ => return Ok(false),
        };
        printed?;
        Ok(true)
    }
}

// Calls of a generator that is made for the call, and the copy of one.
fn answer_generator<L: HintGenerator<i64>>(
    rt: &(impl Print + AllocGlobal),
    call: &Call<'_>,
    is_marked: bool,
) -> io::Result<bool> {
    let printed = match call.name {
        "hierarchy_of_five" => five::<L>(rt),
        "initialize" => initialize::<L>(rt),
        "duplicate" => duplicate::<L>(rt, is_marked),
        "copy_named" => copy_named(rt, is_marked),
        _ => return Ok(false),
    };
    printed?;
    Ok(true)
}

// Calls of data of edges and of answers to locations.
fn answer_values(rt: &impl Print, call: &Call<'_>) -> io::Result<bool> {
    let printed = match call.name {
        "edges_made_constraints" => call.tell(rt, &made_and_unmade()),
        "edges_shown" => call.tell(rt, &free_and_fixed()),
        "edges_written" => call.tell(rt, &written()),
        "markers" => call.tell(rt, &markers()),
        "answers_shown" => call.tell(rt, &each_answer()),
        _ => return compare_values(rt, call),
    };
    printed?;
    Ok(true)
}

// Calls that compare two of them.
fn compare_values(rt: &impl Print, call: &Call<'_>) -> io::Result<bool> {
    let [first, second, third, fourth, ..] = call.numbers;
    let (number, other) = (index(second), index(fourth));
    let compared = match call.name {
        "compare_edges" => compare_edges((first != 0, number), (third != 0, other)),
        "compare_answers" => compare_answers((first, number), (third, other)),
        _ => return Ok(false),
    };
    call.tell(rt, &compared)?;
    Ok(true)
}
