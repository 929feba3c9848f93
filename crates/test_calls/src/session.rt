//! A line of the script: the name of a call and some numbers, and what the call gives.

use crate::beside::Beside;
use crate::bulk::insert_many;
use crate::constraints::{chain, constrain, is_chain};
use crate::edits::edit;
use crate::elements::Shown;
use crate::flips::insert_counting;
use crate::hints::{Choosing, choice_of, tell_listing};
use crate::journal::{Edits, edit_of, replay_all, tell_outcomes};
use crate::lists::list;
use crate::points::{Constrained, Plain, Points};
use crate::queries::{nearest, query};
use crate::shapes::ask_shape;
use crate::vertices::{TaggedVertex, listed_vertices, vertex_of};
use crate::walks::cross;
use crate::writes::write_all;
use delaunay_interface::Triangulation;
use std::alloc::{AllocError, Global};
use std::io;
use std::mem::{replace as put, swap};
use test_reader::hints::Choice;
use test_reader::{Answers, Call, index};

/// A triangulation with its last copy.
#[derive(Drop)]
pub struct Session<L: Choosing> {
    points: Points<L>,
    copy: Points<L>,
    choice: Choice,
    // The edits that are still to be made.
    edits: Edits,
    beside: Beside,
    // Whether lines `begin` and `end` stand beside each call, so that growths are counted from the
    // one to the next line written.
    is_marked: bool,
}

// Calls of both types.
fn answer_either<
    UE: Shown,
    T: Triangulation<
        Vertex = TaggedVertex,
        DirectedEdge = u32,
        UndirectedEdge = UE,
        UndirectedUserData = u32,
        Face = u32,
    >,
>(
    rt: &(impl Print + AllocGlobal),
    points: &mut T,
    call: &Call<'_>,
    vertices: Vec<TaggedVertex>,
) -> io::Result<()> {
    if call.name == "write_data" {
        write_all(points, index(call.numbers[0]));
        return call.tell(rt, &());
    }
    if edit(rt, points, call)?
        || query(rt, points, call)?
        || list(rt, points, call)?
        || ask_shape(rt, points, call)?
        || insert_many(rt, points, call, vertices)?
    {
        return Ok(());
    }
    call.tell(rt, &"no such call")
}

fn answer_plain<L: Choosing>(
    rt: &(impl Print + AllocGlobal),
    points: &mut Plain<L>,
    call: &Call<'_>,
    vertices: Vec<TaggedVertex>,
) -> io::Result<()> {
    let vertex = vertex_of(call);
    match call.name {
        "insert_counting" => call.tell(rt, &insert_counting(points, vertex)),
        "nearest_neighbor" => call.tell(rt, &nearest(points, vertex.position)),
        _ => answer_either(rt, points, call, vertices),
    }
}

fn answer_constrained<L: Choosing>(
    rt: &(impl Print + AllocGlobal),
    points: &mut Constrained<L>,
    call: &Call<'_>,
    vertices: Vec<TaggedVertex>,
) -> io::Result<()> {
    if cross(rt, points, call)? || constrain(rt, points, call)? {
        return Ok(());
    }
    if is_chain(call.name) {
        return chain(rt, points, call, vertices);
    }
    answer_either(rt, points, call, vertices)
}

impl<L: Choosing> Session<L> {
    /// With hints of this kind, and with marks, or with those that were last used.
    pub fn new(alloc: Global, named: Option<usize>) -> Self {
        Session {
            points: Points::new(alloc),
            copy: Points::new(alloc),
            choice: choice_of(named.unwrap_or(0)),
            edits: Vec::new(alloc),
            beside: Beside::new(alloc, named.is_some()),
            is_marked: named.is_some(),
        }
    }

    fn mark(&self, rt: &impl Print, word: &str) -> io::Result<()> {
        if self.is_marked {
            println!(rt; "{word}")?;
        }
        Ok(())
    }

    fn copy(&mut self) -> Result<(), AllocError> {
        self.copy = self.points.try_clone()?;
        Ok(())
    }

    // Goes on with the plain triangulation as one with constraints.
    fn take_constraints(&mut self, alloc: Global) -> Result<(), AllocError> {
        let (points, told) = put(&mut self.points, Points::new(alloc)).with_constraints();
        self.points = points;
        told
    }

    // Begins anew, with hints of this kind.
    fn renew(&mut self, number: i64, alloc: Global) {
        self.points = Points::new(alloc);
        self.choice = choice_of(usize::try_from(number).unwrap_or(0));
    }

    // Makes the edits of the list, and begins a new one.
    fn replay(&mut self, rt: &(impl Print + AllocGlobal), call: &Call<'_>) -> io::Result<()> {
        let edits = put(&mut self.edits, Vec::new(rt.alloc()));
        let outcomes = match &mut self.points {
            Points::Plain(points) => replay_all(points, edits),
            Points::Constrained(points) => replay_all(points, edits),
        };
        tell_outcomes(rt, call, outcomes)
    }

    // Calls that change the session itself.
    fn change(
        &mut self,
        rt: &(impl Print + AllocGlobal),
        call: &Call<'_>,
        vertices: Vec<TaggedVertex>,
    ) -> io::Result<()> {
        match call.name {
            "from_delaunay" => call.tell(rt, &self.take_constraints(rt.alloc())),
            "try_clone" => call.tell(rt, &self.copy()),
            "swap" => call.tell(rt, &swap(&mut self.points, &mut self.copy)),
            "begin" => call.tell(rt, &self.renew(call.numbers[0], rt.alloc())),
            _ => self.list(rt, call, vertices),
        }
    }

    // Lists of edits, and calls of what stands beside the triangulation.
    fn list(
        &mut self,
        rt: &(impl Print + AllocGlobal),
        call: &Call<'_>,
        vertices: Vec<TaggedVertex>,
    ) -> io::Result<()> {
        if let Some(edit) = edit_of(call) {
            return call.tell(rt, &self.edits.push(edit));
        }
        if self.beside.answer(rt, call)? {
            return Ok(());
        }
        match call.name {
            "replay" => self.replay(rt, call),
            "told" | "asked" => tell_listing(rt, self.points.generator(), call),
            _ => self.ask(rt, call, vertices),
        }
    }

    // Calls of the triangulation.
    fn ask(
        &mut self,
        rt: &(impl Print + AllocGlobal),
        call: &Call<'_>,
        vertices: Vec<TaggedVertex>,
    ) -> io::Result<()> {
        match &mut self.points {
            Points::Plain(points) => answer_plain(rt, points, call, vertices),
            Points::Constrained(points) => answer_constrained(rt, points, call, vertices),
        }
    }
}

impl<L: Choosing> Answers for Session<L> {
    fn answer(&mut self, rt: &(impl Print + AllocGlobal), call: &Call<'_>) -> io::Result<()> {
        let vertices = listed_vertices(call, rt.alloc())?;
        self.points.generator().choose(self.choice);
        self.mark(rt, "begin")?;
        self.change(rt, call, vertices)?;
        self.mark(rt, "end")
    }
}
