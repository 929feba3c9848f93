//! A hint generator that has several others, of which one is chosen.
ghost use Rattle.std.specs.Prelude.{◌≡◌, Some};
ghost use Rattle.plane.specs.{IsAtMost, IsAtMostWith, IsAtMostWithout, Point};
ghost use Rattle.delaunay_core.specs.{place_if, place_of};
ghost use Rattle.test_reader.specs.Unions.{IsHeldIn};

use crate::hints::listing::Listing;
use crate::hints::telling::tell_inserted;
use crate::hints::{Always1000, EachInTurn};
use delaunay_core::math::PlaneTests;
use delaunay_core::point::{Point2, SpadeNum};
use delaunay_core::{HintGenerator, LastUsedVertexHintGenerator};
use half_edge_links::FixedVertexHandle;
use std::alloc::Global;
use std::cell::Cell;

/// Which generator is asked.
#[derive(Clone, Copy, Debug, PartialEq, Eq)]
pub enum Choice {
    LastUsed,
    EachInTurn,
    Always1000,
    First,
    Second,
    Third,
    Fourth,
    Fifth,
    /// The five and the one that answers 0 to 20, in turn.
    InTurn,
    Listing,
}

/// Has a generator of each kind. The chosen one is told of insertions and asked; all are told of
/// removals.
#[derive(Drop)]
pub struct Switching<A: Drop, B: Drop, C: Drop, D: Drop, E: Drop> {
    choice: Cell<Choice>,
    next: Cell<u32>,
    last_used: LastUsedVertexHintGenerator,
    each_in_turn: EachInTurn,
    always: Always1000,
    first: A,
    second: B,
    third: C,
    fourth: D,
    fifth: E,
    pub listing: Listing,
}

impl<A: Drop, B: Drop, C: Drop, D: Drop, E: Drop> Switching<A, B, C, D, E> {
    // These five, and a new one of each other kind. The one that was last used is asked first.
    fn of(first: A, second: B, third: C, fourth: D, fifth: E, alloc: Global) -> Self
        ensures first { result.first ≡ first }
        ensures second { result.second ≡ second }
        ensures third { result.third ≡ third }
        ensures fourth { result.fourth ≡ fourth }
        ensures fifth { result.fifth ≡ fifth }
    {
        Switching {
            choice: Cell::new(Choice::LastUsed),
            next: Cell::new(0),
            last_used: HintGenerator::<i64>::new(alloc),
            each_in_turn: HintGenerator::<i64>::new(alloc),
            always: HintGenerator::<i64>::new(alloc),
            first,
            second,
            third,
            fourth,
            fifth,
            listing: HintGenerator::<i64>::new(alloc),
        }
    }

    /// Asks this one from now on.
    pub fn choose(&self, choice: Choice) {
        self.choice.set(choice);
    }

    fn is_told(&self, choice: Choice) -> bool {
        let chosen = self.choice.get();
        chosen == choice || chosen == Choice::InTurn
    }

    // The one that is to be asked.
    fn asked(&self) -> Choice {
        if self.choice.get() != Choice::InTurn {
            return self.choice.get();
        }
        let next = self.next.get();
        self.next.set(if next < 5 { next + 1 } else { 0 });
        match next {
            0 => Choice::First,
            1 => Choice::Second,
            2 => Choice::Third,
            3 => Choice::Fourth,
            4 => Choice::Fifth,
            _ => Choice::EachInTurn,
        }
    }
}

impl<
    S: SpadeNum,
    A: HintGenerator<S>,
    B: HintGenerator<S>,
    C: HintGenerator<S>,
    D: HintGenerator<S>,
    E: HintGenerator<S>,
> HintGenerator<S> for Switching<A, B, C, D, E> {
    ghost use Rattle.test_reader.specs.Unions.{IsHeldIn};

    ghost holds = { IsHeldIn A.holds B.holds C.holds D.holds E.holds };

    fn new(alloc: Global) -> Self {
        Switching::of(
            A::new(alloc),
            B::new(alloc),
            C::new(alloc),
            D::new(alloc),
            E::new(alloc),
            alloc,
        )
    }

    fn duplicate(&self) -> Self {
        Switching {
            choice: Cell::new(self.choice.get()),
            next: Cell::new(self.next.get()),
            last_used: HintGenerator::<S>::duplicate(&self.last_used),
            each_in_turn: HintGenerator::<S>::duplicate(&self.each_in_turn),
            always: HintGenerator::<S>::duplicate(&self.always),
            first: self.first.duplicate(),
            second: self.second.duplicate(),
            third: self.third.duplicate(),
            fourth: self.fourth.duplicate(),
            fifth: self.fifth.duplicate(),
            listing: HintGenerator::<S>::duplicate(&self.listing),
        }
    }

    fn get_hint<P: PlaneTests<S>>(&self, position: Point2<S>, tests: &P) -> FixedVertexHandle
        requires held { IsAtMost (P.sites tests.now)
            (IsHeldIn A.holds B.holds C.holds D.holds E.holds self.now) }
        requires covered { P.covered tests.now (place_of S.whole position) }
    {
        match self.asked() {
            Choice::EachInTurn => self.each_in_turn.get_hint(position, tests),
            Choice::Always1000 => self.always.get_hint(position, tests),
            Choice::First => self.first.get_hint(position, tests),
            Choice::Second => self.second.get_hint(position, tests),
            Choice::Third => self.third.get_hint(position, tests),
            Choice::Fourth => self.fourth.get_hint(position, tests),
            Choice::Fifth => self.fifth.get_hint(position, tests),
            Choice::Listing => self.listing.get_hint(position, tests),
            _ => self.last_used.get_hint(position, tests),
        }
    }

    fn notify_vertex_lookup(&self, vertex: FixedVertexHandle) {
        HintGenerator::<S>::notify_vertex_lookup(&self.last_used, vertex);
        self.first.notify_vertex_lookup(vertex);
        self.second.notify_vertex_lookup(vertex);
        self.third.notify_vertex_lookup(vertex);
        self.fourth.notify_vertex_lookup(vertex);
        self.fifth.notify_vertex_lookup(vertex);
    }

    fn notify_vertex_inserted<P: PlaneTests<S>>(
        &mut self,
        vertex: FixedVertexHandle,
        position: Point2<S>,
        tests: &P,
    )
        requires held { IsAtMost (P.sites tests.now)
            (IsHeldIn A.holds B.holds C.holds D.holds E.holds self.old) }
        requires site { P.sites tests.now (place_of S.whole position) }
        ensures { IsAtMostWith (IsHeldIn A.holds B.holds C.holds D.holds E.holds self.old)
            (IsHeldIn A.holds B.holds C.holds D.holds E.holds self.new)
            (place_of S.whole position) }
    {
        self.last_used
            .notify_vertex_inserted(vertex, position, tests);
        let (first, second) = (self.is_told(Choice::First), self.is_told(Choice::Second));
        let (third, fourth) = (self.is_told(Choice::Third), self.is_told(Choice::Fourth));
        let fifth = self.is_told(Choice::Fifth);
        if self.is_told(Choice::Listing) {
            self.listing.notify_vertex_inserted(vertex, position, tests);
        }
        tell_inserted(&mut self.first, first, vertex, position, tests);
        tell_inserted(&mut self.second, second, vertex, position, tests);
        tell_inserted(&mut self.third, third, vertex, position, tests);
        tell_inserted(&mut self.fourth, fourth, vertex, position, tests);
        tell_inserted(&mut self.fifth, fifth, vertex, position, tests);
    }

    fn notify_vertex_removed<P: PlaneTests<S>>(
        &mut self,
        swapped_in_point: Option<Point2<S>>,
        vertex: FixedVertexHandle,
        position: Point2<S>,
        tests: &P,
    )
        requires held { IsAtMost (P.sites tests.now)
            (IsHeldIn A.holds B.holds C.holds D.holds E.holds self.old) }
        requires site { P.sites tests.now (place_of S.whole position) }
        requires swapped_site { (p : Point) → place_if S.whole swapped_in_point ≡ Some p →
            P.sites tests.now p }
        ensures { IsAtMostWithout (IsHeldIn A.holds B.holds C.holds D.holds E.holds self.old)
            (IsHeldIn A.holds B.holds C.holds D.holds E.holds self.new) (place_of S.whole position)
            (place_if S.whole swapped_in_point) }
    {
        self.last_used
            .notify_vertex_removed(swapped_in_point, vertex, position, tests);
        if self.is_told(Choice::Listing) {
            self.listing
                .notify_vertex_removed(swapped_in_point, vertex, position, tests);
        }
        self.first
            .notify_vertex_removed(swapped_in_point, vertex, position, tests);
        self.second
            .notify_vertex_removed(swapped_in_point, vertex, position, tests);
        self.third
            .notify_vertex_removed(swapped_in_point, vertex, position, tests);
        self.fourth
            .notify_vertex_removed(swapped_in_point, vertex, position, tests);
        self.fifth
            .notify_vertex_removed(swapped_in_point, vertex, position, tests);
    }

    fn initialize_from_triangulation<P: PlaneTests<S>>(
        alloc: Global,
        positions: &[Point2<S>],
        tests: &P,
    ) -> Self {
        Switching::of(
            A::initialize_from_triangulation(alloc, positions, tests),
            B::initialize_from_triangulation(alloc, positions, tests),
            C::initialize_from_triangulation(alloc, positions, tests),
            D::initialize_from_triangulation(alloc, positions, tests),
            E::initialize_from_triangulation(alloc, positions, tests),
            alloc,
        )
    }
}
