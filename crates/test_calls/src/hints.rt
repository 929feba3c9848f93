//! The generators that a triangulation has, one of which it asks.

use delaunay_core::HintGenerator;
use hint_hierarchy::HierarchyHintGeneratorWithBranchFactor as Hierarchy;
use std::io;
use test_reader::Call;
use test_reader::hints::{Choice, Listing, Switching, Told};

/// The generators of the scripts.
pub type Hints = Switching<
    Hierarchy<i64, 0>,
    Hierarchy<i64, 1>,
    Hierarchy<i64, 2>,
    Hierarchy<i64, 3>,
    Hierarchy<i64, 16>,
>;

/// A generator that has several others.
pub trait Choosing: HintGenerator<i64> {
    /// Asks this one from now on.
    fn choose(&self, choice: Choice);

    /// The one that lists what it is told.
    fn listing(&self) -> &Listing;
}

impl Choosing for Hints {
    fn choose(&self, choice: Choice) {
        Switching::choose(self, choice);
    }

    fn listing(&self) -> &Listing {
        &self.listing
    }
}

/// The hints of this number.
pub fn choice_of(number: usize) -> Choice {
    match number {
        1 => Choice::EachInTurn,
        2 => Choice::Always1000,
        3 => Choice::First,
        4 => Choice::Second,
        5 => Choice::Third,
        6 => Choice::Fourth,
        7 => Choice::Fifth,
        8 => Choice::InTurn,
        9 => Choice::Listing,
        _ => Choice::LastUsed,
    }
}

fn print_one(rt: &impl Print, told: Told) -> io::Result<()> {
    match told {
        Told::Inserted(vertex, x, y) => println!(rt; "inserted {vertex} at {x} {y}"),
        Told::Removed(vertex, x, y) => println!(rt; "removed {vertex} at {x} {y}"),
        Told::SwappedIn(x, y) => println!(rt; "swapped in from {x} {y}"),
    }
}

// Prints what a generator was told.
fn print_told(rt: &impl Print, listing: &Listing) -> io::Result<()> {
    for told in &listing.told {
        print_one(rt, *told)?;
    }
    Ok(())
}

/// Prints what the generator that lists was told, or how often it was asked.
pub fn tell_listing<L: Choosing>(
    rt: &impl Print,
    generator: &L,
    call: &Call<'_>,
) -> io::Result<()> {
    match call.name {
        "told" => print_told(rt, generator.listing()),
        _ => call.tell(rt, &generator.listing().asked.get()),
    }
}
