//! Marks on the numbers below a count: bits, in pages that are made as numbers of them are marked,
//! one behind the other. So memory and time go by those marked, and 4 bytes for each 512 numbers.
ghost use Rattle.std.specs.Prelude.{◌≡◌, ℕ, ◌+◌, ◌<◌, ◌≤◌, false, true, cond, nat_eq, length};
ghost use Rattle.std.specs.Prelude.{replicate, slice_index_or, slice_set, IfOk, OnOk};
ghost use Rattle.delaunay_legalization.specs.{has_bit};
ghost use Rattle.delaunay_shapes.specs.Marks.{count_others, has_mark, IsDirectory};

use std::alloc::{AllocError, Global};
use std::marker::Model;

// How many words a page has, and how many numbers.
const WORDS: usize = 8;

const NUMBERS: u32 = 512;

// The pages of all numbers that can be marked.
const MOST: usize = 8388608;

// How many pages there is room for at first, if there are so many.
const FIRST: usize = 64;

// Makes the directory reach a place: at once as far as the places of all numbers below the count.
fn reach_place(directory: &mut Vec<u32>, place: usize, count: usize) -> Result<(), AllocError>
    requires within { place < 8388608 }
    requires short { length directory.old.items ≤ 8388608 }
    ensures short { length directory.new.items ≤ 8388608 }
    ensures within { OnOk result (place < length directory.new.items) }
    ensures same { (j : ℕ) →
        slice_index_or directory.new.items j 0 ≡ slice_index_or directory.old.items j 0 }
    ensures used { count_others directory.new.items ≡ count_others directory.old.items }
{
    if place >= directory.len() {
        let last = (count / NUMBERS as usize).min(MOST - 1).max(place);
        directory.resize(last + 1, 0)?;
    }
    Ok(())
}

// Makes room for one page more, and for as many again as there are, if there can be so many.
fn reserve_page(pages: &mut Vec<[u64; WORDS]>, most: usize) -> Result<(), AllocError>
    ensures { pages.new.items ≡ pages.old.items }
{
    let count = pages.len();
    if count == pages.capacity() {
        pages.reserve_exact(count.max(FIRST).min(most.saturating_sub(count)))?;
    }
    Ok(())
}

// Adds a page with no number marked for a place, unless it has one.
fn fill_place(
    directory: &mut Vec<u32>,
    pages: &mut Vec<[u64; WORDS]>,
    place: usize,
) -> Result<(), AllocError>
    requires within { place < length directory.old.items }
    requires directory { IsDirectory directory.old.items pages.old.items }
    ensures directory { IsDirectory directory.new.items pages.new.items }
    ensures has { OnOk result (0 < slice_index_or directory.new.items place 0) }
    ensures same { (k : ℕ) → has_mark directory.new.items pages.new.items k ≡
        has_mark directory.old.items pages.old.items k }
{
    if directory[place] == 0 {
        reserve_page(pages, directory.len())?;
        pages.push([0; WORDS])?;
        directory[place] = pages.len() as u32;
    }
    Ok(())
}

// Where the page of a place is: it is made where there is none.
fn page_for(
    directory: &mut Vec<u32>,
    pages: &mut Vec<[u64; WORDS]>,
    place: usize,
    count: usize,
) -> Result<usize, AllocError>
    requires within { place < 8388608 }
    requires directory { IsDirectory directory.old.items pages.old.items }
    ensures directory { IsDirectory directory.new.items pages.new.items }
    ensures there { IfOk result (λ page. page < length pages.new.items) }
    ensures at { IfOk result (λ page. slice_index_or directory.new.items place 0 ≡ page + 1) }
    ensures same { (k : ℕ) → has_mark directory.new.items pages.new.items k ≡
        has_mark directory.old.items pages.old.items k }
{
    reach_place(directory, place, count)?;
    fill_place(directory, pages, place)?;
    Ok(directory[place] as usize - 1)
}

// Whether a number of a page is marked.
fn is_set(page: &[u64; WORDS], number: u32) -> bool
    requires { number < 512 }
    ensures { result ≡ has_bit page.now number }
{
    (page[number as usize / 64] >> (number % 64)) & 1 == 1
}

// Marks a number of a page.
fn set_bit(page: &mut [u64; WORDS], number: u32)
    requires { number < 512 }
    ensures { (k : ℕ) → has_bit page.new k ≡ cond (nat_eq number k) true (has_bit page.old k) }
{
    let place = number as usize / 64;
    let word = page[place];
    page[place] = word | 1 << (number % 64);
}

/// Numbers below a count, of which some are marked.
#[derive(Drop)]
pub struct Marks {
    // For each place one more than where its page is, or 0.
    directory: Vec<u32>,
    pages: Vec<[u64; WORDS]>,
    count: usize,
}

impl Model for Marks {
    ghost use Rattle.std.specs.Prelude.{List, Bool};
    ghost use Rattle.delaunay_shapes.specs.Marks.{has_mark, IsDirectory, tests_below};

    ghost Value = { List Bool };

    ghost view = { λ a. tests_below a.count (has_mark a.directory.items a.pages.items) };

    ghost invariant = { λ a. IsDirectory a.directory.items a.pages.items };
}

impl Marks {
    /// So many, none marked, in no memory yet.
    pub fn new(count: usize, alloc: Global) -> Marks
        ensures { result ≡ replicate count false }
    {
        Marks {
            directory: Vec::new(alloc),
            pages: Vec::new(alloc),
            count,
        }
    }

    /// Whether a number is marked. This is asked far more often than a number is marked, and is
    /// short for that.
    pub fn is_marked(&self, index: u32) -> bool
        requires { index < length self.now }
        ensures { result ≡ slice_index_or self.now index false }
    {
        let place = (index / NUMBERS) as usize;
        if place >= self.directory.len() {
            return false;
        }
        let page = self.directory[place] as usize;
        page > 0 && is_set(&self.pages[page - 1], index % NUMBERS)
    }

    /// Marks a number.
    pub fn mark(&mut self, index: u32) -> Result<(), AllocError>
        ensures { OnOk result (self.new ≡ slice_set self.old index true) }
    {
        let place = (index / NUMBERS) as usize;
        let page = page_for(&mut self.directory, &mut self.pages, place, self.count)?;
        set_bit(&mut self.pages[page], index % NUMBERS);
        Ok(())
    }
}
