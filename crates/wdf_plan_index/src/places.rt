ghost use Rattle.std.specs.Prelude.{◌≡◌, ◌+◌, ◌%◌, ◌<◌, ◌≤◌, ◌^◌, IfOk, IfSome, length, slice_index};
ghost use Rattle.std.specs.Iterator.{at_most};
ghost use Rattle.wdf_plan_index.specs.Places.{AreLinked, IsFirstAt, TakesPlace, place_of, places_of};

use std::alloc::Global;
use std::marker::Model;
use wdf_base::Memory;

/// A list of numbers, made once, with chains by which the places of a number are found in their order.
/// Where each number is below the count of heads, those of one are found without a look at any other's.
///
/// (`wdf_ilist::Links` has at most 2^31 items, and keeps an owner and two neighbours of each, where one serves.)
///
/// Contracts see the list. No call but [`Places::make`] takes memory.
#[derive(Drop)]
pub struct Places {
    numbers: Vec<u32>,
    chains: Chains,
}

impl Model for Places {
    ghost use Rattle.std.specs.Prelude.{ℕ, List};

    ghost Value = { List ℕ };

    ghost use Rattle.wdf_plan_index.specs.Places.{IsSound};

    ghost view = { λ p. p.numbers.items };

    ghost invariant = { IsSound };
}

/// The chains of a list.
#[derive(Drop)]
pub(crate) struct Chains {
    /// For each remainder: the first place whose number has it, or the list's length.
    heads: Vec<u32>,
    /// For each place: the next one whose number has the same remainder, or the list's length.
    nexts: Vec<u32>,
}

/// The chains of a list, with as many heads, and at least one.
fn chains_of(alloc: Global, numbers: &[u32], heads: u32) -> Result<Chains, Memory>
    requires { length numbers.now < 2 ^ 32 }
    ensures { IfOk result (λ chains. AreLinked numbers.now chains) }
{
    let none = numbers.len() as u32;
    let mut heads = vec![in alloc; none; heads.max(1) as usize]?;
    let mut nexts = vec![in alloc; none; numbers.len()]?;
    let mut at = numbers.len();
    'link: while at > 0 {
        at -= 1;
        let remainder = numbers[at] as usize % heads.len();
        nexts[at] = heads[remainder];
        heads[remainder] = at as u32;
    }
    Ok(Chains { heads, nexts })
}

/// The first place of a number from one on that is the list's length, or whose number has the same remainder.
fn first_from(numbers: &[u32], chains: &Chains, number: u32, from: u32) -> Option<u32>
    requires linked { AreLinked numbers.now chains.now }
    requires within { from ≤ length numbers.now }
    requires alike { from < length numbers.now → slice_index numbers.now from % length chains.now.heads.items ≡ number % length chains.now.heads.items }
    ensures first { IsFirstAt numbers.now number from (place_of numbers.now result) }
    ensures within { IfSome result (λ place. place < length numbers.now) }
{
    let mut at = from as usize;
    'pass: while at < numbers.len() {
        if numbers[at] == number {
            return Some(at as u32);
        }
        at = chains.nexts[at] as usize;
    }
    None
}

impl Places {
    /// The list with its chains, and as many heads, at least one. On [`Memory`] nothing is made.
    pub fn make(alloc: Global, numbers: Vec<u32>, heads: u32) -> Result<Places, Memory>
        requires { length numbers.items < 2 ^ 32 }
        ensures { IfOk result (λ places. places ≡ numbers.items) }
    {
        let chains = chains_of(alloc, numbers.as_slice(), heads)?;
        Ok(Places { numbers, chains })
    }

    /// The numbers.
    pub fn as_slice(&self) -> &[u32]
        ensures value { result.now ≡ self.now }
        ensures small { length result.now < 2 ^ 32 }
    {
        self.numbers.as_slice()
    }

    /// The first place of a number.
    pub fn first(&self, number: u32) -> Option<u32>
        ensures first { IsFirstAt self.now number 0 (place_of self.now result) }
        ensures within { IfSome result (λ place. place < length self.now) }
        ensures small { IfSome result (λ place. place + 1 < 2 ^ 32) }
    {
        let chains = &self.chains;
        let remainder = number as usize % chains.heads.len();
        first_from(
            self.numbers.as_slice(),
            chains,
            number,
            chains.heads[remainder],
        )
    }

    /// The next place of the number at a place.
    fn after(&self, place: u32) -> Option<u32>
        requires { place < length self.now }
        ensures next { IsFirstAt self.now (slice_index self.now place) (place + 1) (place_of self.now result) }
        ensures within { IfSome result (λ place. place < length self.now) }
        ensures small { IfSome result (λ place. place + 1 < 2 ^ 32) }
    {
        let at = place as usize;
        let chains = &self.chains;
        first_from(
            self.numbers.as_slice(),
            chains,
            self.numbers[at],
            chains.nexts[at],
        )
    }
}

/// The places of a number in a list, rising.
///
/// Contracts see the places that are still to come.
#[derive(Drop)]
pub struct PlacesOf<'a> {
    places: &'a Places,
    number: u32,
    next: Option<u32>,
}

impl<'a> Model for PlacesOf<'a> {
    ghost use Rattle.std.specs.Prelude.{ℕ, List};

    ghost Value = { List ℕ };

    ghost use Rattle.wdf_plan_index.specs.Places.{IsAtPlace, places_left};

    ghost view = { λ p. places_left p.places.now p.number p.next };

    ghost invariant = { λ p. IsAtPlace p.places.now p.number p.next };
}

impl Places {
    /// The places of a number.
    pub fn of(&self, number: u32) -> PlacesOf<'_>
        ensures { result ≡ places_of self.now number }
    {
        PlacesOf {
            places: self,
            number,
            next: self.first(number),
        }
    }
}

impl<'a> Iterator for PlacesOf<'a> {
    type Item = u32;

    ghost next_gives = { TakesPlace };

    ghost remaining = { λ places. at_most (length places) };

    fn next(&mut self) -> Option<u32> {
        let place = self.next?;
        self.next = self.places.after(place);
        Some(place)
    }
}
