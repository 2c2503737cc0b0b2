//! The fronts of names, each once, by their numbers.

ghost use Rattle.std.specs.Prelude.{◌≡◌, [], ◌++◌, get_or, None, Some, All, IfOk, IfNone, IfSome};
ghost use Rattle.std.specs.BTreeMap.{values};
ghost use Rattle.std.specs.Cmp.Lexicographic.{slice_cmp};
ghost use Rattle.std.specs.Ordering.{nat_cmp};
ghost use Rattle.std.specs.List.Sorted.{IsPermutation, IsSortedBy};
ghost use Rattle.charset.specs.Fronts.{comes_before, HasFront, LacksFront, IsPlaceOf, Keeps};

use crate::byte_strings::{ByteStrings, number_of};
use std::alloc::{AllocError, Global};
use std::cmp::Ordering;
use std::collections::BTreeMap;
use std::marker::Model;

/// How many fronts may wait to be sorted, besides one in sixteen.
const FEW: usize = 256;

/// Fronts of names, numbered in the order in which they came first.
#[derive(Drop)]
pub struct Fronts {
    strings: ByteStrings,
    /// The numbers of the earlier ones, in the order of their bytes.
    sorted: Vec<u32>,
    /// The numbers of the later ones.
    recent: BTreeMap<Vec<u8>, u32>,
}

impl Model for Fronts {
    ghost use Rattle.std.specs.Prelude.{ℕ, List};

    ghost Value = { List (List ℕ) };

    ghost use Rattle.charset.specs.Fronts.{IsPlaced};

    ghost view = { λ f. f.strings };

    ghost invariant = { λ f. IsPlaced f.strings f.sorted.items f.recent };
}

/// How the string of a number compares to another string.
fn compare_to(strings: &ByteStrings, number: u32, other: &[u8]) -> Ordering
    ensures { result ≡ slice_cmp nat_cmp (get_or strings.now number []) other.now }
{
    strings.get(number).cmp(other)
}

/// How the strings of two numbers compare.
fn compare(strings: &ByteStrings, number: u32, other: u32) -> Ordering
    ensures { result ≡ slice_cmp nat_cmp (get_or strings.now number []) (get_or strings.now other []) }
{
    compare_to(strings, number, strings.get(other))
}

/// Sorted numbers, and behind them those of a map.
fn joined(
    alloc: Global,
    sorted: &[u32],
    recent: &BTreeMap<Vec<u8>, u32>,
) -> Result<Vec<u32>, AllocError>
    ensures { IfOk result (λ numbers. numbers.items ≡ sorted.now ++ values recent.now) }
{
    let mut numbers = Vec::from_slice(alloc, sorted)?;
    numbers.extend(recent.values().copied())?;
    Ok(numbers)
}

/// The numbers of strings in the order of these.
fn by_strings(strings: &ByteStrings, numbers: Vec<u32>) -> Result<Vec<u32>, AllocError>
    ensures moved { IfOk result (λ sorted. IsPermutation numbers.items sorted.items) }
    ensures rising { IfOk result (λ sorted. IsSortedBy (comes_before strings.now) sorted.items) }
{
    let mut numbers = numbers;
    numbers.sort_by(|a, b| compare(strings, *a, *b))?;
    Ok(numbers)
}

/// The number of a string, found among sorted numbers.
fn number_in(strings: &ByteStrings, sorted: &[u32], string: &[u8]) -> Option<u32>
    requires { IsSortedBy (comes_before strings.now) sorted.now }
    ensures found { IfSome result (HasFront strings.now sorted.now string.now) }
    ensures absent { IfNone result (All (LacksFront strings.now string.now) sorted.now) }
{
    match sorted.binary_search_by(|number| compare_to(strings, *number, string)) {
        Ok(at) => Some(sorted[at]),
        Err(_) => None,
    }
}

impl Fronts {
    pub fn new(alloc: Global) -> Fronts
        ensures { result ≡ [] }
    {
        Fronts {
            strings: ByteStrings::new(alloc),
            sorted: Vec::new(alloc),
            recent: BTreeMap::new(alloc),
        }
    }

    /// The number of a front.
    pub fn find(&self, front: &[u8]) -> Option<u32>
        ensures { IsPlaceOf front.now self.now result }
    {
        match number_in(&self.strings, &self.sorted, front) {
            Some(number) => Some(number),
            None => self.recent.get(front).copied(),
        }
    }

    /// Sorts the later ones in among the earlier ones.
    fn settle(&mut self, alloc: Global) -> Result<(), AllocError>
        ensures { self.new ≡ self.old }
    {
        let numbers = joined(alloc, &self.sorted, &self.recent)?;
        self.sorted = by_strings(&self.strings, numbers)?;
        self.recent = BTreeMap::new(alloc);
        Ok(())
    }

    /// Adds a new front, and gives its number.
    fn add(&mut self, alloc: Global, front: &[u8]) -> Result<u32, AllocError>
        requires { IsPlaceOf front.now self.old None }
        ensures keeps { Keeps self.old self.new }
        ensures number { IfOk result (λ n. IsPlaceOf front.now self.new (Some n)) }
    {
        let number = number_of(self.strings.len())?;
        let key = Vec::from_slice(alloc, front)?;
        self.strings.push(front)?;
        if let Err(_) = self.recent.insert(key, number) {
            self.strings.pop();
            return Err(AllocError);
        }
        Ok(number)
    }

    /// The number of a front, which is added where it is new.
    pub fn number(&mut self, alloc: Global, front: &[u8]) -> Result<u32, AllocError>
        ensures keeps { Keeps self.old self.new }
        ensures number { IfOk result (λ n. IsPlaceOf front.now self.new (Some n)) }
    {
        if let Some(number) = self.find(front) {
            return Ok(number);
        }
        if self.recent.len() > FEW + self.sorted.len() / 16 {
            self.settle(alloc)?;
        }
        self.add(alloc, front)
    }
}
