// Sets of numbers, of which the lowest one or the highest one can be taken.

ghost use Rattle.std.specs.Prelude.{◌≡◌, ℕ, ◌<◌, ◌≤◌, ◌^◌, true, false};
ghost use Rattle.std.specs.Prelude.{length, slice_index, IfOk, OnOk, IfSome, IfNone};
ghost use Rattle.strc_balance.specs.NumberSets.{has_number, AreWords, IsWith, IsWithout};
ghost use Rattle.strc_balance.specs.NumberSets.{AllNumbers};

use crate::bits::{clear_bit, highest_bit, lowest_bit, set_bit};
use std::alloc::{AllocError, Global};
use std::marker::Model;

/// A set of numbers as words of 64 bits, and a set of those words that have a bit: of some thousand
/// numbers the lowest one is found in a few steps. Contracts see the words.
#[derive(Drop)]
pub struct NumberSet {
    words: Vec<u64>,
    used: Vec<u64>,
}

impl Model for NumberSet {
    ghost use Rattle.std.specs.Prelude.{ℕ, List};
    ghost use Rattle.strc_balance.specs.NumberSets.{AreWords};

    ghost Value = { List ℕ };

    ghost view = { λ s. s.words.items };

    ghost invariant = { λ s. AreWords s.words.items s.used.items };
}

impl NumberSet {
    /// No numbers, with memory for those below `size`.
    pub fn with_capacity(alloc: Global, size: usize) -> Result<NumberSet, AllocError>
        ensures { IfOk result (λ set. (number : ℕ) → has_number set number ≡ false) }
    {
        let words = Vec::with_capacity(alloc, size / 64 + 1)?;
        let used = Vec::with_capacity(alloc, size / 4096 + 1)?;
        Ok(NumberSet { words, used })
    }

    /// Adds a number.
    pub fn add(&mut self, number: usize) -> Result<(), AllocError>
        ensures { OnOk result (IsWith number self.old self.new) }
    {
        insert(&mut self.words, &mut self.used, number)
    }

    /// Takes the lowest number.
    pub fn take_lowest(&mut self) -> Option<usize>
        ensures there { IfSome result (λ number. has_number self.old number ≡ true) }
        ensures lowest { IfSome result (λ number. AllNumbers (λ other. number ≤ other) self.old) }
        ensures others { IfSome result (λ number. IsWithout number self.old self.new) }
        ensures none { IfNone result ((number : ℕ) → has_number self.old number ≡ false) }
        ensures same { IfNone result (self.new ≡ self.old) }
    {
        let Some(number) = lowest_of(&self.words, &self.used) else {
            return None;
        };
        remove(&mut self.words, &mut self.used, number);
        Some(number)
    }

    /// Takes the highest number.
    pub fn take_highest(&mut self) -> Option<usize>
        ensures there { IfSome result (λ number. has_number self.old number ≡ true) }
        ensures highest { IfSome result (λ number. AllNumbers (λ other. other ≤ number) self.old) }
        ensures others { IfSome result (λ number. IsWithout number self.old self.new) }
        ensures none { IfNone result ((number : ℕ) → has_number self.old number ≡ false) }
        ensures same { IfNone result (self.new ≡ self.old) }
    {
        let Some(number) = highest_of(&self.words, &self.used) else {
            return None;
        };
        remove(&mut self.words, &mut self.used, number);
        Some(number)
    }
}

/// Adds a number to words.
fn insert(words: &mut Vec<u64>, used: &mut Vec<u64>, number: usize) -> Result<(), AllocError>
    requires { AreWords words.old.items used.old.items }
    ensures are { AreWords words.new.items used.new.items }
    ensures numbers { OnOk result (IsWith number words.old.items words.new.items) }
{
    let word = number / 64;
    grow(words, word)?;
    grow(used, word / 64)?;
    set_bit(words, number);
    set_bit(used, word);
    Ok(())
}

/// Makes sure that there is such a word.
fn grow(words: &mut Vec<u64>, word: usize) -> Result<(), AllocError>
    requires word { word < 2 ^ 58 }
    requires few { length words.old.items ≤ 2 ^ 58 }
    ensures few { length words.new.items ≤ 2 ^ 58 }
    ensures there { OnOk result (word < length words.new.items) }
    ensures same { slice_index words.new.items ≡ slice_index words.old.items }
{
    if word >= words.len() {
        words.resize(word + 1, 0)?;
    }
    Ok(())
}

/// Takes a number out of words.
fn remove(words: &mut Vec<u64>, used: &mut Vec<u64>, number: usize)
    requires are { AreWords words.old.items used.old.items }
    requires there { has_number words.old.items number ≡ true }
    ensures are { AreWords words.new.items used.new.items }
    ensures numbers { IsWithout number words.old.items words.new.items }
{
    let word = number / 64;
    clear_bit(words, number);
    if words[word] == 0 {
        clear_bit(used, word);
    }
}

/// The lowest number of words.
fn lowest_of(words: &[u64], used: &[u64]) -> Option<usize>
    requires { AreWords words.now used.now }
    ensures there { IfSome result (λ number. has_number words.now number ≡ true) }
    ensures lowest { IfSome result (λ number. AllNumbers (λ other. number ≤ other) words.now) }
    ensures none { IfNone result ((number : ℕ) → has_number words.now number ≡ false) }
{
    let Some(first) = first_word(used) else {
        return None;
    };
    let word = first * 64 + lowest_bit(used[first]);
    Some(word * 64 + lowest_bit(words[word]))
}

/// The highest number of words.
fn highest_of(words: &[u64], used: &[u64]) -> Option<usize>
    requires { AreWords words.now used.now }
    ensures there { IfSome result (λ number. has_number words.now number ≡ true) }
    ensures highest { IfSome result (λ number. AllNumbers (λ other. other ≤ number) words.now) }
    ensures none { IfNone result ((number : ℕ) → has_number words.now number ≡ false) }
{
    let Some(last) = last_word(used) else {
        return None;
    };
    let word = last * 64 + highest_bit(used[last]);
    Some(word * 64 + highest_bit(words[word]))
}

/// The first word that isn't 0.
fn first_word(words: &[u64]) -> Option<usize>
    ensures some { IfSome result (λ place. 0 < slice_index words.now place) }
    ensures within { IfSome result (λ place. place < length words.now) }
    ensures lower { IfSome result (λ place. (lower : ℕ) → lower < place
        → slice_index words.now lower ≡ 0) }
    ensures none { IfNone result ((place : ℕ) → slice_index words.now place ≡ 0) }
{
    for place in 0..words.len() {
        if words[place] != 0 {
            return Some(place);
        }
    }
    None
}

/// The last word that isn't 0.
fn last_word(words: &[u64]) -> Option<usize>
    ensures some { IfSome result (λ place. 0 < slice_index words.now place) }
    ensures within { IfSome result (λ place. place < length words.now) }
    ensures higher { IfSome result (λ place. (higher : ℕ) → place < higher
        → slice_index words.now higher ≡ 0) }
    ensures none { IfNone result ((place : ℕ) → slice_index words.now place ≡ 0) }
{
    let mut place = words.len();
    while place > 0 {
        place -= 1;
        if words[place] != 0 {
            return Some(place);
        }
    }
    None
}
