// Steps past parts that were read and are kept: where one of them stops, the parts are dropped.
// They are generic, so that what becomes of the parts is said and proved once, and not at each of
// their types. They take a rule's result as it is, so that the rule above has fewer ways out.

ghost use Rattle.strc_parse_grammar.specs.Sequence.{IsBoth, IsNested, IsFollowed, IsGrown};
ghost use Rattle.strc_parse_grammar.specs.Sequence.{IsLeafOf, IsNodeOf, IsNodeOfTwo};
ghost use Rattle.strc_parse_grammar.specs.Sequence.{IsNodeOfThree};

use crate::error::ReadError;
use crate::lookahead::{expect, raised};
use crate::part::beside;
use crate::rule_result::Parsed;
use std::alloc::{AllocError, Global};
use strc_lex::token::{Punctuation, Token};

/// A part that was read, and the next one, if that was read too, with the height of the higher.
pub fn both<'t, A: Drop, B>(
    first: A,
    height: usize,
    second: Result<Parsed<'t, B>, ReadError>,
) -> Result<Parsed<'t, (A, B)>, ReadError>
    ensures { IsBoth first height second.entry result }
{
    let (first, second) = beside(first, second)?;
    let height = height.max(second.height);
    Ok(Parsed::new((first, second.value), height, second.rest))
}

/// What was read, with the height of the node that it becomes part of.
pub fn with_node_height<'t, T: Drop>(
    depth: usize,
    part: Result<Parsed<'t, T>, ReadError>,
) -> Result<Parsed<'t, T>, ReadError>
    ensures { IsNested depth part.entry result }
{
    let part = part?;
    let height = raised(depth, part.height)?;
    Ok(Parsed::new(part.value, height, part.rest))
}

/// What was read, with the punctuation mark that has to follow it.
pub fn with_mark<'t, T: Drop>(
    wanted: Punctuation,
    part: Result<Parsed<'t, T>, ReadError>,
) -> Result<Parsed<'t, T>, ReadError>
    ensures { IsFollowed wanted part.entry result }
{
    let part = part?;
    let rest = expect(wanted, part.rest)?;
    Ok(Parsed::new(part.value, part.height, rest))
}

/// The node that this makes of a part, if that was read, with the part's height.
pub fn node_of<'t, A, T, F: FnOnce(A) -> T>(
    part: Result<Parsed<'t, A>, ReadError>,
    make: F,
) -> Result<Parsed<'t, T>, ReadError>
    requires { F.IsAlwaysCallable make }
    ensures { IsNodeOf (F.post make) part.entry result }
{
    let part = part?;
    Ok(Parsed::new(make(part.value), part.height, part.rest))
}

/// The leaf that this makes of what was read: the height of its parts is 0.
pub fn leaf_of<'t, A, T, F: FnOnce(A) -> T>(
    read: Result<(A, &'t [Token]), ReadError>,
    make: F,
) -> Result<Parsed<'t, T>, ReadError>
    requires { F.IsAlwaysCallable make }
    ensures { IsLeafOf (F.post make) read.entry result }
{
    let (value, rest) = read?;
    Ok(Parsed::new(make(value), 0, rest))
}

/// The node that this makes of a part and of the next one, if that was read too.
pub fn node_of_two<'t, A: Drop, B: Drop, T, F>(
    alloc: Global,
    depth: usize,
    first: Parsed<'t, A>,
    second: Result<Parsed<'t, B>, ReadError>,
    make: F,
) -> Result<Parsed<'t, T>, ReadError>
where
    F: FnOnce(Global, A, B) -> Result<T, AllocError>,
    requires { F.IsAlwaysCallable make }
    ensures { IsNodeOfTwo (F.post make alloc) depth first.entry second.entry result }
{
    let second = second?;
    let height = raised(depth, first.height.max(second.height))?;
    let node = make(alloc, first.value, second.value)?;
    Ok(Parsed::new(node, height, second.rest))
}

/// The node that this makes of two parts and of the next one, if that was read too.
pub fn node_of_three<'t, A: Drop, B: Drop, C: Drop, T, F>(
    alloc: Global,
    depth: usize,
    first: Parsed<'t, A>,
    second: Parsed<'t, B>,
    third: Result<Parsed<'t, C>, ReadError>,
    make: F,
) -> Result<Parsed<'t, T>, ReadError>
where
    F: FnOnce(Global, A, B, C) -> Result<T, AllocError>,
    requires { F.IsAlwaysCallable make }
    ensures { IsNodeOfThree (F.post make alloc) depth first.entry second.entry third.entry result }
{
    let third = third?;
    let height = first.height.max(second.height).max(third.height);
    let height = raised(depth, height)?;
    let node = make(alloc, first.value, second.value, third.value)?;
    Ok(Parsed::new(node, height, third.rest))
}

/// The items so far and the next one, if that was read, with the height of the highest.
pub fn with_next<'t, T: Drop>(
    so_far: Parsed<'t, Vec<T>>,
    next: Result<Parsed<'t, T>, ReadError>,
) -> Result<Parsed<'t, Vec<T>>, ReadError>
    ensures { IsGrown so_far.entry next.entry result }
{
    let next = next?;
    let mut items = so_far.value;
    items.push(next.value)?;
    Ok(Parsed::new(items, so_far.height.max(next.height), next.rest))
}
