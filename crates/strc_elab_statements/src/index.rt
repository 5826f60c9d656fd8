// The declarations of a program by their names.

ghost use Rattle.std.specs.Prelude.{◌≡◌, ◌<◌, ℕ, List, [], length, IfOk, IfSome, nat_eq, map};
ghost use Rattle.std.specs.Cmp.Lexicographic.{pointwise};
ghost use Rattle.indexmap.specs.IndexMap.{get_by};
ghost use Rattle.strc_elab_statements.specs.Names.{place_from};
ghost use Rattle.strc_elab_statements.specs.MainStreams.{doubled_from, not_doubled};
ghost use Rattle.strc_elab_statements.specs.Answers.{IsVerdict};
ghost use Rattle.strc_elab_statements.specs.declared.error.ElabErrorKind.TheVariants as refused;
ghost use Rattle.strc_parse_tree.specs.View.{declaration_view};

use crate::error::ElabError;
use indexmap::IndexMap;
use std::alloc::Global;
use strc_parse_tree::tree::Decl;
use strc_work_rules::site::Mismatch;

/// The number of each declaration by its name. A second one of a name is a mismatch.
pub fn index_of<'a>(
    alloc: Global,
    declarations: &'a [Decl],
) -> Result<IndexMap<&'a [u8], usize>, ElabError>
    ensures distinct { IsVerdict (λ _. tt) (not_doubled
        (doubled_from [] 0 (map declaration_view declarations.now))) result }
    ensures places { IfOk result (λ numbers. (name : List ℕ)
        → get_by (λ k. pointwise nat_eq name k.now) numbers
        ≡ place_from 0 (map (λ d. d.name) declarations.now) name) }
{
    let mut numbers = IndexMap::new(alloc);
    for (number, declaration) in declarations.iter().enumerate() {
        if let Some(first) = numbers.insert(declaration.name.as_bytes(), number)? {
            return Err(declared_twice(declarations, first, number));
        }
    }
    Ok(numbers)
}

/// The declaration of this number has the name of the first one.
fn declared_twice(declarations: &[Decl], first: usize, number: usize) -> ElabError
    ensures { result ≡ refused.TypeMismatch number }
{
    let earlier = match declarations.get(first) {
        Some(declaration) => declaration.name.place(),
        None => None,
    };
    let place = match declarations.get(number) {
        Some(declaration) => declaration.name.place(),
        None => None,
    };
    ElabError::mismatch(number, Mismatch::StreamTwice(earlier)).or_at(place)
}

/// The number of the declaration of a name.
pub fn number_of(
    declarations: &[Decl],
    numbers: &IndexMap<&[u8], usize>,
    name: &[u8],
) -> Option<usize>
    requires { (q : List ℕ) → get_by (λ k. pointwise nat_eq q k.now) numbers.now
        ≡ place_from 0 (map (λ d. d.name) declarations.now) q }
    ensures place { result ≡ place_from 0 (map (λ d. d.name) declarations.now) name.now }
    ensures within { IfSome result (λ number. number < length declarations.now) }
{
    number_at(numbers, name)
}

// The number at a name.
fn number_at(numbers: &IndexMap<&[u8], usize>, name: &[u8]) -> Option<usize>
    ensures { result ≡ get_by (λ k. pointwise nat_eq name.now k.now) numbers.now }
{
    numbers.get(name).copied()
}
