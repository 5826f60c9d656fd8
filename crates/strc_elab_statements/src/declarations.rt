// Declarations by their names.

ghost use Rattle.std.specs.Prelude.{◌≡◌, ℕ, List, map, nat_eq};
ghost use Rattle.std.specs.Option.{option_map};
ghost use Rattle.std.specs.Cmp.Lexicographic.{pointwise};
ghost use Rattle.indexmap.specs.IndexMap.{get_by};
ghost use Rattle.strc_parse_tree.specs.View.{declaration_view};
ghost use Rattle.strc_elab_statements.specs.Names.{place_from};
ghost use Rattle.strc_elab_statements.specs.Texts as texts;

use crate::index::number_of;
use indexmap::IndexMap;
use strc_parse_tree::tree::Decl;

/// The declaration of a name, with its number.
pub fn declared<'a>(
    declarations: &'a [Decl],
    numbers: &IndexMap<&[u8], usize>,
    name: &[u8],
) -> Option<(usize, &'a Decl)>
    requires { (q : List ℕ) → get_by (λ k. pointwise nat_eq q k.now) numbers.now
        ≡ place_from 0 (map (λ d. d.name) declarations.now) q }
    ensures { option_map (λ f. (f.0, declaration_view f.1.now)) result
        ≡ texts.declared_from 0 (map declaration_view declarations.now) name.now }
{
    match number_of(declarations, numbers, name) {
        Some(number) => Some((number, &declarations[number])),
        None => None,
    }
}
