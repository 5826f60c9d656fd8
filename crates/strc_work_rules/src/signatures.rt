// The helper functions of a filter, by name.

ghost use Rattle.std.specs.Prelude.{◌≡◌, IfOk, OnOk, []};
ghost use Rattle.strc_work_meaning.specs.Filters.{members_of};
ghost use Rattle.strc_work_rules.specs.Signatures as spec;

use std::alloc::Global;
use strc_lex_names::memory::NoMemory;
use strc_lex_names::name::Name;
use strc_lex_names::scope_map::ScopeMap;
use strc_parse_tree::tree::{HelperType, Member};
use strc_work_meaning::types::ValueType;

/// What a call of a helper function gives, and how many arguments it takes.
#[derive(Clone, Copy)]
pub struct Signature {
    pub kind: HelperType,
    pub parameters: usize,
}

/// The helper functions of a filter. Of several of one name it has the first.
pub fn signatures_of(alloc: Global, members: &[Member]) -> Result<ScopeMap<Signature>, NoMemory>
    ensures { IfOk result (λ helpers. helpers
        ≡ spec.signatures_after [] (members_of members.now)) }
{
    let mut helpers = ScopeMap::new(alloc);
    for member in members {
        if let Member::Helper(kind, name, parameters, _) = member {
            add_signature(&mut helpers, *kind, name, parameters)?;
        }
    }
    Ok(helpers)
}

/// One more helper function, if none before it has its name.
fn add_signature(
    helpers: &mut ScopeMap<Signature>,
    kind: HelperType,
    name: &Name,
    parameters: &[Name],
) -> Result<(), NoMemory>
    ensures { OnOk result (helpers.new
        ≡ spec.with_signature helpers.old name.now (spec.signature_of kind parameters.now)) }
{
    if helpers.has(name) {
        return Ok(());
    }
    let signature = Signature {
        kind,
        parameters: parameters.len(),
    };
    helpers.declare(name, signature)
}

/// The type of what a helper function gives, if it gives a value.
pub fn given_type(kind: HelperType) -> Option<ValueType>
    ensures { result ≡ spec.given_type kind }
{
    match kind {
        HelperType::Int => Some(ValueType::Int),
        HelperType::Boolean => Some(ValueType::Boolean),
        HelperType::Void => None,
    }
}
