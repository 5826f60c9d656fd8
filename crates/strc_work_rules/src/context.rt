// What a place of the text may do.

ghost use Rattle.std.specs.Prelude.{◌≡◌};
ghost use Rattle.strc_work_rules.specs.Resolution as judged;
ghost use Rattle.strc_work_rules.specs.Verdicts.{context_of};
ghost use Rattle.strc_work_rules.specs.declared.error.LowerErrorKind.TheVariants as refused;

use crate::error::LowerError;
use crate::signatures::Signature;
use crate::site::Mismatch;
use strc_lex_names::scope_map::ScopeMap;
use strc_parse_tree::tree::{HelperType, ItemType};
use strc_work_meaning::constants::Constants;

/// Where a text is: its constants, whether it may pop and peek, push and print, and whether it
/// is fixed before the start, so that it reads no variable; the helper functions that it may call,
/// if it may call any; and in a helper function what that gives.
#[derive(Drop)]
pub struct Context<'a> {
    pub constants: &'a Constants,
    pub pops: bool,
    pub pushes: bool,
    pub prints: bool,
    pub constants_only: bool,
    pub helpers: Option<&'a ScopeMap<Signature>>,
    pub returns: Option<HelperType>,
}

/// The context of the block of a composite stream.
pub fn init_context(constants: &Constants) -> Context
    ensures { context_of result ≡ judged.init_context constants.now }
{
    Context {
        constants,
        pops: false,
        pushes: false,
        prints: false,
        constants_only: false,
        helpers: None,
        returns: None,
    }
}

/// The context of initialisers and of `init`.
pub fn start_context<'a>(constants: &'a Constants, helpers: &'a ScopeMap<Signature>) -> Context<'a>
    ensures { context_of result ≡ judged.start_context constants.now helpers.now }
{
    Context {
        constants,
        pops: false,
        pushes: false,
        prints: false,
        constants_only: false,
        helpers: Some(helpers),
        returns: None,
    }
}

/// The context of a helper function.
pub fn helper_context<'a>(
    constants: &'a Constants,
    helpers: &'a ScopeMap<Signature>,
    kind: HelperType,
) -> Context<'a>
    ensures { context_of result ≡ judged.helper_context constants.now helpers.now kind }
{
    Context {
        constants,
        pops: false,
        pushes: false,
        prints: false,
        constants_only: false,
        helpers: Some(helpers),
        returns: Some(kind),
    }
}

/// The context of a body.
pub fn body_context<'a>(
    constants: &'a Constants,
    helpers: &'a ScopeMap<Signature>,
    input: ItemType,
    output: ItemType,
) -> Context<'a>
    ensures { context_of result ≡ judged.body_context constants.now helpers.now input output }
{
    Context {
        constants,
        pops: carries_items(input),
        pushes: carries_items(output),
        prints: true,
        constants_only: false,
        helpers: Some(helpers),
        returns: None,
    }
}

/// The context of rates and of lengths.
pub fn rate_context(constants: &Constants) -> Context
    ensures { context_of result ≡ judged.rate_context constants.now }
{
    Context {
        constants,
        pops: false,
        pushes: false,
        prints: false,
        constants_only: true,
        helpers: None,
        returns: None,
    }
}

/// The refusal where items may not flow or words may not be printed, in a filter's own text for
/// this reason.
pub fn no_flow(context: &Context, reason: Mismatch) -> LowerError
    ensures { result ≡ refused.TypeMismatch }
{
    match context.returns {
        Some(_) => LowerError::mismatch(Mismatch::FlowInHelper),
        None => LowerError::mismatch(reason),
    }
}

/// Whether items flow on a side.
pub fn carries_items(side: ItemType) -> bool
    ensures { result ≡ judged.carries_items side }
{
    match side {
        ItemType::Int => true,
        ItemType::Void => false,
    }
}
