// The rules on rates.

ghost use Rattle.std.specs.Prelude.{◌≡◌, ℤ, map, Some};
ghost use Rattle.strc_parse_tree.specs.View.{expr_view, rate_view};
ghost use Rattle.strc_work_rules.specs.Resolution as judged;
ghost use Rattle.strc_work_rules.specs.RefusedPlaces.{Stands, rates_place};
ghost use Rattle.strc_work_rules.specs.Verdicts.{IsVerdict, RateList};

use crate::error::LowerError;
use crate::kept::push_next;
use crate::site::Mismatch;
use crate::{context, expression_rules};
use std::alloc::Global;
use strc_lex_names::place::Span;
use strc_parse_tree::tree::{Expr, ItemType, RateKind, RateTree};
use strc_work_meaning::constants::Constants;
use strc_work_meaning::evaluation;
use strc_work_meaning::typed_scope::TypedScope;
use strc_work_meaning::types::ValueType;

/// The rates of a body.
pub fn resolve_rates(
    alloc: Global,
    constants: &Constants,
    fields: &TypedScope,
    input: ItemType,
    output: ItemType,
    here: &mut Option<Span>,
    rates: &[RateTree],
) -> Result<Vec<RateTree>, LowerError>
    ensures verdict { IsVerdict (λ (resolved : RateList). map rate_view resolved.items)
        (judged.rates_resolved constants.now fields.now input output (map rate_view rates.now))
        result }
    ensures here { Stands result (rates_place constants.now fields.now input output here.old
        rates.now) here.old here.new }
{
    let mut resolved = Vec::new(alloc);
    for rate in rates {
        let next = resolve_rate(alloc, constants, fields, input, output, here, rate);
        push_next(&mut resolved, next)?;
    }
    Ok(resolved)
}

/// A rate, where a refusal of it is.
fn resolve_rate(
    alloc: Global,
    constants: &Constants,
    fields: &TypedScope,
    input: ItemType,
    output: ItemType,
    here: &mut Option<Span>,
    written: &RateTree,
) -> Result<RateTree, LowerError>
    ensures verdict { IsVerdict rate_view
        (judged.rate_resolved constants.now fields.now input output (rate_view written.now))
        result }
    ensures here { Stands result (Some written.now.place) here.old here.new }
{
    let around = *here;
    *here = Some(written.place);
    let resolved = resolve_side(alloc, constants, fields, input, output, written)?;
    *here = around;
    Ok(resolved)
}

/// A rate, on a side where it may be declared.
fn resolve_side(
    alloc: Global,
    constants: &Constants,
    fields: &TypedScope,
    input: ItemType,
    output: ItemType,
    written: &RateTree,
) -> Result<RateTree, LowerError>
    ensures { IsVerdict rate_view
        (judged.rate_resolved constants.now fields.now input output (rate_view written.now))
        result }
{
    let number = resolve_number(alloc, constants, fields, &written.rate)?;
    if !fits(input, output, written.kind, number) {
        return Err(LowerError::mismatch(Mismatch::RateWithoutItems));
    }
    Ok(RateTree {
        kind: written.kind,
        rate: Expr::Number(number),
        place: written.place,
    })
}

/// The number of a rate or of a length, over constants alone.
pub fn resolve_number(
    alloc: Global,
    constants: &Constants,
    names: &TypedScope,
    value: &Expr,
) -> Result<i32, LowerError>
    ensures { IsVerdict (λ (number : ℤ). number)
        (judged.number_resolved constants.now names.now (expr_view value.now))
        result }
{
    let context = context::rate_context(constants);
    let value = expression_rules::resolve_as(alloc, &context, names, ValueType::Int, value)?;
    match evaluation::constant_value(&value) {
        Ok(number) => Ok(number),
        Err(cause) => Err(LowerError::fault(cause)),
    }
}

/// Whether a rate may be declared: above 0 only where items flow.
fn fits(input: ItemType, output: ItemType, kind: RateKind, number: i32) -> bool
    ensures { result ≡ judged.rate_fits input output kind number }
{
    let side = match kind {
        RateKind::Push => output,
        RateKind::Pop | RateKind::Peek => input,
    };
    number <= 0 || context::carries_items(side)
}
