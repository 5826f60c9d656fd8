// The estimate of a firing of a filter.

ghost use Rattle.std.specs.Prelude.{◌≡◌, IfOk, map};
ghost use Rattle.std.specs.Option.{option_map};
ghost use Rattle.strc_parse_tree.specs.View.{member_view};
ghost use Rattle.strc_rate_intervals.specs.Intervals.{names_of};
ghost use Rattle.strc_rate_estimate.specs.Filters as spec;
ghost use Rattle.strc_rate_estimate.specs.Tables.{helper_view};

use crate::calls::HelperEstimate;
use crate::statements::block_estimate;
use std::alloc::{AllocError, Global};
use strc_parse_tree::tree::{FilterTree, Member};
use strc_rate_intervals::interval_scope::IntervalScope;

/// An estimate of the work of a firing of `work`, in operations: from 0 on, saturated at
/// 1,000,000,000. An error comes where memory runs out.
pub fn firing_estimate(alloc: Global, tree: &FilterTree) -> Result<u32, AllocError>
    ensures { IfOk result (λ estimate. estimate
        ≡ spec.firing_estimate (map member_view tree.now.members.items)) }
{
    let names = IntervalScope::new(alloc);
    let helpers = helper_estimates(alloc, &tree.members, &names)?;
    Ok(work_estimate(&tree.members, &names, &helpers))
}

/// The estimate of the body of `work`; 0 where there is none.
fn work_estimate(members: &[Member], names: &IntervalScope, helpers: &[HelperEstimate<'_>]) -> u32
    ensures { result ≡ spec.work_estimate (names_of names.now) (map helper_view helpers.now)
        (map member_view members.now) }
{
    for member in members {
        if let Some(estimate) = member_work(member, names, helpers) {
            return estimate;
        }
    }
    0
}

/// The estimate of the body, where a member is `work`.
fn member_work(
    member: &Member,
    names: &IntervalScope,
    helpers: &[HelperEstimate<'_>],
) -> Option<u32>
    ensures { result ≡ spec.member_work (names_of names.now) (map helper_view helpers.now)
        (member_view member.now) }
{
    match member {
        Member::Work(_, block) => Some(block_estimate(block, names, helpers)),
        Member::Fields(_) | Member::Init(_) | Member::Prework(_, _) | Member::Helper(_, _, _, _) =>
            None,
    }
}

/// The helper functions, and the estimates of their bodies.
fn helper_estimates<'a>(
    alloc: Global,
    members: &'a [Member],
    names: &IntervalScope,
) -> Result<Vec<HelperEstimate<'a>>, AllocError>
    ensures { IfOk result (λ helpers. map helper_view helpers.items
        ≡ spec.helper_estimates (names_of names.now) (map member_view members.now)) }
{
    let mut helpers = Vec::new(alloc);
    for member in members {
        if let Some(helper) = member_helper(member, names) {
            helpers.push(helper)?;
        }
    }
    Ok(helpers)
}

/// The function and its estimate, where a member is a helper function.
fn member_helper<'a>(member: &'a Member, names: &IntervalScope) -> Option<HelperEstimate<'a>>
    ensures { option_map helper_view result
        ≡ spec.member_helper (names_of names.now) (member_view member.now) }
{
    match member {
        Member::Helper(_, name, _, block) => Some(HelperEstimate {
            name,
            estimate: block_estimate(block, names, &[]),
        }),
        Member::Fields(_) | Member::Init(_) | Member::Prework(_, _) | Member::Work(_, _) => None,
    }
}
