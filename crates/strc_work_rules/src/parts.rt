// Which parts a filter has.

ghost use Rattle.std.specs.Prelude.{◌≡◌};
ghost use Rattle.strc_work_meaning.specs.Filters as filters;
ghost use Rattle.strc_work_rules.specs.Resolution as judged;

use crate::site::Mismatch;
use strc_parse_tree::tree::Member;

/// Whether there is one work, and at most one prework and one `init`.
pub fn has_parts(members: &[Member]) -> bool
    ensures { result ≡ judged.has_parts (filters.members_of members.now) }
{
    let works = work_count(members);
    let preworks = prework_count(members);
    let inits = init_count(members);
    works == 1 && preworks < 2 && inits < 2
}

/// Which rule on its parts a filter breaks that hasn't the right ones.
pub fn broken_rule(members: &[Member]) -> Mismatch {
    if work_count(members) == 0 {
        Mismatch::NoWork
    } else if work_count(members) > 1 {
        Mismatch::SecondWork
    } else if prework_count(members) > 1 {
        Mismatch::SecondPrework
    } else {
        Mismatch::SecondInit
    }
}

/// How many works there are.
fn work_count(members: &[Member]) -> usize
    ensures { result ≡ filters.work_count (filters.members_of members.now) }
{
    let mut count = 0;
    for member in members {
        if let Member::Work(_, _) = member {
            count += 1;
        }
    }
    count
}

/// How many preworks there are.
fn prework_count(members: &[Member]) -> usize
    ensures { result ≡ judged.prework_count (filters.members_of members.now) }
{
    let mut count = 0;
    for member in members {
        if let Member::Prework(_, _) = member {
            count += 1;
        }
    }
    count
}

/// How many `init`s there are.
fn init_count(members: &[Member]) -> usize
    ensures { result ≡ judged.init_count (filters.members_of members.now) }
{
    let mut count = 0;
    for member in members {
        if let Member::Init(_) = member {
            count += 1;
        }
    }
    count
}
