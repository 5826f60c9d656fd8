// What calls of helper functions are estimated at.

ghost use Rattle.std.specs.Prelude.{◌≡◌, map};
ghost use Rattle.strc_rate_estimate.specs.Estimates as spec;
ghost use Rattle.strc_rate_estimate.specs.Tables.{helper_view};

use crate::sums::UNKNOWN_CALL;
use strc_lex_names::name::Name;
use strc_work_writes::writes::same_name;

/// A helper function, and the estimate of its body.
#[derive(Drop)]
pub(crate) struct HelperEstimate<'a> {
    pub(crate) name: &'a Name,
    pub(crate) estimate: u32,
}

/// The estimate of the body that a call runs.
pub(crate) fn call_estimate(helpers: &[HelperEstimate<'_>], name: &Name) -> u32
    ensures { result ≡ spec.call_estimate (map helper_view helpers.now) name.now }
{
    for helper in helpers {
        if same_name(helper.name, name) {
            return helper.estimate;
        }
    }
    UNKNOWN_CALL
}
