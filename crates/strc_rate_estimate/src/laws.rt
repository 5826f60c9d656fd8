// Estimates of some statements.

ghost use Rattle.strc_rate_estimate.specs.Rows.{EstimateRow};

/// A product, a counted loop and one that isn't counted.
pub fn estimate_row()
    ensures { EstimateRow }
{}
