// What a filter without state promises, as laws about all filters, and worked rows.

ghost use Rattle.strc_rate.specs.StatelessPromises.{StatelessKeepsFields, StartedFieldsFit};
ghost use Rattle.strc_rate.specs.Rows.{StatelessRows};

/// A firing of a filter without state leaves the values of its fields as they were.
pub fn stateless_keeps_fields()
    ensures { StatelessKeepsFields }
{}

/// A filter starts with a value for each cell of its fields.
pub fn started_fields_fit()
    ensures { StartedFieldsFit }
{}

/// Which works leave a filter without state.
pub fn stateless_rows()
    ensures { StatelessRows }
{}
