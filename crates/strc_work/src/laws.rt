// What the walk of `strc_work_rules` has to do with the relation, as laws over definitions.

ghost use Rattle.strc_work.specs.Laws.{WalkGivesTypes, WalkAcceptsValues, TypesAreUnique};
ghost use Rattle.strc_work.specs.Laws.{WalkGivesNumbers, NumbersAreUnique};
ghost use Rattle.strc_work.specs.Laws.{ConstantsMeanTheirValue};
ghost use Rattle.strc_work.specs.Laws.{WalkAcceptsTypes, WalkAcceptsStatements};
ghost use Rattle.strc_work.specs.Laws.{WalkAcceptsBlocks, WalkAcceptsRates};
ghost use Rattle.strc_work.specs.Laws.{WalkAcceptsMembers, WalkAcceptsFilters};
ghost use Rattle.strc_work.specs.Examples.{ExpressionRows, NumberRows, StatementRows, FilterRows};

/// The walk accepts an expression at a type exactly where the expression has it.
pub fn walk_gives_types()
    ensures { WalkGivesTypes }
{}

/// The walk accepts an expression of a needed type exactly where the expression has that type.
pub fn walk_accepts_values()
    ensures { WalkAcceptsValues }
{}

/// An expression has at most one type.
pub fn types_are_unique()
    ensures { TypesAreUnique }
{}

/// The walk finds a number of a constant expression exactly where the expression means it.
pub fn walk_gives_numbers()
    ensures { WalkGivesNumbers }
{}

/// A constant expression has at most one number.
pub fn numbers_are_unique()
    ensures { NumbersAreUnique }
{}

/// The value of an expression that names no variable is that of the expression wherever it is.
pub fn constants_mean_their_value()
    ensures { ConstantsMeanTheirValue }
{}

/// The walk accepts a declared type exactly where it can be declared.
pub fn walk_accepts_types()
    ensures { WalkAcceptsTypes }
{}

/// The walk accepts a statement exactly where it is well formed.
pub fn walk_accepts_statements()
    ensures { WalkAcceptsStatements }
{}

/// The walk accepts a block exactly where its statements are well formed.
pub fn walk_accepts_blocks()
    ensures { WalkAcceptsBlocks }
{}

/// The walk accepts a rate exactly where it is a constant expression that fits its side.
pub fn walk_accepts_rates()
    ensures { WalkAcceptsRates }
{}

/// The walk accepts the members of a filter exactly where they are well formed.
pub fn walk_accepts_members()
    ensures { WalkAcceptsMembers }
{}

/// The walk accepts a filter exactly where the filter is well typed.
pub fn walk_accepts_filters()
    ensures { WalkAcceptsFilters }
{}

/// Small expressions, numbers, statements and filters, well typed and not.
pub fn rows_hold()
    ensures expressions { ExpressionRows }
    ensures numbers { NumberRows }
    ensures statements { StatementRows }
    ensures filters { FilterRows }
{}
