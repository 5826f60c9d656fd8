// The law of the grammar.

ghost use Rattle.strc_parse_grammar.specs.Grammar.{IsUnambiguous};

/// Two programs never share a spelling.
pub fn one_tree()
    ensures { IsUnambiguous }
{}
