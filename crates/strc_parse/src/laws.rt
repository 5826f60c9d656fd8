// What a text spells, as laws about all texts.

ghost use Rattle.strc_parse.specs.Texts.{SpellsOneProgram, SpelledTextsAreReadable};

/// A text spells one program.
pub fn one_program()
    ensures { SpellsOneProgram }
{}

/// A text that spells a program isn't too long, and neither its tokens nor its tree are refused.
pub fn spelled_texts_are_readable()
    ensures { SpelledTextsAreReadable }
{}
