// Reading byte by byte gives the numbers of the whole input.

ghost use Rattle.strc_cli_input.specs.Reading.{FailsForGood, GivenBeginsSo, GivenIsSo};
ghost use Rattle.strc_cli_input.specs.Reading.{GivenRow};
ghost use Rattle.strc_cli_input.specs.Reading.{ReadsInPieces, ReadsInts};

/// Reading byte by byte gives the numbers of the bytes.
pub fn reads_ints()
    ensures { ReadsInts }
{}

/// What comes after a word that writes no number changes nothing.
pub fn fails_for_good()
    ensures { FailsForGood }
{}

/// Reading the bytes of one piece and then those of another reads the bytes of both.
pub fn reads_in_pieces()
    ensures { ReadsInPieces }
{}

/// The numbers that were read are the first of those that the input gives, whatever comes next.
pub fn given_begins_so()
    ensures { GivenBeginsSo }
{}

/// An input gives all of its numbers, or as many as are before its first wrong word.
pub fn given_is_so()
    ensures { GivenIsSo }
{}

/// Of `5 -6 x 7` two numbers are given, and word 2 writes none.
pub fn given_row()
    ensures { GivenRow }
{}
