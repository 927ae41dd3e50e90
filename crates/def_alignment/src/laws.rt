// The law of alignments.
ghost use Rattle.def_alignment.specs.AlignmentLaws.{CommonLinesAreLongest};

/// The common lines of an alignment are a longest common subsequence of the two lists.
pub fn common_lines_are_longest()
    ensures { CommonLinesAreLongest }
{}
