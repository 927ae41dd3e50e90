// The laws of renamings.
ghost use Rattle.def_renaming.specs.Laws.{PairsOfAPrefixAreSound, PairsOfAPrefixAreLeast};
ghost use Rattle.def_renaming.specs.Laws.{FoundRenamingIsSound, RenamingIsFound};

/// The pairs that messages need to be the first ones of a list make them so, and are the least that do: whatever pairs
/// do so have them.
pub fn pairs_of_a_prefix_are_least()
    ensures sound { PairsOfAPrefixAreSound }
    ensures least { PairsOfAPrefixAreLeast }
{}

/// The pairs that are found for groups of messages are one to one, and by them each group is a prefix of a list.
/// Where there are such pairs, some are found.
pub fn a_renaming_is_found()
    ensures sound { FoundRenamingIsSound }
    ensures complete { RenamingIsFound }
{}
