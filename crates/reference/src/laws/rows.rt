//! Worked examples: what the definitions return for short scripts of calls.

ghost use Rattle.reference.specs.Rows.{NewDirectory, AtTheGreatestFile, CutAndLengthenedImage, EmptyImage, CutAndLengthened, FaultsOfEachKind, GapReadsAsZeros, MomentsInImages, MomentsOfCalls, MomentsOfRename, MomentsThatStay, NamesAtTheLimit, PrefixFaults, RenameBelowItself, RenameOntoAncestors, RenameOntoDirectories, ReplacedFile, SnapshotIsRead, SnapshotKeepsItsTree, SnapshotNames, SubtreeIsNotSibling, TooDeepToRename};

/// The definitions return the answers of the worked examples.
pub fn rows()
    ensures new_directory { NewDirectory }
    ensures prefix_faults { PrefixFaults }
    ensures subtree_is_not_sibling { SubtreeIsNotSibling }
    ensures gap_reads_as_zeros { GapReadsAsZeros }
    ensures cut_and_lengthened { CutAndLengthened }
    ensures empty_image { EmptyImage }
    ensures cut_and_lengthened_image { CutAndLengthenedImage }
    ensures at_the_greatest_file { AtTheGreatestFile }
    ensures rename_below_itself { RenameBelowItself }
    ensures rename_onto_directories { RenameOntoDirectories }
    ensures rename_onto_ancestors { RenameOntoAncestors }
    ensures too_deep_to_rename { TooDeepToRename }
    ensures replaced_file { ReplacedFile }
    ensures faults_of_each_kind { FaultsOfEachKind }
    ensures moments_of_calls { MomentsOfCalls }
    ensures moments_of_rename { MomentsOfRename }
    ensures moments_that_stay { MomentsThatStay }
    ensures moments_in_images { MomentsInImages }
    ensures names_at_the_limit { NamesAtTheLimit }
    ensures snapshot_keeps_its_tree { SnapshotKeepsItsTree }
    ensures snapshot_is_read { SnapshotIsRead }
    ensures snapshot_names { SnapshotNames }
{}
