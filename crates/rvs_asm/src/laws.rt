// Laws of the assembler's definitions.
ghost use Rattle.rvs_asm.specs.Laws.{PartsMakeAddress, OneImageEach, ImagesAreAnswered};
ghost use Rattle.rvs_asm.specs.Laws.{RefusedHaveNone, FirstFaultsAreFirst, SecondFaultsAreFirst};
ghost use Rattle.rvs_asm.specs.Standing.{LinesHaveTheirSizes, LinesStand};
ghost use Rattle.rvs_asm.specs.Waiting.{BranchIsBegun, BranchIsMade, BranchWaits, TargetIsMissing};

/// `%hi` and the signed `%lo` of every address make the address modulo 2^32.
pub fn parts_make_the_address()
    ensures { PartsMakeAddress }
{}

/// A text has no second image: any two that stand to it are one, the one that `assemble` answers.
pub fn one_image_each()
    ensures one { OneImageEach }
    ensures answered { ImagesAreAnswered }
{}

/// No image stands to a text that `assemble` refuses, save for want of memory; and of the faults of
/// its lines the one that is told is the first, by its line and then by its kind: of what a line
/// says under the lines before it, and, where none has such a fault, of what it says under all
/// symbols.
#[tactic(auto, using(crate::proofs::Firsts::refused_have_none, crate::proofs::Firsts::first_faults_are_first, crate::proofs::Firsts::second_faults_are_first))]
pub fn refusals_are_first()
    ensures none { RefusedHaveNone }
    ensures first { FirstFaultsAreFirst }
    ensures second { SecondFaultsAreFirst }
{}

/// A line that is read makes as many bytes as its size says, and in an image they lie in the
/// location of the line, behind those of the lines before it, with the address that its label
/// marks.
#[tactic(auto, using(crate::proofs::Sizes::lines_have_their_sizes, crate::proofs::Offsets::lines_stand))]
pub fn lines_stand_in_their_places()
    ensures sizes { LinesHaveTheirSizes }
    ensures places { LinesStand }
{}

/// A branch to a symbol that no line has had yet is taken by every core: its word has the distance
/// 0, and its place, the first line at the start of the text, waits for the symbol.
pub fn a_branch_waits_for_its_symbol()
    ensures begun { BranchIsBegun }
    ensures made { BranchIsMade }
    ensures waits { BranchWaits }
    ensures missing { TargetIsMissing }
{}
