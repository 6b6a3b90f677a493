//! Laws of the definitions. No function here does anything.

ghost use Rattle.go_grammar.specs.Laws.{DerivesOneFile, ReadsAllFiles, ReadsOnlyFiles};
ghost use Rattle.go_grammar.specs.Rows.{Rows};

/// The tree that the machine reads is one that the tokens derive, within the limits.
pub fn reads_only_files()
    ensures sound { ReadsOnlyFiles }
{}

/// Every tree that the tokens of a file derive, within the limits, is the one that the machine reads.
#[tactic(auto, using(crate::proofs::FileRules::reads_all_files))]
pub fn reads_all_files()
    ensures all { ReadsAllFiles }
{}

/// The tokens of a file derive at most one tree within the limits.
#[tactic(auto, using(crate::proofs::FileRules::derives_one_file))]
pub fn derives_one_file()
    ensures one { DerivesOneFile }
{}

/// Small files come out as worked out by hand from the grammar: trees, faults, limits.
pub fn rows()
    ensures rows { Rows }
{}
