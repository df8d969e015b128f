//! Laws of what files stand for, each the contract of a function that does nothing.
ghost use Rattle.std.specs.Prelude.{◌≡◌, ℕ, List, Result};
ghost use Rattle.ucq_reader.specs.Statement.{Word, Statement};
ghost use Rattle.ucq_reader.specs.File.{AreStatements};
ghost use Rattle.ucq_reader.specs.Meaning.{Meant};
ghost use Rattle.ucq_reader.specs.Input.{IsMeaning};
ghost use Rattle.ucq_reader.specs.Outcome.{IsFault};
ghost use Rattle.ucq_reader.specs.declared.ReadFault.{ReadFault};
ghost use Rattle.ucq_reader.specs.declared.ReadFault.TheVariants.{Memory};

/// Words are spelled by one list of statements at most.
pub fn one_grammar()
    ensures { (words : List Word) (a b : List Statement) →
        AreStatements words a →
        AreStatements words b →
        a ≡ b }
{}

/// Files have one meaning at most: an input, or one refusal.
pub fn one_meaning()
    ensures { (files : List (List ℕ)) (a b : Result Meant ReadFault) →
        IsMeaning files a →
        IsMeaning files b →
        a ≡ b }
{}

/// Files that stand for something are never refused: whatever the reader answers of them, but for want of memory, is an
/// input.
pub fn meant_files_are_not_refused()
    ensures { (files : List (List ℕ)) (meant : Meant) (fault : ReadFault) →
        IsMeaning files (Ok meant) →
        IsFault files fault →
        fault ≡ Memory }
{}
