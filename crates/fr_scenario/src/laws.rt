//! Laws of the lines of version 3. Each is the clause of a function without code.
ghost use Rattle.std.specs.Prelude.{◌≡◌, ℕ, List, [], Some};
ghost use Rattle.fr_names.specs.Names.{NamesOfNode};
ghost use Rattle.fr_scenario.specs.declared.statement.Statement.{Statement as Said};
ghost use Rattle.fr_scenario.specs.Lists.{line_statements};
ghost use Rattle.fr_scenario.specs.Statements.{statement_in};
ghost use Rattle.fr_scenario.specs.StatementText.{said_alone, statement_text, IsSaid};

// For the prover: the clause is the law.
/// In a cluster without names, a line without lists says nothing or a value in its ranges (project-defined).
pub fn statement_takes()
    ensures { (line : List ℕ) (s : Said) → statement_in [] line ≡ Some s → IsSaid s }
{}

// For the prover: the clause is the law.
/// Each such value has a spelling, which stands for it alone, whatever the names are (project-defined).
pub fn line_again()
    ensures { (names : List NamesOfNode) (s : Said) → IsSaid s
        → line_statements names (statement_text s) ≡ Some (said_alone s) }
{}
