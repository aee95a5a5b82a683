//! Laws of lines, each the contract of a function with an empty body.
ghost use Rattle.std.specs.Prelude.{◌≡◌, ℕ, List, Option};
ghost use Rattle.rhai_run.specs.declared.command.Command.{Command};
ghost use Rattle.rhai_lines.specs.Spelling.{IsLineOf, IsJournalOf};

/// Each command has either a line or none, never both: some row of the table makes it, and each row
/// that makes it gives the same line. So commands have either a journal or none.
pub fn commands_have_one_line()
    ensures some { (c : Command) → (line : Option (List ℕ)) × IsLineOf c line }
    ensures line { (c : Command) (a b : Option (List ℕ)) → IsLineOf c a → IsLineOf c b → a ≡ b }
    ensures journal { (commands : List Command) (a b : Option (List ℕ)) → IsJournalOf commands a → IsJournalOf commands b → a ≡ b }
{}
