// Whose lines are whose, in words.
ghost use Rattle.std.specs.Prelude.{◌≡◌, ◌++◌, ℕ, List, Contains};
ghost use Rattle.tso_run.specs.Lines.{lines_of_client};
ghost use Rattle.tso_run.specs.declared.line.ClientLine.{ClientLine};

/// Each line is its own client's and nobody else's, and a client's lines stand in the order of the script.
pub fn each_line_is_its_actors()
    ensures client { (lines : List ClientLine) (line : ClientLine) → Contains lines line →
        Contains (lines_of_client line.client lines) line }
    ensures no_other_client { (client : ℕ) (lines : List ClientLine) (line : ClientLine) →
        Contains (lines_of_client client lines) line → line.client ≡ client }
    ensures client_order { (client : ℕ) (lines later : List ClientLine) →
        lines_of_client client (lines ++ later) ≡
        lines_of_client client lines ++ lines_of_client client later }
{}
