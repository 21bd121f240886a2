//! What the script says, as a contract of a function that does nothing.
ghost use Rattle.std.specs.Prelude.{◌≡◌, ◌≤◌, ℕ, List, map, Ok};
ghost use Rattle.script_read.specs.Commands.{Command};
ghost use Rattle.script_read.specs.Script.{split_of};
ghost use Rattle.load_script.specs.Commands.{load_commands};
ghost use Rattle.load_script.specs.Script.{load_text};

/// A law of the script: it splits into exactly the commands that are made, whatever their number is.
pub fn commands_are_made()
    ensures { (n : ℕ) → n ≤ 100000 → (commands : List Command) × (split_of (load_text n) ≡ Ok commands) × (map (λ c. c.what) commands ≡ load_commands n) }
{}
