// Laws on scripts: what is read, and what is read of what was printed.
ghost use Rattle.std.specs.Prelude.{◌≡◌, List, Ok, ℕ};
ghost use Rattle.ak_script.specs.Script.{KeepsLimits, Script, script_of};
ghost use Rattle.ak_script.specs.Text.{printed};

/// Each script that is read keeps the limits: its moves and turns are few, and its numbers in their ranges.
pub fn read_scripts_keep_limits()
    ensures { (bytes : List ℕ) (script : Script) → script_of bytes ≡ Ok script → KeepsLimits script }
{}

/// The canonical text of a script is read as that script.
pub fn printed_scripts_read_back()
    ensures { (script : Script) → KeepsLimits script → script_of (printed script) ≡ Ok script }
{}

/// Scripts with the same canonical text are equal.
pub fn printed_texts_tell_scripts()
    ensures { (first second : Script) → KeepsLimits first → KeepsLimits second → printed first ≡ printed second → first ≡ second }
{}
