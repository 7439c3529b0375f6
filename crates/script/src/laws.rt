//! A law of scripts.
ghost use Rattle.std.specs.Prelude.{◌≡◌, ℕ, List, Ok, true};
ghost use Rattle.std.specs.List.{list_all};
ghost use Rattle.script.specs.Allowed.{allows_block};
ghost use Rattle.script.specs.Scripts.{Script, script_of};

/// A law: the header of a script allows what each of its lines says is done.
pub fn each_event_is_allowed()
    ensures { (text : List ℕ) (script : Script) → script_of text ≡ Ok script → list_all (allows_block script.header) script.blocks ≡ true }
{}
