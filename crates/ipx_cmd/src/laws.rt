//! Laws of the definitions: functions that do nothing, whose contracts say what holds of all bytes.
ghost use Rattle.std.specs.Prelude.{List, ℕ};
ghost use Rattle.ipx_cmd.specs.Continues.{Continues, InternetContinues, ScriptContinues};

/// What follows changes nothing of the text of a capture or a script so far: the text of more bytes begins with it, and where it
/// ends in a fault that no further bytes take back, it is all of their text.
/// That holds of scripts for one router and of scripts for an internet.
pub fn continues()
    ensures capture { (bytes more : List ℕ) → Continues bytes more }
    ensures script { (bytes more : List ℕ) → ScriptContinues bytes more }
    ensures internet { (bytes more : List ℕ) → InternetContinues bytes more }
{}
