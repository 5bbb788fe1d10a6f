//! What the definition of a number in a file says of a few bytes, and what files in memory count.
ghost use Rattle.std.specs.Prelude.{◌≡◌, [], ◌∷◌};
ghost use Rattle.tv_container.specs.Places.{number};
ghost use Rattle.tv_files.specs.MemFiles.{outside_of, calls_of, failing_of, nothing};

use tv_files::{Files, MemFiles};

/// Bytes are a number, the lowest first, at any place. It is no test, so it is proved where the
/// crate is proved without its tests too.
pub fn bytes_spell_numbers()
    ensures four { number (1 ∷ 2 ∷ 0 ∷ 0 ∷ 9 ∷ []) 4 0 ≡ 513 }
    ensures at_one { number (1 ∷ 2 ∷ 0 ∷ 0 ∷ 9 ∷ []) 4 1 ≡ 150994946 }
{}

/// Each of the four calls raises one count where its number is listed: a read that of faults of
/// reading, `create` and `append` that of faults of writing, `say` its own. None runs out of
/// memory.
pub fn listed_faults_are_counted(files: &mut MemFiles)
    requires known { outside_of files.old ≡ nothing }
    requires calls { calls_of files.old ≡ 0 }
    requires failing { failing_of files.old ≡ 1 ∷ 2 ∷ 3 ∷ 4 ∷ [] }
    ensures read_faults { (outside_of files.new).read_faults ≡ 1 }
    ensures write_faults { (outside_of files.new).write_faults ≡ 2 }
    ensures say_faults { (outside_of files.new).say_faults ≡ 1 }
    ensures wants { (outside_of files.new).wants ≡ 0 }
{
    let _ = files.read("none", 0, &mut []);
    let _ = files.create("none");
    let _ = files.append("none", b"");
    let _ = files.say(b"");
}
