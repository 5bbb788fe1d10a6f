//! What the definitions say of a small packed line, and of the networks' sizes. These are no tests,
//! so they are proved where the crate is proved without its tests too.
ghost use Rattle.std.specs.Prelude.{◌≡◌};
ghost use Rattle.tv_benes.specs.Through.{switches};
ghost use Rattle.tv_benes.specs.declared.shape.Net.TheVariants.{Benes, Waksman};
ghost use Rattle.tv_lines.specs.PackedLines.{packed, unpacked};

/// A line as two numbers: the cell above the old word, and the time above the new word.
pub fn a_line_is_two_numbers()
    ensures packed { packed (record { cell = 3; time = 2; old = 5; new = 7 })
        ≡ record { first = 12884901893; second = 8589934599 } }
    ensures unpacked { unpacked (record { first = 12884901893; second = 8589934599 })
        ≡ record { cell = 3; time = 2; old = 5; new = 7 } }
{}

/// How many switches networks on 8 and on 2^20 items have: (2 k - 1) 2^(k - 1) by Benes, and
/// (k - 1) 2^k + 1 by Waksman.
pub fn switches_of_networks()
    ensures benes_of_8 { switches Benes 2 ≡ 20 }
    ensures waksman_of_8 { switches Waksman 2 ≡ 17 }
    ensures benes { switches Benes 19 ≡ 20447232 }
    ensures waksman { switches Waksman 19 ≡ 19922945 }
{}
