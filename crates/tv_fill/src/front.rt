//! The values before those of the steps.
ghost use Rattle.std.specs.Prelude.{◌≡◌, false, length, slice_index, OnOk};
ghost use Rattle.tv_bits.specs.Bits.{bits_values};
ghost use Rattle.tv_core.specs.Below.{joined_below};
ghost use Rattle.tv_core.specs.Values.{GivesIn};
ghost use Rattle.tv_fill.specs.Filled.{front_values};
ghost use Rattle.tv_word.specs.Widths.{IsWidth};

use tv_bits::fill_bits;
use tv_core::{F, Put, Values, give_values, give_words};
use tv_layout::STATE_WIRES;

// Assigns the values before those of the steps: 1, the answer, the tape's words, their bits, and
// the first state, all of it 0.
pub(crate) fn fill_front<const W: u32, V: Values>(v: &mut V, answer: u32, tape: &[u32]) -> Put<()>
    requires width { IsWidth W }
    requires whole { V.giving.broken v.old ≡ false }
    ensures gives { GivesIn V.giving v.old v.new (front_values W answer tape.now) result }
    ensures whole { OnOk result (V.giving.broken v.new ≡ false) }
{
    give_values(v, &[F::ONE, F::from(answer)])?;
    give_words(v, tape)?;
    fill_bits_of_words::<W, V>(v, tape)?;
    give_values(v, &[F::ZERO; STATE_WIRES as usize])
}

// Assigns the bits of words.
fn fill_bits_of_words<const W: u32, V: Values>(v: &mut V, words: &[u32]) -> Put<()>
    requires width { IsWidth W }
    requires whole { V.giving.broken v.old ≡ false }
    ensures gives { GivesIn V.giving v.old v.new
        (joined_below (length words.now) (λ i. bits_values (slice_index words.now i) W)) result }
    ensures whole { OnOk result (V.giving.broken v.new ≡ false) }
{
    for word in words {
        fill_bits(v, F::from(*word), W)?;
    }
    Ok(())
}
