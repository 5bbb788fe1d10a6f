//! The trait of what takes the values of wires.
ghost use Rattle.std.specs.Prelude.{◌≡◌, ℕ, [], ◌∷◌, OnOk, false, List};
ghost use Rattle.tv_core.specs.Values.{ValuesMeaning, GivesIn};

use crate::field::F;
use crate::sink::Put;

/// Takes the values of wires, in order.
///
/// It records the list of numbers that were passed. A refusal breaks it, as it does a sink.
pub trait Values {
    ghost giving: { ValuesMeaning Self };

    /// Appends a value. Returns `Failed` only where the taker's count of faults rose, and `Memory`
    /// only where its count of allocation failures rose.
    fn give(&mut self, value: F) -> Put<()>
        requires { giving.broken self.old ≡ false }
        ensures gives { GivesIn giving self.old self.new (value ∷ []) result }
        ensures whole { OnOk result (giving.broken self.new ≡ false) };

    // what is broken stands for no list
    ghost unbroken: { (taker : Self) (list : List ℕ) → giving.stands taker list
        → giving.broken taker ≡ false };
}

/// Assigns the values one after another.
pub fn give_values<V: Values>(v: &mut V, values: &[F]) -> Put<()>
    requires { V.giving.broken v.old ≡ false }
    ensures gives { GivesIn V.giving v.old v.new values.now result }
    ensures whole { OnOk result (V.giving.broken v.new ≡ false) }
{
    for value in values {
        v.give(*value)?;
    }
    Ok(())
}

/// Assigns words one after another, each as a number.
pub fn give_words<V: Values>(v: &mut V, words: &[u32]) -> Put<()>
    requires { V.giving.broken v.old ≡ false }
    ensures gives { GivesIn V.giving v.old v.new words.now result }
    ensures whole { OnOk result (V.giving.broken v.new ≡ false) }
{
    for word in words {
        v.give(F::from(*word))?;
    }
    Ok(())
}
