//! The expansion of an outline.
ghost use Rattle.std.specs.Prelude.{◌≡◌, ◌+◌, ◌^◌, ◌<◌, All, false, length};
ghost use Rattle.tv_core.specs.Meanings.{IsFit};
ghost use Rattle.tv_core.specs.Sinks.{Emits};
ghost use Rattle.tv_outline.specs.Expansion.{IsOutline, expansion_of, put_all};

use crate::outline::Outline;
use crate::place::{Place, after, set_at};
use tv_core::{Lc, Put, Sink};

/// Puts the constraints of an outline into a sink that has made the outline's wires.
pub fn expand<S: Sink>(outline: &Outline, s: &mut S) -> Put<()>
    requires outline { IsOutline outline.now }
    requires whole { S.meaning.broken s.old ≡ false }
    requires room { S.meaning.constraints s.old + length (expansion_of outline.now) < 2 ^ 32 }
    requires made { All (IsFit (S.meaning.wires s.old)) (expansion_of outline.now) }
    ensures { let list = expansion_of outline.now in
        Emits S.meaning s.old s.new (put_all list) 0 (length list) result }
{
    let mut at = Place {
        region: 0,
        turn: 0,
        row: 0,
    };
    let mut made = (Lc::empty(), Lc::empty(), Lc::empty());
    while set_at(outline, at, &mut made) {
        s.put(&made.0, &made.1, &made.2)?;
        at = after(outline, at);
    }
    Ok(())
}
