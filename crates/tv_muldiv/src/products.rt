//! The product of two words.
ghost use Rattle.std.specs.Prelude.{◌≡◌, ◌+◌, ◌*◌, ◌^◌, ◌≤◌, ◌<◌, false, IfOk, OnOk};
ghost use Rattle.tv_bits.specs.Bits.{AreBitsBelow};
ghost use Rattle.tv_core.specs.Values.{GivesIn};
ghost use Rattle.tv_core.specs.Sinks.{Emits, Room};
ghost use Rattle.tv_word.specs.Widths.{IsWidth};
ghost use Rattle.tv_muldiv.specs.Product.{product_bits_of, product_of, product_values};
ghost use Rattle.tv_muldiv.specs.Product.{ProductIsSound, ProductIsComplete, ProductSizes};

use crate::numbers::{fill_halves, set_long_number};
use crate::records::Product;
use tv_bits::{Bits, fill_nonzero, new_bits_by, nonzero_by};
use tv_core::{F, Put, Scratch, Sink, Values, Wire};

/// Constrains new bits to the low and the high word of the product of two words of `W` bits, and a
/// wire to 1 exactly where the high word isn't 0, else 0. It makes `2 W + 2` wires and `2 W + 3`
/// constraints, of `12 W + 4` terms: 66, 67 and 388 at 32 bits.
pub fn product<const W: u32, S: Sink>(s: &mut S, x: &Bits, y: &Bits) -> Put<Product>
    requires width { IsWidth W }
    requires room { Room S.meaning s.old (2 * W + 2) (2 * W + 3) }
    requires x_word { AreBitsBelow (S.meaning.wires s.old) W x.now }
    requires y_word { AreBitsBelow (S.meaning.wires s.old) W y.now }
    ensures emits { Emits S.meaning s.old s.new
        (product_of W x.now y.now) (2 * W + 2) (2 * W + 3) result }
    ensures words_below { IfOk result (λ made. AreBitsBelow (S.meaning.wires s.new) W made.low
        × AreBitsBelow (S.meaning.wires s.new) W made.high) }
    ensures over_below { IfOk result (λ made. made.over < S.meaning.wires s.new) }
{
    let mut scratch = Scratch::new();
    let first = product_bits::<W, S>(s, &mut scratch, x, y)?;
    let low = Bits { first, n: W };
    let high = Bits {
        first: first.offset(W),
        n: W,
    };
    high.set_number(&mut scratch.a);
    let over = nonzero_by(s, &mut scratch)?;
    Ok(Product { low, high, over })
}

// The first of `2 W` wires that represent the product. The lowest needs no constraint of its own:
// it is a product of two bits.
fn product_bits<const W: u32, S: Sink>(
    s: &mut S,
    scratch: &mut Scratch,
    x: &Bits,
    y: &Bits,
) -> Put<Wire>
    requires width { IsWidth W }
    requires room { Room S.meaning s.old (2 * W) (2 * W + 1) }
    requires x_word { AreBitsBelow (S.meaning.wires s.old) W x.now }
    requires y_word { AreBitsBelow (S.meaning.wires s.old) W y.now }
    ensures emits { Emits S.meaning s.old s.new
        (product_bits_of W x.now y.now) (2 * W) (2 * W + 1) result }
    ensures below { IfOk result (λ first. first + 2 * W ≤ S.meaning.wires s.new) }
{
    let first = s.fresh();
    new_bits_by(s, scratch, 2 * W - 1)?;
    scratch.a.set_wire(x.first);
    scratch.b.set_wire(y.first);
    scratch.c.set_wire(first);
    s.put(&scratch.a, &scratch.b, &scratch.c)?;
    x.set_number(&mut scratch.a);
    y.set_number(&mut scratch.b);
    set_long_number::<W>(&mut scratch.c, first);
    s.put(&scratch.a, &scratch.b, &scratch.c)?;
    Ok(first)
}

/// Assigns the `2 W + 2` values of the wires that `product` makes for bits that represent `x` and
/// `y`.
pub fn fill_product<const W: u32, V: Values>(v: &mut V, x: u32, y: u32) -> Put<()>
    requires width { IsWidth W }
    requires x_word { x < 2 ^ W }
    requires y_word { y < 2 ^ W }
    requires whole { V.giving.broken v.old ≡ false }
    ensures gives { GivesIn V.giving v.old v.new (product_values W x y) result }
    ensures whole { OnOk result (V.giving.broken v.new ≡ false) }
{
    let product = u64::from(x) * u64::from(y);
    fill_halves::<W, V>(v, product)?;
    fill_nonzero(v, F::of(product >> W))
}

/// The laws of `product`:
/// - `sound`: where bits represent words and an assignment satisfies the constraints of `product`,
///   its wires represent their product.
/// - `complete`: where bits represent words and an assignment has the values that `fill_product`
///   assigns, it satisfies the constraints of `product`.
/// - `sizes`: which wires `product` returns and how many it makes, whatever the next wire is, and
///   that `fill_product` assigns one value below P to each of them.
pub fn product_laws()
    ensures sound { ProductIsSound }
    ensures complete { ProductIsComplete }
    ensures sizes { ProductSizes }
{}
