//! Each gadget over two words, whose wires follow wire 0, and the assignment of its generator.
ghost use Rattle.std.specs.Prelude.{◌≡◌, ◌+◌, ◌*◌, ◌≤◌};
ghost use Rattle.tv_core.specs.Sinks.{Room};
ghost use Rattle.tv_word.specs.Widths.{IsWidth};

use std::alloc::Global;
use std::test::Fail;
use tv_bits::{Bits, fill_bits};
use tv_cmp::{compare, fill_compare};
use tv_core::{F, ListValues, Put, Sink, Values, Wire};
use tv_decode::{Fields, fields, fill_fields};
use tv_limb::{Split, add, fill_add, fill_sub, sub};
use tv_logic::{fill_logic, logic};
use tv_muldiv::{
    High, Product, Quot, fill_product, fill_quotient, fill_signed_high, product, quotient,
    signed_high,
};
use tv_shift::{Shift, fill_shift, shift};

/// A gadget over two words.
#[derive(Clone, Copy, Debug)]
pub enum Gadget {
    Add,
    Sub,
    Compare,
    Logic,
    Shift,
    Product,
    SignedHigh,
    Quotient,
    Fields,
}

/// `n` wires from this one on.
pub fn bits(first: u32, n: u32) -> Bits
    ensures first { result.first ≡ first }
    ensures size { result.n ≡ n }
{
    Bits {
        first: Wire(first),
        n,
    }
}

/// Puts a gadget over the two words, and answers three of the rows of wires, or the wires, that it
/// does.
pub fn put<const W: u32, S: Sink>(s: &mut S, gadget: Gadget) -> Put<[Bits; 3]>
    requires width { IsWidth W }
    requires room { Room S.meaning s.old 80 84 }
    requires inputs { 2 * W + 1 ≤ S.meaning.wires s.old }
{
    let (x, y) = (bits(1, W), bits(W + 1, W));
    match gadget {
        Gadget::Add => {
            let Split { low, high } = add::<W, S>(s, &x, &y)?;
            Ok([low, high, bits(0, 0)])
        }
        Gadget::Sub => {
            let Split { low, high } = sub::<W, S>(s, &x, &y)?;
            Ok([low, high, bits(0, 0)])
        }
        Gadget::Compare => {
            let made = compare::<W, S>(s, &x, &y)?;
            Ok([made.equal, made.above, made.greater].map(|wire| bits(wire.0, 1)))
        }
        Gadget::Logic => {
            let made = logic::<W, S>(s, &x, &y)?;
            Ok([made.and_word, made.and_zero, made.or_word].map(|wire| bits(wire.0, 1)))
        }
        Gadget::Shift => {
            let Shift { left, right } = shift::<W, S>(s, &x, &y)?;
            Ok([bits(left.0, 1), bits(right.0, 1), bits(0, 0)])
        }
        Gadget::Product => {
            let Product { low, high, over } = product::<W, S>(s, &x, &y)?;
            Ok([low, high, bits(over.0, 1)])
        }
        Gadget::SignedHigh => {
            let High { high, over } = signed_high::<W, S>(s, &x, &y)?;
            Ok([high, bits(over.0, 1), bits(0, 0)])
        }
        Gadget::Quotient => {
            let Quot { quot, rem, by_zero } = quotient::<W, S>(s, &x, &y)?;
            Ok([quot, rem, bits(by_zero.0, 1)])
        }
        Gadget::Fields => {
            let Fields { op, imm, dest, .. } = fields::<W, S>(s, &x, &y)?;
            Ok([bits(op.0, 32), bits(imm.0, 1), bits(dest.0, 16)])
        }
    }
}

/// 1, the bits of two words, and the values that the gadget's generator assigns for them.
pub fn filled(alloc: Global, gadget: Gadget, x: u32, y: u32) -> Result<Vec<F>, Fail> {
    let mut values = ListValues::new(alloc);
    values.give(F::ONE)?;
    fill_bits(&mut values, F::of(u64::from(x)), 32)?;
    fill_bits(&mut values, F::of(u64::from(y)), 32)?;
    let given = match gadget {
        Gadget::Add => fill_add::<32, ListValues>(&mut values, x, y),
        Gadget::Sub => fill_sub::<32, ListValues>(&mut values, x, y),
        Gadget::Compare => fill_compare::<32, ListValues>(&mut values, x, y),
        Gadget::Logic => fill_logic::<32, ListValues>(&mut values, x, y),
        Gadget::Shift => fill_shift::<32, ListValues>(&mut values, x, y),
        Gadget::Product => fill_product::<32, ListValues>(&mut values, x, y),
        Gadget::SignedHigh => fill_signed_high::<32, ListValues>(&mut values, x, y),
        Gadget::Quotient => fill_quotient::<32, ListValues>(&mut values, x, y),
        Gadget::Fields => fill_fields::<32, ListValues>(&mut values, x, y),
    };
    given?;
    Ok(values.as_slice().to_vec(alloc)?)
}
