//! Compact lines of memory.
ghost use Rattle.std.specs.Prelude.{◌≡◌, ◌+◌, ◌-◌, ◌^◌, ◌%◌, ◌≤◌, ◌++◌, [], length, max};
ghost use Rattle.tv_core.specs.Combinations.{constant, scaled, top};
ghost use Rattle.tv_core.specs.Normal.{normal, IsNormal};
ghost use Rattle.tv_core.specs.declared.field.TheConstants.{P};
ghost use Rattle.tv_lines.specs.PackedLines.{pack_item};
ghost use Rattle.tv_lines.specs.Predecessor.{less_above};
ghost use Rattle.tv_lines.specs.Compact.{cell_lc, word_lc, line_lc};

use tv_core::{F, Lc, LineLc, Pair, Wire};

// By how much the cell and the time stand above the words of a packed line.
pub(crate) const SHIFT: u64 = 1 << 32;

/// A line of memory in compact form: the parts of its combinations. It takes a few bytes, and the
/// combinations take 8 KB.
#[derive(Clone, Copy)]
pub struct CompactLine {
    /// The number of the cell.
    pub cell: Cell,
    /// The time.
    pub time: u32,
    /// The cell's word before that time.
    pub old: Word,
    /// The cell's word from then on.
    pub new: Word,
}

/// The number of a cell. A constant number is a multiple of the constant wire.
#[derive(Clone, Copy)]
pub enum Cell {
    /// A multiple of a wire.
    Multiple(F, Wire),
    /// The cell after that one.
    After(F, Wire),
}

/// A word of a line.
#[derive(Clone, Copy)]
pub enum Word {
    /// 0, which has no term.
    Nothing,
    /// A constant number.
    Number(u32),
    /// The value of a wire.
    Wired(Wire),
}

impl CompactLine {
    /// Its combinations.
    pub fn lc(&self) -> LineLc
        ensures { result ≡ line_lc self.now }
    {
        LineLc {
            cell: self.cell.lc(),
            time: Lc::constant(F::from(self.time)),
            old: self.old.lc(),
            new: self.new.lc(),
        }
    }

    /// Writes the line's item into `pair`: 2^32 times the cell; the new word and 2^32 times the
    /// time. It is the line as `pack` writes it, with its old word left out, and made normal: at
    /// most two terms each.
    pub fn item(&self, pair: &mut Pair)
        ensures item { pair.new ≡ pack_item (line_lc self.now) }
        ensures first { length pair.new.first ≤ 2 }
        ensures second { length pair.new.second ≤ 2 }
    {
        pair.first.clear();
        self.cell.add_above(&mut pair.first);
        pair.second.clear();
        self.new.add_to(&mut pair.second);
        pair.second.add(F::of(SHIFT) * F::from(self.time), Wire(0));
    }
}

impl Cell {
    // Its combination.
    fn lc(self) -> Lc
        ensures { result ≡ cell_lc self }
    {
        let mut lc = Lc::empty();
        match self {
            Cell::Multiple(factor, wire) => lc.plus(factor, wire),
            Cell::After(factor, wire) => {
                lc.plus(factor, wire);
                lc.plus(F::ONE, Wire(0));
            }
        }
        lc
    }

    // Subtracts 2^32 times it from a normal combination.
    pub(crate) fn subtract_above(self, lc: &mut Lc)
        requires normal { IsNormal lc.old }
        requires room { length lc.old ≤ 126 }
        ensures terms { lc.new ≡ less_above lc.old (cell_lc self) }
        ensures normal { IsNormal lc.new }
        ensures len { length lc.new ≤ length lc.old + 2 }
        ensures top { top lc.new ≤ max (top lc.old) (top (cell_lc self)) }
    {
        match self {
            Cell::Multiple(factor, wire) => lc.add(-F::of(SHIFT) * factor, wire),
            Cell::After(factor, wire) => {
                lc.add(-F::of(SHIFT) * factor, wire);
                lc.add(-F::of(SHIFT), Wire(0));
            }
        }
    }

    // Adds 2^32 times it to a combination without terms.
    fn add_above(self, lc: &mut Lc)
        requires { lc.old ≡ [] }
        ensures terms { lc.new ≡ normal (scaled (2 ^ 32 % P) (cell_lc self)) }
        ensures len { length lc.new ≤ 2 }
    {
        match self {
            Cell::Multiple(factor, wire) => lc.add(F::of(SHIFT) * factor, wire),
            Cell::After(factor, wire) => {
                lc.add(F::of(SHIFT) * factor, wire);
                lc.add(F::of(SHIFT), Wire(0));
            }
        }
    }
}

impl Word {
    // Its combination.
    fn lc(self) -> Lc
        ensures { result ≡ word_lc self }
    {
        match self {
            Word::Nothing => Lc::empty(),
            Word::Number(number) => Lc::constant(F::from(number)),
            Word::Wired(wire) => Lc::wire(wire),
        }
    }

    // Subtracts it from a normal combination.
    pub(crate) fn subtract_from(self, lc: &mut Lc)
        requires normal { IsNormal lc.old }
        requires room { length lc.old ≤ 127 }
        ensures terms { lc.new ≡ normal (lc.old ++ scaled (P - 1) (word_lc self)) }
        ensures normal { IsNormal lc.new }
        ensures len { length lc.new ≤ length lc.old + 1 }
        ensures top { top lc.new ≤ max (top lc.old) (top (word_lc self)) }
    {
        match self {
            Word::Nothing => {}
            Word::Number(number) => lc.add(-F::ONE * F::from(number), Wire(0)),
            Word::Wired(wire) => lc.add(-F::ONE, wire),
        }
    }

    // Adds it to a combination without terms.
    pub(crate) fn add_to(self, lc: &mut Lc)
        requires empty { lc.old ≡ [] }
        ensures terms { lc.new ≡ normal (word_lc self) }
        ensures normal { IsNormal lc.new }
        ensures len { length lc.new ≤ 1 }
        ensures top { top lc.new ≤ top (word_lc self) }
    {
        match self {
            Word::Nothing => {}
            Word::Number(number) => lc.add(F::from(number), Wire(0)),
            Word::Wired(wire) => lc.add(F::ONE, wire),
        }
    }
}

// Subtracts 2^32 times a number from a normal combination.
pub(crate) fn subtract_number_above(lc: &mut Lc, number: u32)
    requires normal { IsNormal lc.old }
    requires room { length lc.old ≤ 127 }
    ensures terms { lc.new ≡ less_above lc.old (constant number) }
    ensures len { length lc.new ≤ length lc.old + 1 }
    ensures top { top lc.new ≤ max (top lc.old) 1 }
{
    lc.add(-F::of(SHIFT) * F::from(number), Wire(0));
}
