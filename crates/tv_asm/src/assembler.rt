//! The image of a program text, a line at a time.
ghost use Rattle.std.specs.Prelude.{◌≡◌, ◌<◌, ◌≤◌, ◌^◌, ◌⊎◌, ◌==◌, length, OnOk, IfOk};
ghost use Rattle.std.specs.Prelude.{IfErr, Ok, Err};
ghost use Rattle.std.specs.List.{All};
ghost use Rattle.tv_asm.specs.Assembly.{assembled, line_words, with_line};
ghost use Rattle.tv_asm.specs.Header.{width_of};
ghost use Rattle.tv_asm.specs.Views.{address_in, context_in, is_earlier, words_said};
ghost use Rattle.tv_word.specs.Widths.{IsWidth};

use crate::fault::{AsmFault, AsmWhy};
use crate::header::is_good_header;
use crate::instruction::words_of;
use crate::labels::Labels;
use crate::line::{Statement, code_of, is_text};
use crate::text::next_line;
use std::alloc::Global;
use tv_word::Words;

/// Returns the image of a program text for words of `W` bits, 16 or 32: the words of its
/// instructions in order, at most `most` of them. It is exactly the image that the definition has
/// for the whole text, unless memory runs out. A text for words of 16 bits is one whose `width` is
/// 16; with 32 its header is refused.
///
/// The first line at fault is reported, by its number from 1: `Bad` with its first reason, in the
/// order of `AsmWhy`, or `TooMany` where its words would be more than `most` with those before. The
/// text is walked twice, first for its labels, which are looked up in an ordered map: no text takes
/// more time than its length and a logarithm of the number of its labels make.
pub fn assemble<const W: u32>(alloc: Global, text: &[u8], most: u32) -> Result<Words, AsmFault>
    requires width { IsWidth W }
    requires text { W ≡ 16 → width_of text.now ≡ 16 }
    ensures image { (result ≡ assembled W most text.now) ⊎ (result ≡ Err AsmFault.Memory) }
    ensures most { IfOk result (λ words. length words ≤ most) }
    ensures small { IfOk result (All (λ word. word < 2 ^ W)) }
{
    let labels = Labels::of::<W>(alloc, text)?;
    let mut words = Words::new(alloc);
    let mut number = 0_u64;
    let mut rest = text;
    while let Some((line, remaining)) = next_line(rest) {
        number += 1;
        append::<W>(&mut words, line, number, &labels, most)?;
        rest = remaining;
    }
    Ok(words)
}

/// Puts the words of a line after those of the lines before it.
fn append<const W: u32>(
    words: &mut Words,
    line: &[u8],
    number: u64,
    labels: &Labels<'_>,
    most: u32,
) -> Result<(), AsmFault>
    requires width { IsWidth W }
    requires room { length words.old ≤ most }
    ensures room { OnOk result (length words.new ≤ most) }
    ensures ok { OnOk result
        (with_line W most (context_in labels.now number) words.old line.now ≡ Ok words.new) }
    ensures err { IfErr result (λ fault. (fault ≡ AsmFault.Memory)
        ⊎ (with_line W most (context_in labels.now number) words.old line.now
        ≡ Err fault)) }
{
    match line_words::<W>(line, number, labels) {
        Ok(None) => Ok(()),
        Ok(Some(two)) => {
            if words.as_slice().len() + 2 > most as usize {
                return Err(AsmFault::TooMany { line: number, most });
            }
            words.push(two[0])?;
            words.push(two[1])?;
            Ok(())
        }
        Err(why) => Err(AsmFault::Bad { line: number, why }),
    }
}

/// Returns the words of a line, which may have none.
#[tactic(auto, unfolding(crate::specs::Assembly::line_words))]
fn line_words<const W: u32>(
    line: &[u8],
    number: u64,
    labels: &Labels<'_>,
) -> Result<Option<[u32; 2]>, AsmWhy>
    requires { IsWidth W }
    ensures { words_said result
        ≡ line_words W (number == 1) (is_earlier labels.now number) (address_in labels.now)
        line.now }
{
    let code = code_of(line);
    if !is_text(code) {
        return Err(AsmWhy::NotText);
    }
    if number == 1 && !is_good_header::<W>(line) {
        return Err(AsmWhy::BadHeader);
    }
    let statement = Statement::of(code).ok_or(AsmWhy::BadLabel)?;
    if let Some(label) = statement.label
        && labels.is_earlier(label, number)
    {
        return Err(AsmWhy::DoubledLabel);
    }
    if statement.instruction.is_empty() {
        return Ok(None);
    }
    Ok(Some(words_of::<W>(statement.instruction, labels)?))
}
