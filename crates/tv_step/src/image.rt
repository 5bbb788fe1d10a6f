//! Memory that begins with an image.
ghost use Rattle.std.specs.Prelude.{◌≡◌, ◌≤◌, ◌*◌, ◌/◌, ◌^◌, IfOk, length};
ghost use Rattle.tv_word.specs.Widths.{IsWidth};
ghost use Rattle.tv_mem.specs.Pages.{bytes_in};
ghost use Rattle.tv_step.specs.Machine.{image_bytes};

use std::alloc::{AllocError, Global};
use tv_mem::Memory;

/// Returns a memory that begins with the words of an image, and is 0 after them.
pub(crate) fn memory_with<const W: u32>(alloc: Global, image: &[u32]) -> Result<Memory, AllocError>
    requires width { IsWidth W }
    requires short { length image.now * (W / 8) ≤ 2 ^ W }
    ensures { IfOk result (λ memory. bytes_in memory ≡ image_bytes W image.now) }
{
    let mut memory = Memory::new(alloc);
    for (place, word) in image.iter().enumerate() {
        memory.store_word::<W>(W / 8 * place as u32, *word)?;
    }
    Ok(memory)
}
