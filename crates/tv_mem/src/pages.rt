//! The pages that are held, in tables by their numbers.
ghost use Rattle.std.specs.Prelude.{◌≡◌, ◌+◌, ◌/◌, ◌%◌, ◌^◌, ◌<◌, ◌≤◌, IsOk, IsTrue, is_some, OnOk};
ghost use Rattle.std.specs.Prelude.{OnErr, false, length, slice_index, ℕ};
ghost use Rattle.std.specs.Box.{box_value};
ghost use Rattle.std.specs.Option.{option_copied};
ghost use Rattle.tv_word.specs.Widths.{IsWidth};
ghost use Rattle.tv_word.specs.Word.{little_endian, word_bytes};
ghost use Rattle.tv_mem.specs.Bytes.{bytes_from};
ghost use Rattle.tv_mem.specs.Pages.{page_of, page_in, page_bytes, page_with, Changes, Same};
ghost use Rattle.tv_mem.specs.Pages.{Writes, WritesIn};

use std::alloc::{AllocError, Global};

/// How many bytes a page has.
pub(crate) const PAGE: u32 = 4096;

/// How many pages a table has places for.
const PLACES: u32 = 1024;

/// A table: places for at most `PLACES` pages, up to the last one that was allocated.
pub(crate) type Table = Vec<Option<Box<[u8; 4096]>>>;

/// Returns the page with a number, where it is held.
pub(crate) fn page(tables: &[Table], number: u32) -> Option<&[u8; 4096]>
    ensures { option_copied result ≡ page_in tables.now number }
{
    match tables.get((number / PLACES) as usize) {
        Some(table) => page_of(table, (number % PLACES) as usize),
        None => None,
    }
}

// The page in a place of a table, where it is held.
fn page_of(table: &Table, place: usize) -> Option<&[u8; 4096]>
    ensures { option_copied result ≡ page_of table.now place }
{
    match table.get(place) {
        Some(Some(page)) => Some(page),
        _ => None,
    }
}

/// Returns the word at a place of a page, the lowest byte first.
pub(crate) fn word_on(page: &[u8; 4096], place: usize) -> u32
    requires within { place + 4 ≤ 4096 }
    ensures { result ≡ little_endian (bytes_from (slice_index page.now) place 4) }
{
    u32::from_le_bytes([
        page[place],
        page[place + 1],
        page[place + 2],
        page[place + 3],
    ])
}

/// Returns the word of 16 bits at a place of a page, the lowest byte first.
pub(crate) fn half_on(page: &[u8; 4096], place: usize) -> u32
    requires within { place + 2 ≤ 4096 }
    ensures word { result ≡ little_endian (bytes_from (slice_index page.now) place 2) }
    ensures small { result < 2 ^ 16 }
{
    u32::from(u16::from_le_bytes([page[place], page[place + 1]]))
}

/// Of the four bytes of a number, those of a word of `W` bits: the two or four lowest.
pub(crate) fn low_bytes<const W: u32>(bytes: &[u8; 4]) -> &[u8]
    requires { IsWidth W }
    ensures { (word : ℕ) → bytes.now ≡ word_bytes 32 word → result.now ≡ word_bytes W word }
{
    &bytes[..(W / 8) as usize]
}

/// Writes bytes at an address, all in its page. A page that isn't held is made first; where memory
/// for it is refused, nothing changes.
pub(crate) fn write(
    alloc: Global,
    tables: &mut Vec<Table>,
    at: u32,
    bytes: &[u8],
) -> Result<(), AllocError>
    requires within { at % 4096 + length bytes.now ≤ 4096 }
    ensures ok { OnOk result (Writes (page_in tables.old.items) (page_in tables.new.items) at
        bytes.now) }
    ensures err { OnErr result (Same (page_in tables.old.items) (page_in tables.new.items)) }
    ensures free { IsTrue (is_some (page_in tables.old.items (at / 4096))) → IsOk result }
{
    let table = (at / PAGE / PLACES) as usize;
    let place = (at / PAGE % PLACES) as usize;
    make_tables(alloc, tables, table)?;
    write_in(
        alloc,
        &mut tables[table],
        place,
        (at % PAGE) as usize,
        bytes,
    )
}

// Makes tables up to the one with a number, if it isn't there.
fn make_tables(alloc: Global, tables: &mut Vec<Table>, number: usize) -> Result<(), AllocError>
    requires { number < 2 ^ 32 }
    ensures same { Same (page_in tables.old.items) (page_in tables.new.items) }
    ensures there { OnOk result (number < length tables.new.items) }
    ensures free { number < length tables.old.items → IsOk result }
{
    for made in tables.len()..number + 1 {
        tables.push(Vec::new(alloc))?;
    }
    Ok(())
}

// Writes bytes at an offset of the page in a place of a table. A page that isn't held is made
// first; where memory for it is refused, nothing changes.
fn write_in(
    alloc: Global,
    table: &mut Table,
    place: usize,
    offset: usize,
    bytes: &[u8],
) -> Result<(), AllocError>
    requires place { place < 2 ^ 32 }
    requires within { offset + length bytes.now ≤ 4096 }
    ensures ok { OnOk result (WritesIn (page_of table.old) (page_of table.new) place offset
        bytes.now) }
    ensures err { OnErr result (Same (page_of table.old) (page_of table.new)) }
    ensures free { IsTrue (is_some (page_of table.old place)) → IsOk result }
{
    if write_held(table, place, offset, bytes) {
        return Ok(());
    }
    let mut page = Box::new(alloc, [0; 4096])?;
    overwrite(&mut page, offset, bytes);
    keep(table, place, page)
}

// Writes bytes at an offset of the page in a place, where it is held; returns whether it is.
#[tactic(auto, using(crate::proofs::PageLaws::changes))]
fn write_held(table: &mut Table, place: usize, offset: usize, bytes: &[u8]) -> bool
    requires within { offset + length bytes.now ≤ 4096 }
    ensures held { result ≡ is_some (page_of table.old place) }
    ensures written { IsTrue result → Changes (page_of table.old) (page_of table.new) place
        (page_with (page_bytes (page_of table.old place)) offset bytes.now) }
    ensures whole { IsTrue result → length (page_bytes (page_of table.old place)) ≡ 4096 }
    ensures same { result ≡ false → Same (page_of table.old) (page_of table.new) }
{
    if place < table.len() {
        if let Some(page) = &mut table[place] {
            overwrite(page, offset, bytes);
            return true;
        }
    }
    false
}

// Writes bytes at an offset of a page.
fn overwrite(page: &mut [u8; 4096], offset: usize, bytes: &[u8])
    requires within { offset + length bytes.now ≤ 4096 }
    ensures with { page.new ≡ page_with page.old offset bytes.now }
    ensures whole { length page.old ≡ 4096 }
{
    page[offset..offset + bytes.len()].copy_from_slice(bytes);
}

// Keeps a page in a place.
#[tactic(auto, using(crate::proofs::PageLaws::changes))]
fn keep(table: &mut Table, place: usize, page: Box<[u8; 4096]>) -> Result<(), AllocError>
    requires { place < 2 ^ 32 }
    ensures ok { OnOk result (Changes (page_of table.old) (page_of table.new) place
        (box_value page)) }
    ensures err { OnErr result (Same (page_of table.old) (page_of table.new)) }
{
    make_places(table, place)?;
    table[place] = Some(page);
    Ok(())
}

// Makes places up to the one with a number.
fn make_places(table: &mut Table, place: usize) -> Result<(), AllocError>
    requires { place < 2 ^ 32 }
    ensures same { Same (page_of table.old) (page_of table.new) }
    ensures places { OnOk result (place < length table.new.items) }
{
    for made in table.len()..place + 1 {
        table.push(None)?;
    }
    Ok(())
}
