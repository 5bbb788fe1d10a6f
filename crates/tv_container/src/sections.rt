//! The sections of a container, found by their headers.
ghost use Rattle.std.specs.Prelude.{◌≡◌, ℕ, ◌+◌, ◌≤◌, ◌<◌, ◌^◌, true, nat_le, List, [], ◌∷◌, ◌++◌};
ghost use Rattle.std.specs.Prelude.{false, length, Some, Ok, IfOk, IfErr, OnOk, ok_or};
ghost use Rattle.tv_container.specs.Places.{places};
ghost use Rattle.tv_container.specs.Reading.{Looks, ReadsAs, IsMissing, IsOwn, Known, InPiece};
ghost use Rattle.tv_container.specs.Reading.{ReadsIn};
ghost use Rattle.tv_container.specs.Sections.{section_at, sections_in, sections_from, sections_of};
ghost use Rattle.tv_container.specs.Sections.{section_of, stands_already, wanted};
ghost use Rattle.tv_container.specs.Found.{first_of, AllEnd, FindsIn};
ghost use Rattle.tv_container.specs.declared.sections.Section.{Section};

use crate::why::{ReadRefusal, ReadWhy};
use crate::window::Window;
use tv_files::Files;

/// A section of a container: its type, the place of its content in the file, and how many bytes
/// that has.
#[derive(Clone, Copy)]
pub struct Section {
    /// The type.
    pub kind: u32,
    /// The place of the content's first byte.
    pub at: u64,
    /// How many bytes the content has.
    pub size: u64,
}

impl Section {
    // The section, if it has this type.
    fn of_kind(self, kind: u32) -> Option<Section>
        ensures { result ≡ section_of kind (self ∷ []) }
    {
        (self.kind == kind).then_some(self)
    }
}

/// How a kind of container begins, and that its sections of types 1 to `singles`, at most 3, may
/// stand once.
#[derive(Clone, Copy)]
pub struct Form {
    /// The file's first four bytes, as a number whose lowest byte comes first.
    pub magic: u32,
    /// The version, which follows.
    pub version: u32,
    /// Up to which type a section may stand once.
    pub singles: u32,
}

/// The first sections of types 1, 2 and 3.
#[derive(Clone, Copy)]
pub struct Found {
    /// That of type 1.
    pub one: Option<Section>,
    /// That of type 2.
    pub two: Option<Section>,
    /// That of type 3.
    pub three: Option<Section>,
}

impl Found {
    // No sections.
    fn none() -> Found
        ensures found { result ≡ first_of [] }
        ensures ends { AllEnd result }
    {
        Found {
            one: None,
            two: None,
            three: None,
        }
    }

    // A section of a type that may stand once, and that stands already.
    fn doubles(&self, singles: u32, kind: u32) -> bool
        requires { singles ≤ 3 }
        ensures { (sections : List Section) → self.now ≡ first_of sections →
            result ≡ stands_already singles kind sections }
    {
        match kind {
            1 => singles >= 1 && self.one.is_some(),
            2 => singles >= 2 && self.two.is_some(),
            3 => singles >= 3 && self.three.is_some(),
            _ => false,
        }
    }

    // These, and a section after them.
    #[tactic(auto, using(crate::proofs::SectionLemmas::of_appended))]
    fn and(self, section: Section) -> Found
        ensures found { (sections : List Section) → self ≡ first_of sections →
            result ≡ first_of (sections ++ section ∷ []) }
        ensures ends { AllEnd self → section.at + section.size < 2 ^ 64 → AllEnd result }
    {
        Found {
            one: self.one.or(section.of_kind(1)),
            two: self.two.or(section.of_kind(2)),
            three: self.three.or(section.of_kind(3)),
        }
    }
}

/// Cuts a file into its sections: the first section of each type, and the place of the file's end.
/// It reads their headers and, of each content, the last byte.
///
/// `Bad` is the file's first fault up to its end, `Fault` a failed read; it takes no memory.
#[tactic(auto, unfolding(crate::specs::Sections::sections_of))]
pub fn find_sections<D: Files>(
    files: &mut D,
    name: &str,
    window: &mut Window,
    form: &Form,
) -> Result<(Found, u64), ReadRefusal>
    requires singles { form.now.singles ≤ 3 }
    ensures reads { ReadsIn (D.seen files.old) (D.seen files.new) name.now window.old window.new
        result
        (λ file. FindsIn result file (sections_of form.now.singles form.now.magic form.now.version
        file)) }
    ensures ends { IfOk result (λ found. AllEnd found.0) }
    ensures missing { IsMissing (D.seen files.old) name.now → window.old.bytes ≡ [] → result
        ≡ Err ReadRefusal.Fault }
{
    let count = section_count(files, name, window, form)?;
    next_sections(files, name, window, form.singles, count)
}

// Whether the file has no byte at a place.
fn ends<D: Files>(files: &mut D, name: &str, at: u64) -> Result<bool, ReadRefusal>
    ensures gives { Known (D.seen files.old) name.now
        (λ file. ReadsAs result (Ok (nat_le (length file) at))) }
    ensures looks { Looks (D.seen files.old) (D.seen files.new) name.now result }
{
    let mut byte = [0];
    Ok(files.read(name, at, &mut byte)? == 0)
}

// Reads the first twelve bytes: how many sections there are.
#[tactic(auto, unfolding(crate::specs::Sections::sections_in))]
fn section_count<D: Files>(
    files: &mut D,
    name: &str,
    window: &mut Window,
    form: &Form,
) -> Result<u32, ReadRefusal>
    ensures reads { ReadsIn (D.seen files.old) (D.seen files.new) name.now window.old window.new
        result
        (λ file. ReadsAs result (sections_in form.now.magic form.now.version file)) }
    ensures start { InPiece (D.seen files.old) name.now window.old
        (λ file. OnOk result (12 ≤ places file)) }
    ensures missing { IsMissing (D.seen files.old) name.now → window.old.bytes ≡ [] → result
        ≡ Err ReadRefusal.Fault }
{
    window.fit(files, name, 0, 4)?;
    if window.word(0) != form.magic {
        return Err(ReadRefusal::Bad {
            at: 0,
            why: ReadWhy::BadMagic,
        });
    }
    window.fit(files, name, 4, 4)?;
    let found = window.word(4);
    if found != form.version {
        return Err(ReadRefusal::Bad {
            at: 4,
            why: ReadWhy::BadVersion { found },
        });
    }
    window.fit(files, name, 8, 4)?;
    Ok(window.word(8))
}

// Reads this many sections from the twelfth byte on.
fn next_sections<D: Files>(
    files: &mut D,
    name: &str,
    window: &mut Window,
    singles: u32,
    count: u32,
) -> Result<(Found, u64), ReadRefusal>
    requires { singles ≤ 3 }
    ensures reads { ReadsIn (D.seen files.old) (D.seen files.new) name.now window.old window.new
        result
        (λ file. 12 ≤ places file → FindsIn result file (sections_from singles file count 12 [])) }
    ensures ends { IfOk result (λ found. AllEnd found.0) }
{
    let mut found = Found::none();
    let mut at = 12;
    for _ in 0..count {
        let section = next_section(files, name, window, singles, &found, at)?;
        at = section.at + section.size;
        found = found.and(section);
    }
    if !ends(files, name, at)? {
        return Err(ReadRefusal::Bad {
            at,
            why: ReadWhy::Trailing,
        });
    }
    Ok((found, at))
}

// Reads the section whose header stands at a place, after those found.
#[tactic(auto, unfolding(crate::specs::Sections::section_at))]
fn next_section<D: Files>(
    files: &mut D,
    name: &str,
    window: &mut Window,
    singles: u32,
    found: &Found,
    at: u64,
) -> Result<Section, ReadRefusal>
    requires { singles ≤ 3 }
    ensures reads { ReadsIn (D.seen files.old) (D.seen files.new) name.now window.old window.new
        result
        (λ file. (sections : List Section) → found.now ≡ first_of sections
        → ReadsAs result (section_at singles file at sections)) }
    ensures place { IfOk result (λ section. section.at + section.size < 2 ^ 64) }
{
    window.fit(files, name, at, 12)?;
    let section = Section {
        kind: window.word(at),
        at: at + 12,
        size: window.long(at + 4),
    };
    if found.doubles(singles, section.kind) {
        return Err(ReadRefusal::Bad {
            at,
            why: ReadWhy::Doubled {
                section: section.kind,
            },
        });
    }
    if !reaches_end(files, name, window, &section)? {
        return Err(ReadRefusal::Bad {
            at,
            why: ReadWhy::Truncated,
        });
    }
    Ok(section)
}

// Whether the file has all of a section's content: its last byte, where it has one.
fn reaches_end<D: Files>(
    files: &mut D,
    name: &str,
    window: &mut Window,
    section: &Section,
) -> Result<bool, ReadRefusal>
    ensures reads { ReadsIn (D.seen files.old) (D.seen files.new) name.now window.old window.new
        result
        (λ file. section.now.at ≤ places file → ReadsAs result
        (Ok (nat_le (section.now.at + section.now.size) (places file)))) }
    ensures place { IfOk result (λ there. there ≡ true → section.now.at + section.now.size
        < 2 ^ 64) }
{
    let Some(end) = section.at.checked_add(section.size) else {
        return Ok(false);
    };
    if section.size == 0 {
        return Ok(true);
    }
    window.reach(files, name, end - 1, 1)
}

/// Returns the section of a type, where it was found; where there is none it is missing at the
/// file's end.
pub fn wanted(section: Option<Section>, kind: u32, end: u64) -> Result<Section, ReadRefusal>
    ensures is { result ≡ ok_or section (ReadRefusal.Bad end (ReadWhy.Missing kind)) }
    ensures gives { (file : List ℕ) → end ≡ length file → (sections : List Section) →
        section ≡ section_of kind sections → ReadsAs result (wanted kind file sections) }
    ensures same { IfOk result (λ found. section ≡ Some found) }
    ensures own { IfErr result (IsOwn false) }
{
    section.ok_or(ReadRefusal::Bad {
        at: end,
        why: ReadWhy::Missing { section: kind },
    })
}
