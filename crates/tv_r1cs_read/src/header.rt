//! The header of a system's file.
ghost use Rattle.std.specs.Prelude.{◌≡◌, ℕ, ◌+◌, ◌≤◌, ◌<◌, ◌^◌, List, [], length, Ok};
ghost use Rattle.std.specs.Prelude.{Err, IfOk, IfErr, OnOk, false};
ghost use Rattle.tv_container.specs.Found.{first_of, AllEnd, AllFit};
ghost use Rattle.tv_container.specs.Places.{places};
ghost use Rattle.tv_container.specs.Reading.{ReadsAs, IsMissing, IsOwn, InPiece, ReadsIn};
ghost use Rattle.tv_r1cs_read.specs.R1cs.{HasRoom, checked, counted, header_in, header_of};
ghost use Rattle.tv_container.specs.declared.sections.Section.{Section};

use tv_container::{
    Form, Found, ReadRefusal, ReadWhy, Section, Window, find_sections, this_field, wanted,
};
use tv_files::Files;

/// What section 1 counts, and section 2.
#[derive(Clone, Copy)]
pub struct Header {
    /// The wires, that of the constant 1 among them.
    pub wires: u32,
    /// The public outputs.
    pub outputs: u32,
    /// The public inputs.
    pub inputs: u32,
    /// The constraints.
    pub constraints: u32,
    /// The section of the constraints.
    pub rows: Section,
}

/// The form of a system's file: the text `r1cs`, version 1, and one section of each type.
pub const R1CS: Form = Form {
    magic: 0x7363_3172,
    version: 1,
    singles: 3,
};

/// How many bytes section 1 of a system's file, its header, has.
pub const HEADER_BYTES: u64 = 40;

/// Everything of a system's file but its constraints, or the file's first fault before them.
#[tactic(auto, unfolding(crate::specs::R1cs::header_of))]
pub(crate) fn read_header<D: Files>(
    files: &mut D,
    name: &str,
    window: &mut Window,
) -> Result<Header, ReadRefusal>
    ensures reads { ReadsIn (D.seen files.old) (D.seen files.new) name.now window.old window.new
        result
        (λ file. ReadsAs result (header_of file)) }
    ensures within { InPiece (D.seen files.old) name.now window.old
        (λ file. IfOk result (λ header. header.rows.at + header.rows.size ≤ places file)) }
    ensures ends { IfOk result (λ header. header.rows.at + header.rows.size < 2 ^ 64) }
    ensures room { IfOk result HasRoom }
    ensures missing { IsMissing (D.seen files.old) name.now → window.old.bytes ≡ [] → result
        ≡ Err ReadRefusal.Fault }
{
    let (found, end) = find_sections(files, name, window, &R1CS)?;
    header_in(files, name, window, &found, end)
}

// The header, from the sections.
#[tactic(auto, unfolding(crate::specs::R1cs::header_in))]
fn header_in<D: Files>(
    files: &mut D,
    name: &str,
    window: &mut Window,
    found: &Found,
    end: u64,
) -> Result<Header, ReadRefusal>
    requires { AllEnd found.now }
    ensures reads { ReadsIn (D.seen files.old) (D.seen files.new) name.now window.old window.new
        result
        (λ file. end ≡ length file → (sections : List Section) → found.now ≡ first_of sections
        → AllFit file sections → ReadsAs result (header_in file sections)) }
    ensures within { (file : List ℕ) → (sections : List Section) → found.now ≡ first_of sections
        → AllFit file sections →
        IfOk result (λ header. header.rows.at + header.rows.size ≤ places file) }
    ensures ends { IfOk result (λ header. header.rows.at + header.rows.size < 2 ^ 64) }
    ensures room { IfOk result HasRoom }
{
    let one = wanted(found.one, 1, end)?;
    let rows = wanted(found.two, 2, end)?;
    this_field(files, name, window, &one, HEADER_BYTES)?;
    let header = counted(files, name, window, &one, rows)?;
    checked(header, &one, found.three)
}

// What section 1, of 40 bytes, counts.
fn counted<D: Files>(
    files: &mut D,
    name: &str,
    window: &mut Window,
    one: &Section,
    rows: Section,
) -> Result<Header, ReadRefusal>
    ensures reads { ReadsIn (D.seen files.old) (D.seen files.new) name.now window.old window.new
        result
        (λ file. one.now.at + 40 ≤ places file → ReadsAs result (Ok (counted file one.now rows))) }
    ensures rows { IfOk result (λ header. header.rows ≡ rows) }
{
    window.fit(files, name, one.at, HEADER_BYTES as usize)?;
    Ok(Header {
        wires: window.word(one.at + 12),
        outputs: window.word(one.at + 16),
        inputs: window.word(one.at + 20),
        constraints: window.word(one.at + 36),
        rows,
    })
}

// There is a wire for the constant 1 and each public number, and section 3, where there is one, has
// eight bytes for each wire.
fn checked(header: Header, one: &Section, three: Option<Section>) -> Result<Header, ReadRefusal>
    ensures gives { ReadsAs result (checked header one.now three) }
    ensures same { IfOk result (λ checked. checked ≡ header) }
    ensures room { OnOk result (HasRoom header) }
    ensures own { IfErr result (IsOwn false) }
{
    let wires = u64::from(header.wires);
    let public = 1 + u64::from(header.outputs) + u64::from(header.inputs);
    if wires < public {
        return Err(ReadRefusal::Bad {
            at: one.at,
            why: ReadWhy::BadCount {
                has: wires,
                wants: public,
            },
        });
    }
    match three {
        Some(labels) if labels.size != 8 * wires => Err(ReadRefusal::Bad {
            at: labels.at,
            why: ReadWhy::BadCount {
                has: labels.size,
                wants: 8 * wires,
            },
        }),
        _ => Ok(header),
    }
}
