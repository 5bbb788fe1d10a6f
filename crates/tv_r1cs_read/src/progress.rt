//! How far reading of a system has come, and its constraints read or evaluated in turn.
ghost use Rattle.std.specs.Prelude.{◌≡◌, ℕ, ◌+◌, ◌<◌, List, [], None, Err, IfOk, IfSome};
ghost use Rattle.std.specs.Prelude.{IsNone, IsSome, MatchResult, Bool, true, false};
ghost use Rattle.tv_files.specs.Outside.{Outside};
ghost use Rattle.tv_container.specs.Reading.{Looks, Refuses, IsMissing, Known};
ghost use Rattle.tv_container.specs.declared.why.ReadRefusal.{ReadRefusal};
ghost use Rattle.tv_r1cs_read.specs.Places.{IsAll, IsAt};
ghost use Rattle.tv_r1cs_read.specs.Progress.{counts_of, IsBegun};
ghost use Rattle.tv_r1cs_read.specs.R1cs.{header_of, r1cs_system};
ghost use Rattle.tv_r1cs_read.specs.Steps.{Failed, Fewer, Yields, Stays, Steps, ReportsStop};
ghost use Rattle.tv_r1cs_read.specs.Steps.{WentOn, Tried};
ghost use Rattle.tv_r1cs_read.specs.Sums.{AreValues};

use crate::far_trial::try_far;
use crate::header::{Header, read_header};
use crate::held::held_from;
use crate::held_trial::try_held;
use crate::rows::{Row, read_row};
use crate::terms::Bounds;
use std::marker::Model;
use tv_container::{ReadRefusal, ReadWhy, Window};
use tv_core::{Counts, F};
use tv_files::Files;

/// How far reading of a system has come: what is ahead is `left` constraints from the place `at`
/// on, unless reading stopped.
#[derive(Drop)]
pub struct Progress {
    header: Header,
    window: Window,
    at: u64,
    left: u32,
    stopped: Option<ReadRefusal>,
}

impl Model for Progress {
    ghost use Rattle.tv_r1cs_read.specs.Progress.{Reached, IsWithin, terms_given};

    ghost Value = { Reached };

    ghost view = { λ p. record {
      header = p.header;
      piece = p.window;
      at = p.at;
      left = p.left;
      terms = terms_given p.header p.at p.left;
      stopped = p.stopped;
    } };

    ghost invariant = { λ p. IsWithin p.header p.at p.left };
}

impl Progress {
    /// Reads all but the constraints.
    #[tactic(auto, unfolding(crate::specs::R1cs::r1cs_system))]
    pub(crate) fn begin<D: Files>(files: &mut D, name: &str) -> Result<Progress, ReadRefusal>
        ensures begun { IfOk result IsBegun }
        ensures gives { Known (D.seen files.old) name.now (λ file. MatchResult result
            (λ progress. IsAt progress file [])
            (λ why. Refuses why (header_of file) × Refuses why (r1cs_system file))) }
        ensures looks { Looks (D.seen files.old) (D.seen files.new) name.now result }
        ensures missing { IsMissing (D.seen files.old) name.now → result ≡ Err ReadRefusal.Fault }
    {
        let mut window = Window::new();
        let header = read_header(files, name, &mut window)?;
        Ok(Progress {
            header,
            window,
            at: header.rows.at,
            left: header.constraints,
            stopped: None,
        })
    }

    /// Returns what the system counts, and the terms of the rows returned so far.
    pub(crate) fn counts(&self) -> Counts
        ensures { result ≡ counts_of self.now }
    {
        Counts {
            wires: self.header.wires,
            outputs: self.header.outputs,
            inputs: self.header.inputs,
            constraints: self.header.constraints,
            terms: self.terms(),
        }
    }

    /// Reads the next constraint into `row`, and returns whether there was one. A refusal is
    /// repeated.
    pub(crate) fn next<D: Files>(
        &mut self,
        files: &mut D,
        name: &str,
        row: &mut Row,
    ) -> Result<bool, ReadRefusal>
        ensures steps { Steps true (D.seen files.old) (D.seen files.new) name.now self.old self.new
            (λ file rows. IfOk result (λ more. Yields more row.new self.new file rows)) }
        ensures reports { ReportsStop result self.new.stopped }
        ensures counts { MatchResult result (λ more. WentOn more row.new self.old self.new)
            (λ _. Stays self.old self.new) }
    {
        if let Some(refusal) = self.stopped {
            return Err(refusal);
        }
        if self.left == 0 {
            self.end();
            match self.stopped() {
                Some(refusal) => return Err(refusal),
                None => return Ok(false),
            }
        }
        let bounds = self.bounds();
        match read_row(files, name, &mut self.window, &bounds, self.at, row) {
            Ok(next) => {
                self.at = next;
                self.left -= 1;
                Ok(true)
            }
            Err(refusal) => {
                self.stopped = Some(refusal);
                Err(refusal)
            }
        }
    }

    /// Why reading stopped, where it did.
    pub(crate) fn stopped(&self) -> Option<ReadRefusal>
        ensures { result ≡ self.now.stopped }
    {
        self.stopped
    }

    /// Tests the constraints ahead under an assignment, up to the first that doesn't hold, and
    /// returns how many hold before it; `None` where all hold or reading stopped.
    pub(crate) fn first_failure<D: Files>(
        &mut self,
        files: &mut D,
        name: &str,
        values: &[F],
    ) -> Option<u64>
        ensures steps { Steps false (D.seen files.old) (D.seen files.new) name.now self.old self.new
            (λ file rows. Failed result values.now self.new file rows) }
        ensures goes { IfSome result (λ _. self.new.stopped ≡ None) }
        ensures left { IfSome result (λ before. self.new.left + before + 1 ≡ self.old.left) }
    {
        if self.stopped.is_some() {
            return None;
        }
        let all = self.left;
        while self.left > 0 {
            if !self.try_some(files, name, values)? {
                return Some(u64::from(all - self.left - 1));
            }
        }
        self.end();
        None
    }

    // Tries the next constraint, and those after it that the window holds, up to the first that
    // doesn't hold, and returns whether all that were tried hold; `None` where reading stopped.
    fn try_some<D: Files>(&mut self, files: &mut D, name: &str, values: &[F]) -> Option<bool>
        requires on { self.old.stopped ≡ None }
        requires some { 0 < self.old.left }
        ensures steps { Steps false (D.seen files.old) (D.seen files.new) name.now self.old self.new
            (λ file rows. IfSome result
            (λ holds. Tried holds values.now self.old self.new file rows)) }
        ensures goes { IfSome result (λ _. self.new.stopped ≡ None) }
        ensures stops { IsNone result → IsSome self.new.stopped }
        ensures left { IfSome result (λ _. self.new.left < self.old.left) }
    {
        if !self.try_far(files, name, values)? {
            return Some(false);
        }
        Some(self.try_window(values))
    }

    // Tries the next constraint, of which the window needn't hold anything; `None` where reading
    // stopped.
    #[cold]
    #[inline(never)]
    fn try_far<D: Files>(&mut self, files: &mut D, name: &str, values: &[F]) -> Option<bool>
        requires on { self.old.stopped ≡ None }
        requires some { 0 < self.old.left }
        ensures steps { Steps false (D.seen files.old) (D.seen files.new) name.now self.old self.new
            (λ file rows. IfSome result
            (λ holds. Tried holds values.now self.old self.new file rows)) }
        ensures goes { IfSome result (λ _. self.new.stopped ≡ None) }
        ensures stops { IsNone result → IsSome self.new.stopped }
        ensures left { IfSome result (λ _. self.new.left + 1 ≡ self.old.left) }
    {
        let bounds = self.bounds();
        match try_far(files, name, &mut self.window, &bounds, self.at, values) {
            Ok(tried) => {
                self.at = tried.next;
                self.left -= 1;
                Some(tried.holds)
            }
            Err(refusal) => {
                self.stopped = Some(refusal);
                None
            }
        }
    }

    // Tries the constraints ahead that the window holds, up to the first that doesn't hold, and
    // returns whether all that were tried hold. Where some wires have a value and others none it
    // tries none.
    fn try_window(&mut self, values: &[F]) -> bool
        requires { self.old.stopped ≡ None }
        ensures steps { (outside : Outside) → (name : List ℕ) → Steps false outside outside name
            self.old self.new (λ file rows. Tried result values.now self.old self.new file rows) }
        ensures goes { self.new.stopped ≡ None }
        ensures left { Fewer result self.old.left self.new.left }
    {
        if values.is_empty() {
            return self.try_rows::<true>(values);
        }
        if values.len() >= self.header.wires as usize {
            return self.try_rows::<false>(values);
        }
        true
    }

    // As `try_window`. Where `PASS` there are no values; else each wire has one.
    #[inline(never)]
    fn try_rows<const PASS: bool>(&mut self, values: &[F]) -> bool
        requires on { self.old.stopped ≡ None }
        requires values { AreValues PASS self.old.header.wires values.now }
        ensures steps { (outside : Outside) → (name : List ℕ) → Steps false outside outside name
            self.old self.new (λ file rows. Tried result values.now self.old self.new file rows) }
        ensures goes { self.new.stopped ≡ None }
        ensures left { Fewer result self.old.left self.new.left }
    {
        let bounds = self.bounds();
        let mut held = held_from(&self.window, &bounds, self.at);
        let mut left = self.left;
        let mut holds = true;
        while holds && left > 0 {
            let Some(tried) = try_held::<PASS>(&self.window, &bounds, held, values) else {
                break;
            };
            held.from = tried.next;
            left -= 1;
            holds = tried.holds;
        }
        self.at = held.from;
        self.left = left;
        holds
    }

    // After the last counted constraint: stops where section 2 has more bytes.
    #[cold]
    #[inline(never)]
    fn end(&mut self)
        requires on { self.old.stopped ≡ None }
        requires none { self.old.left ≡ 0 }
        ensures steps { (keeps : Bool) → (outside : Outside) → (name : List ℕ) → Steps keeps outside
            outside name self.old self.new (λ file rows. IsAll self.new file rows) }
        ensures terms { self.new.terms ≡ self.old.terms }
        ensures left { self.new.left ≡ self.old.left }
    {
        let rows = self.header.rows;
        if self.at < rows.at + rows.size {
            self.stopped = Some(ReadRefusal::Bad {
                at: rows.at,
                why: ReadWhy::BadCount {
                    has: rows.size,
                    wants: self.at - rows.at,
                },
            });
        }
    }

    // The terms of the constraints returned so far: 12 bytes a term, and 12 for each row's counts.
    fn terms(&self) -> u64
        ensures { result ≡ self.now.terms }
    {
        (self.at - self.header.rows.at) / 12 - u64::from(self.header.constraints - self.left)
    }

    // What bounds the terms.
    #[inline(always)]
    fn bounds(&self) -> Bounds
        ensures wires { result.wires ≡ self.now.header.wires }
        ensures end { result.end ≡ self.now.header.rows.at + self.now.header.rows.size }
    {
        Bounds {
            wires: self.header.wires,
            end: self.header.rows.at + self.header.rows.size,
        }
    }
}
