//! A plan's text, read line by line.
ghost use Rattle.std.specs.Prelude.{◌≡◌, ◌≢◌, ◌≤◌, ℕ, List, [], ◌∷◌, ◌++◌, length, map, Some, None};
ghost use Rattle.ts_model.specs.Texts.{PathFits, KindFits};
ghost use Rattle.ts_plan.specs.PlanLines.{LineFits};
ghost use Rattle.ts_plan.specs.Progress.{start, all_actions, fed};
ghost use Rattle.ts_plan.specs.Reading.{Takes, ReadsNext, Finishes, IsBegun};
ghost use Rattle.ts_plan.specs.declared.progress.Part.TheVariants as part;
ghost use Rattle.ts_plan.specs.declared.line.PlanLine.TheVariants as line;

use crate::fault::PlanFault;
use crate::line::PlanLine;
use crate::progress::Part;
use std::alloc::Global;
use std::marker::Model;
use ts_model::items::Items;
use ts_model::packed::PackedAction;
use ts_model::plan::{ACTION_LIMIT, ENTRY_LIMIT, Entry, Kind, PRED_LIMIT, Plan};
use ts_model::predecessors::Predecessors;

/// Reads the lines of a plan's text, one after another.
pub struct PlanReader {
    alloc: Global,
    part: Part,
    entries: Vec<Entry>,
    actions: Vec<PackedAction>,
    // the action whose predecessors are being read
    last: Option<PackedAction>,
    pred_count: usize,
}

/// Written out, so that a proof of what drops one stays short.
impl Drop for PlanReader {
    fn drop(self) {
        let PlanReader {
            entries,
            actions,
            last,
            alloc: _,
            part: _,
            pred_count: _,
        } = self;
        drop(entries);
        drop(actions);
        drop(last);
    }
}

impl Model for PlanReader {
    ghost use Rattle.std.specs.Prelude.{◌≡◌, length, sum_by};
    ghost use Rattle.ts_plan.specs.Progress.{Progress, all_actions};
    ghost use Rattle.ts_plan.specs.Reading.{IsProgress};

    ghost Value = { Progress };

    ghost use Rattle.ts_plan.specs.Readers.{progress};

    ghost view = { progress };

    ghost invariant = { λ r. IsProgress (progress r) × (r.pred_count ≡ sum_by (λ a. length a.preds) (all_actions (progress r))) };
}

impl PlanReader {
    /// Nothing is read yet. It takes no memory.
    pub fn new(alloc: Global) -> Self
        ensures { result ≡ start }
    {
        PlanReader {
            alloc,
            part: Part::Start,
            entries: Vec::new(alloc),
            actions: Vec::new(alloc),
            last: None,
            pred_count: 0,
        }
    }

    /// Takes the next line of the text, without its line feed. At an error nothing changes.
    pub fn line(&mut self, line: &[u8]) -> Result<(), PlanFault>
        ensures reads { ReadsNext self.old line.now result self.new }
        ensures short { length (fed self.new) ≤ 6291458 }
        ensures begun { IsBegun self.new }
    {
        match PlanLine::read(self.alloc, line) {
            Ok(line) => {
                let taken = self.take(line);
                // Opens the reader, whose invariant bounds what was read.
                let _ = &self.part;
                taken
            }
            Err(fault) => Err(fault),
        }
    }

    /// The plan, where its last line was read.
    pub fn finish(self) -> Result<Plan, PlanFault>
        ensures { Finishes self result }
    {
        let Part::Ended = self.part else {
            return Err(PlanFault::NotCanonical);
        };
        let PlanReader {
            alloc: _,
            part: _,
            entries,
            mut actions,
            last,
            pred_count: _,
        } = self;
        if let Some(action) = last {
            actions.push(action)?;
        }
        let entries = Items::new(entries);
        let actions = Items::new(actions);
        Ok(Plan { entries, actions })
    }

    fn take(&mut self, line: PlanLine) -> Result<(), PlanFault>
        requires { LineFits line }
        ensures { Takes self.old line result self.new }
    {
        match (self.part, line) {
            (Part::Start, PlanLine::Header) => {
                self.part = Part::Body;
                Ok(())
            }
            (Part::Body, PlanLine::Entry(entry)) => self.take_entry(entry),
            (Part::Body, PlanLine::Action(kind)) => self.take_action(kind),
            (Part::Body, PlanLine::Pred(number)) => self.take_pred(number),
            (Part::Body, PlanLine::End(entries, actions)) => self.take_end(entries, actions),
            _ => Err(PlanFault::NotCanonical),
        }
    }

    fn take_entry(&mut self, entry: Entry) -> Result<(), PlanFault>
        requires body { self.old.part ≡ part.Body }
        requires fits { PathFits entry.path }
        ensures { Takes self.old (line.Entry entry) result self.new }
    {
        if self.last.is_some() {
            return Err(PlanFault::NotCanonical);
        }
        if self.entries.len() >= ENTRY_LIMIT {
            return Err(PlanFault::PastLimit);
        }
        self.entries.push(entry)?;
        Ok(())
    }

    fn take_action(&mut self, kind: Kind) -> Result<(), PlanFault>
        requires body { self.old.part ≡ part.Body }
        requires fits { KindFits kind }
        ensures { Takes self.old (line.Action kind) result self.new }
    {
        if self.action_count() >= ACTION_LIMIT {
            return Err(PlanFault::PastLimit);
        }
        let opened = PackedAction::new(self.alloc, kind, Predecessors::none())?;
        self.actions.reserve(1)?;
        if let Some(done) = self.last.replace(opened) {
            self.actions.push(done)?;
        }
        Ok(())
    }

    fn take_pred(&mut self, number: u32) -> Result<(), PlanFault>
        requires body { self.old.part ≡ part.Body }
        ensures { Takes self.old (line.Pred number) result self.new }
    {
        if self.last.is_none() {
            return Err(PlanFault::NotCanonical);
        }
        if self.pred_count >= PRED_LIMIT {
            return Err(PlanFault::PastLimit);
        }
        match self.last.take() {
            Some(mut action) => {
                let pushed = action.push_pred(self.alloc, number);
                self.last = Some(action);
                pushed?;
                self.pred_count += 1;
                Ok(())
            }
            None => Err(PlanFault::NotCanonical),
        }
    }

    fn take_end(&mut self, entries: u64, actions: u64) -> Result<(), PlanFault>
        requires body { self.old.part ≡ part.Body }
        ensures { Takes self.old (line.End entries actions) result self.new }
    {
        let is_counted = entries == self.entries.len() as u64;
        if is_counted && actions == self.action_count() as u64 {
            self.part = Part::Ended;
            Ok(())
        } else {
            Err(PlanFault::NotCanonical)
        }
    }

    fn action_count(&self) -> usize
        ensures { result ≡ length (all_actions self.now) }
    {
        self.actions.len() + usize::from(self.last.is_some())
    }
}
