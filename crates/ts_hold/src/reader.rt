//! Reading hold rules line by line.
ghost use Rattle.std.specs.Prelude.{◌≡◌, ◌<◌, ◌++◌, ◌∷◌, [], length, IfErr, OnErr, OnOk};
ghost use Rattle.ts_model.specs.Texts.{IsRules, RuleFits};

use crate::faults::HoldFault;
use crate::holds::Holds;
use crate::index::Index;
use crate::keys::rule_key;
use crate::lines::parse_rule;
use crate::order::place_for;
use crate::windows::Sizes;
use std::alloc::{AllocError, Global};
use std::marker::Model;
use ts_model::hold::Rule;

const MOST_RULES: usize = 4096;

/// Takes hold rules line by line.
pub struct RuleReader {
    alloc: Global,
    rules: Vec<Rule>,
    index: Index,
    sizes: Sizes,
    order: Vec<u16>,
}

/// Written out, so that a proof of what drops one stays short.
impl Drop for RuleReader {
    fn drop(self) {
        let RuleReader {
            rules,
            index,
            order,
            alloc: _,
            sizes: _,
        } = self;
        drop(rules);
        drop(index);
        drop(order);
    }
}

impl Model for RuleReader {
    ghost use Rattle.std.specs.Prelude.{List};
    ghost use Rattle.ts_model.specs.declared.hold.Rule.{Rule};

    ghost Value = { List Rule };

    ghost use Rattle.ts_hold.specs.Keys.{IsFound};

    ghost view = { λ r. r.rules.items };

    ghost invariant = { λ r. IsFound r.sizes r.rules.items r.index r.order.items };
}

impl RuleReader {
    ghost use Rattle.ts_hold.specs.Rules.{AddsRule, RefusesLine, TellsNextLine};

    /// No line was taken yet. Takes no memory.
    pub fn new(alloc: Global) -> RuleReader
        ensures { result ≡ [] }
    {
        RuleReader {
            alloc,
            rules: Vec::new(alloc),
            index: Index::new(alloc),
            sizes: Sizes::none(),
            order: Vec::new(alloc),
        }
    }

    /// Takes a line, given without its line feed. After a fault the reader is as it was.
    pub fn line(&mut self, line: &[u8]) -> Result<(), HoldFault>
        ensures ok { OnOk result (AddsRule self.old line.now self.new) }
        ensures bad { IfErr result (RefusesLine self.old line.now) }
        ensures kept { OnErr result (self.new ≡ self.old) }
        ensures lawful { IsRules self.new }
    {
        if self.rules.len() == MOST_RULES {
            return Err(self.fault());
        }
        let Some(rule) = parse_rule(self.alloc, line)? else {
            return Err(self.fault());
        };
        self.add(rule)?;
        Ok(())
    }

    /// Adds a rule, with what it is found by.
    fn add(&mut self, rule: Rule) -> Result<(), AllocError>
        requires lawful { RuleFits rule }
        requires room { length self.old < 4096 }
        ensures ok { OnOk result (self.new ≡ self.old ++ rule ∷ []) }
        ensures kept { OnErr result (self.new ≡ self.old) }
    {
        let (key, sizes) = rule_key(&self.index, self.sizes, &rule);
        let place = place_for(&self.rules, &self.order, &rule);
        self.order.reserve(1)?;
        let number = self.rules.len() as u16;
        self.rules.push(rule)?;
        if self.index.push(self.alloc, key).is_err() {
            self.rules.pop();
            return Err(AllocError);
        }
        self.sizes = sizes;
        if let Some(place) = place {
            // there is room
            let _ = self.order.insert(place, number);
        }
        Ok(())
    }

    /// The rules of the lines taken.
    pub fn finish(self) -> Holds
        ensures { result ≡ self }
    {
        let RuleReader {
            alloc: _,
            rules,
            index,
            sizes,
            order,
        } = self;
        Holds {
            rules,
            index,
            sizes,
            order,
        }
    }

    /// That the next line is bad.
    pub(crate) fn fault(&self) -> HoldFault
        ensures { TellsNextLine self.now result }
    {
        HoldFault::BadRule {
            line: self.rules.len() as u64 + 1,
        }
    }
}
