//! Hold rules.
ghost use Rattle.std.specs.Prelude.{◌≡◌, ◌≢◌, ◌↔◌, ◌∷◌, ◌++◌, [], List, IfErr, IfOk, IsTrue, length, map};
ghost use Rattle.std.specs.Bool.{MatchBool};
ghost use Rattle.ts_model.specs.Holds.{Names, RuleNames};
ghost use Rattle.ts_model.specs.Texts.{IsRules, IsRulesText, rule_line, text};
ghost use Rattle.ts_model.specs.declared.hold.Rule.{Rule};
ghost use Rattle.ts_text.specs.Lines.{FailuresFit};
ghost use Rattle.ts_text.specs.Sources.{Writes};
ghost use Rattle.ts_text.specs.declared.fault.TextFault.TheVariants as fault;
ghost use Rattle.ts_hold.specs.Keys.{AreKeys, NoEndNames, NoFrontNames, NoMiddleNames, NoPathNames, NoWindowNames, NoneNames};
ghost use Rattle.ts_hold.specs.Orders.{IsOrder};
ghost use Rattle.ts_hold.specs.declared.windows.Sizes.{Sizes};

use crate::faults::HoldFault;
use crate::index::Index;
use crate::keys::{NO_END, NO_FRONT, mixed, path_key};
use crate::lines::first_line;
use crate::order::place_of;
use crate::pattern::fits;
use crate::reader::RuleReader;
use crate::windows::{Size, Sizes, shifted, window_key};
use crate::write::push_rule;
use std::alloc::Global;
use std::marker::Model;
use ts_model::hold::Rule;
use ts_name::Path;
use ts_text::{Sink, TextFault, write_line};

/// Hold rules in order, at most 4,096. What they name stays untouched.
pub struct Holds {
    pub(crate) rules: Vec<Rule>,
    pub(crate) index: Index,
    // those of the windows that rules are found by
    pub(crate) sizes: Sizes,
    // the numbers of the rules of one path, in the order of their paths
    pub(crate) order: Vec<u16>,
}

/// Written out, so that a proof of what drops one stays short.
impl Drop for Holds {
    fn drop(self) {
        let Holds {
            rules,
            index,
            order,
            sizes: _,
        } = self;
        drop(rules);
        drop(index);
        drop(order);
    }
}

impl Model for Holds {
    ghost use Rattle.std.specs.Prelude.{List};
    ghost use Rattle.ts_model.specs.declared.hold.Rule.{Rule};

    ghost Value = { List Rule };

    ghost use Rattle.ts_hold.specs.Keys.{IsFound};

    ghost view = { λ h. h.rules.items };

    ghost invariant = { λ h. IsFound h.sizes h.rules.items h.index h.order.items };
}

impl Holds {
    ghost use Rattle.ts_hold.specs.Rules.{GivesRules, TellsBadLine};

    /// No rules. Takes no memory.
    pub fn none(alloc: Global) -> Holds
        ensures { result ≡ [] }
    {
        Holds {
            rules: Vec::new(alloc),
            index: Index::new(alloc),
            sizes: Sizes::none(),
            order: Vec::new(alloc),
        }
    }

    /// The rules in order.
    pub fn rules(&self) -> &[Rule]
        ensures rules { result.now ≡ self.now }
        ensures lawful { IsRules self.now }
    {
        self.rules.as_slice()
    }

    /// Whether some rule names the path. Takes no memory.
    pub fn holds(&self, path: &Path) -> bool
        ensures { IsTrue result ↔ Names self.now path.now }
    {
        let rules = self.rules();
        if rules.is_empty() {
            return false;
        }
        if path_named(rules, &self.index, &self.order, path) {
            return true;
        }
        let Some(name) = path.last() else {
            return false;
        };
        named_by_front(rules, &self.index, name, path)
            || named_by_end(rules, &self.index, name, path)
            || named_by_middle(rules, &self.index, self.sizes, name, path)
    }

    /// The rules that a text spells, one a line. A bad line is reported by its number, the first one of them.
    pub fn parse(alloc: Global, text: &[u8]) -> Result<Holds, HoldFault>
        ensures found { IfOk result (IsRulesText text.now) }
        ensures bad { IfErr result (TellsBadLine text.now) }
        ensures only { (rules : List Rule) → IsRulesText text.now rules → GivesRules rules result }
    {
        let mut reader = RuleReader::new(alloc);
        let mut rest = text;
        'next: while !rest.is_empty() {
            let Some((line, after)) = first_line(rest) else {
                return Err(reader.fault());
            };
            reader.line(line)?;
            rest = after;
        }
        Ok(reader.finish())
    }

    /// Writes the text of the rules. Where the sink fails, or memory for a line runs out, a beginning of it went out.
    pub fn encode<W: Sink>(&self, alloc: Global, sink: &mut W) -> Result<(), TextFault>
        ensures written { Writes (W.holds sink.old) (W.holds sink.new) (text (map rule_line self.now)) result }
        ensures failures { FailuresFit (W.failures sink.old) (W.failures sink.new) result }
        ensures err { IfErr result (λ e. e ≢ fault.NotCanonical) }
    {
        let rules = self.rules();
        let mut line = Vec::new(alloc);
        for rule in rules {
            write_rule(rule, &mut line, sink)?;
        }
        Ok(())
    }
}

/// Writes the line of a rule. `line` is room for one line.
fn write_rule<W: Sink>(rule: &Rule, line: &mut Vec<u8>, sink: &mut W) -> Result<(), TextFault>
    ensures written { Writes (W.holds sink.old) (W.holds sink.new) (rule_line rule.now ++ 10 ∷ []) result }
    ensures failures { FailuresFit (W.failures sink.old) (W.failures sink.new) result }
    ensures err { IfErr result (λ e. e ≢ fault.NotCanonical) }
{
    line.clear();
    push_rule(rule, line)?;
    write_line(sink, line)
}

/// Whether some rule of one path names the path.
fn path_named(rules: &[Rule], index: &Index, order: &[u16], path: &Path) -> bool
    requires keys { (sizes : Sizes) × AreKeys sizes rules.now index.now }
    requires order { IsOrder rules.now order.now }
    ensures { MatchBool result (Names rules.now path.now) (NoPathNames rules.now path.now) }
{
    match index.last(path_key(path)) {
        Some(_) => place_of(rules, order, path).is_ok(),
        None => false,
    }
}

/// Whether some rule with this key names the path.
fn some_named(rules: &[Rule], index: &Index, key: u64, path: &Path) -> bool
    requires { length index.now ≡ length rules.now }
    ensures { MatchBool result (Names rules.now path.now) (NoneNames rules.now index.now key path.now) }
{
    let mut next = index.last(key);
    'next: while let Some(number) = next {
        if names(&rules[number], path) {
            return true;
        }
        next = index.before(number);
    }
    false
}

/// Whether some rule with the key of a front of the path's last name names the path.
fn named_by_front(rules: &[Rule], index: &Index, name: &[u8], path: &Path) -> bool
    requires { length index.now ≡ length rules.now }
    ensures { MatchBool result (Names rules.now path.now) (NoFrontNames rules.now index.now name.now path.now) }
{
    let mut key = NO_FRONT;
    for byte in name {
        if some_named(rules, index, key, path) {
            return true;
        }
        key = mixed(key, u64::from(*byte));
    }
    some_named(rules, index, key, path)
}

/// Whether some rule with the key of an end of the path's last name names the path.
fn named_by_end(rules: &[Rule], index: &Index, name: &[u8], path: &Path) -> bool
    requires { length index.now ≡ length rules.now }
    ensures { MatchBool result (Names rules.now path.now) (NoEndNames rules.now index.now name.now path.now) }
{
    let mut key = NO_END;
    let mut rest = name;
    'next: while let Some((byte, before)) = rest.split_last() {
        if some_named(rules, index, key, path) {
            return true;
        }
        key = mixed(key, u64::from(*byte));
        rest = before;
    }
    some_named(rules, index, key, path)
}

/// Whether some rule with the key of a window names the path: of one that ends after so many bytes of the name, whose number this is.
fn named_by_window(
    rules: &[Rule],
    index: &Index,
    sizes: Sizes,
    count: usize,
    number: u64,
    path: &Path,
) -> bool
    requires { length index.now ≡ length rules.now }
    ensures { MatchBool result (Names rules.now path.now) (NoWindowNames sizes rules.now index.now count number path.now) }
{
    if sizes.eight
        && count >= 8
        && some_named(rules, index, window_key(Size::Eight, number), path)
    {
        return true;
    }
    if sizes.four && count >= 4 && some_named(rules, index, window_key(Size::Four, number), path) {
        return true;
    }
    if sizes.two && count >= 2 && some_named(rules, index, window_key(Size::Two, number), path) {
        return true;
    }
    sizes.one && count >= 1 && some_named(rules, index, window_key(Size::One, number), path)
}

/// Whether some rule with the key of a window of the path's last name names the path.
fn named_by_middle(rules: &[Rule], index: &Index, sizes: Sizes, name: &[u8], path: &Path) -> bool
    requires { length index.now ≡ length rules.now }
    ensures { MatchBool result (Names rules.now path.now) (NoMiddleNames sizes rules.now index.now name.now path.now) }
{
    let mut number = 0;
    let mut count = 0;
    for byte in name {
        number = shifted(number, *byte);
        count += 1;
        if named_by_window(rules, index, sizes, count, number, path) {
            return true;
        }
    }
    false
}

fn names(rule: &Rule, path: &Path) -> bool
    ensures { IsTrue result ↔ RuleNames path.now rule.now }
{
    match rule {
        Rule::OnePath(named) => path == named,
        Rule::LastName(pattern) => match path.last() {
            Some(name) => fits(pattern.as_slice(), name),
            None => false,
        },
    }
}
