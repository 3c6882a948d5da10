//! Rules of one path in the order of their paths.
ghost use Rattle.std.specs.Prelude.{◌≡◌, MatchOption, MatchResult};
ghost use Rattle.ts_hold.specs.Orders.{IsOrder, IsPlace, IsThere, NeedsNoPlace, NeedsPlace, rule_order};

use std::cmp::Ordering;
use ts_model::hold::Rule;
use ts_name::Path;

/// How a rule stands to a path. One of names comes after each path.
fn rule_cmp(rule: &Rule, path: &Path) -> Ordering
    ensures { result ≡ rule_order rule.now path.now }
{
    match rule {
        Rule::OnePath(named) => named.cmp(path),
        Rule::LastName(_) => Ordering::Greater,
    }
}

/// The place of a rule of this path, or where one would go.
pub fn place_of(rules: &[Rule], order: &[u16], path: &Path) -> Result<usize, usize>
    requires { IsOrder rules.now order.now }
    ensures { MatchResult result (IsThere rules.now order.now path.now) (IsPlace rules.now order.now path.now) }
{
    let mut low = 0;
    let mut high = order.len();
    'next: while low < high {
        let middle = low + (high - low) / 2;
        match rule_cmp(&rules[usize::from(order[middle])], path) {
            Ordering::Less => low = middle + 1,
            Ordering::Equal => return Ok(middle),
            Ordering::Greater => high = middle,
        }
    }
    Err(low)
}

/// Where a rule of one path goes, if it is one and its path isn't there.
pub fn place_for(rules: &[Rule], order: &[u16], rule: &Rule) -> Option<usize>
    requires { IsOrder rules.now order.now }
    ensures { MatchOption result (NeedsNoPlace rules.now order.now rule.now) (NeedsPlace rules.now order.now rule.now) }
{
    match rule {
        Rule::OnePath(path) => match place_of(rules, order, path) {
            Ok(_) => None,
            Err(place) => Some(place),
        },
        Rule::LastName(_) => None,
    }
}
