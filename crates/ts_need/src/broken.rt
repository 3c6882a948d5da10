use ts_model::plan::PlanRule;

/// A rule that is broken, and where.
#[derive(Clone, Copy, Debug, PartialEq, Eq)]
pub struct Broken {
    pub rule: PlanRule,
    pub place: u64,
}
