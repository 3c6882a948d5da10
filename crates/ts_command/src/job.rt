//! What the program may be asked to do.
ghost use Rattle.std.proofs.Props.{props};
ghost use Rattle.std.specs.Prelude.{◌≤◌, IfSome};

/// The two replicas, their archive, and the hold rules. Each is a path of the file system.
#[derive(Drop)]
pub struct Pair<'a> {
    pub first: &'a str,
    pub second: &'a str,
    /// The archive file. One that isn't there stands for an archive without paths.
    pub archive: &'a str,
    /// A file of hold rules, if there are any.
    pub holds: Option<&'a str>,
    /// Whether links, devices and whatever else can't be synchronized are held, too. Else they are refused.
    pub hold_special: bool,
}

/// What is to be done.
#[derive(Drop)]
pub enum Job<'a> {
    /// Prints the help or the version that the words ask for.
    Tell { text: clap::Error },
    /// Answers the bundle on standard input.
    Trial,
    /// Prints the archive that a folder would give.
    Scan { folder: &'a str },
    /// Prints an archive's body.
    Show { archive: &'a str },
    /// Prints a plan for the pair.
    Plan { pair: Pair<'a> },
    /// Shows what `Sync` would do, for people or as JSON.
    Preview { pair: Pair<'a>, json: bool },
    /// Says whether a plan is valid for the pair.
    Check { pair: Pair<'a>, plan: &'a str },
    /// Checks a plan and carries it out.
    Run { pair: Pair<'a>, plan: &'a str },
    /// Makes a plan and carries it out.
    Sync { pair: Pair<'a> },
}

/// A job, by how many threads it is done, 1 to 64, after how many actions of a thread the archive is written meanwhile, where
/// that is said, 1 to 1,048,576, whether a replica may lose all its files by a `sync`, whether faults are put in words, too, whether no
/// progress line is drawn, and whether a preview for people has colours, for which no words ask: whoever prints knows whether a terminal
/// shows them.
#[derive(Drop)]
pub struct Command<'a> {
    pub job: Job<'a>,
    pub workers: u32,
    pub checkpoint: Option<u32>,
    pub allow_empty: bool,
    pub explain: bool,
    pub quiet: bool,
    pub coloured: bool,
    pub ghost some: { 1 ≤ workers },
    pub ghost few: { workers ≤ 64 },
    pub ghost spaced: { IfSome checkpoint (λ every. (1 ≤ every) × (every ≤ 1048576)) } by { Prim.hlevel props },
}
