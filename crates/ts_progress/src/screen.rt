//! Where the line is drawn.
use std::env;
use std::io::{IsTerminal, Write};
use std::rt::Env;

/// How many columns a line has at most, whatever the terminal says.
const COLUMNS: usize = 79;

/// Where a line may be drawn again and again.
pub trait Screen {
    /// Whether a line may be drawn: whoever looks at it sees it go.
    fn draws(&self) -> bool;

    /// How many columns there are.
    fn columns(&self) -> usize;

    /// Writes text. What can't be written isn't.
    fn draw(&self, text: &[u8]);
}

impl Screen for HostRuntime {
    fn draws(&self) -> bool {
        self.stderr().is_terminal()
    }

    /// One fewer than `COLUMNS` says, so that the line doesn't wrap, and at most 79.
    fn columns(&self) -> usize {
        match env::var(self, "COLUMNS") {
            Ok(text) => match text.as_str().parse::<usize>() {
                Ok(columns) if columns > 1 => (columns - 1).min(COLUMNS),
                _ => COLUMNS,
            },
            Err(_) => COLUMNS,
        }
    }

    fn draw(&self, text: &[u8]) {
        let _ = self.stderr().write_all(text);
    }
}
