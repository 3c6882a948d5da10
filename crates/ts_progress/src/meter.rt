//! Who draws the line, and when.
ghost use Rattle.std.specs.Prelude.{◌≡◌, IsTrue, None};

use crate::line::{Amount, Phase, Standing, line};
use crate::screen::Screen;
use std::alloc::{AllocError, Global};
use std::rt::Clock;
use std::sync::atomic::{AtomicBool, AtomicU64, Ordering};
use std::time::Instant;

/// After so many milliseconds a command draws for the first time, so that a short one draws nothing.
const FIRST: u64 = 300;

/// So many milliseconds pass from one line to the next.
const PERIOD: u64 = 100;

/// What a command draws while it works, and since when it does.
#[derive(Drop)]
pub struct Progress<'a, S> {
    screen: &'a S,
    alloc: Global,
    /// None where nothing is drawn.
    pub start: Option<Instant>,
}

impl<'a, S: Screen + Clock> Progress<'a, S> {
    /// A command begins. Nothing is drawn where it is to be quiet, where the screen draws nothing, and where there is no clock.
    pub fn new(screen: &'a S, alloc: Global, quiet: bool) -> Progress<'a, S>
        ensures quiet { IsTrue quiet → result.start ≡ None }
    {
        let start = if quiet || !screen.draws() {
            None
        } else {
            Instant::now(screen).ok()
        };
        Progress {
            screen,
            alloc,
            start,
        }
    }

    /// A phase begins, of which so much is expected where that is known.
    pub fn begin(&self, phase: Phase, expected: Amount) -> Meter<'a, S>
        ensures start { result.start ≡ self.now.start }
    {
        let columns = match &self.start {
            Some(_) => self.screen.columns(),
            None => 0,
        };
        let mut meter = Meter {
            screen: self.screen,
            alloc: self.alloc,
            start: self.start,
            columns,
            phase,
            expected,
            begun: 0,
            steps: AtomicU64::new(0),
            bytes: AtomicU64::new(0),
            due: AtomicU64::new(FIRST),
            is_busy: AtomicBool::new(false),
            drawn: AtomicU64::new(0),
        };
        meter.begun = meter.elapsed().unwrap_or(0);
        meter.look();
        meter
    }
}

/// What is done in a phase, counted by all who work, and drawn by whoever comes by when a line is due.
#[derive(Drop)]
pub struct Meter<'a, S> {
    screen: &'a S,
    alloc: Global,
    /// When the command began. None where nothing is drawn.
    pub start: Option<Instant>,
    columns: usize,
    phase: Phase,
    expected: Amount,
    /// When the phase began, in milliseconds since the command did.
    begun: u64,
    steps: AtomicU64,
    bytes: AtomicU64,
    /// When the next line is due, in milliseconds since the command began.
    due: AtomicU64,
    /// Somebody draws.
    is_busy: AtomicBool,
    /// How many columns were drawn on.
    drawn: AtomicU64,
}

impl<S: Screen + Clock> Meter<'_, S> {
    /// Another file was opened. In a run the actions are counted, and not the files.
    pub fn add_file(&self) {
        if self.start.is_some() && self.phase == Phase::Scanning {
            self.steps.fetch_add(1, Ordering::SeqCst);
        }
    }

    /// Another action is to act.
    pub fn add_action(&self) {
        if self.start.is_some() {
            self.steps.fetch_add(1, Ordering::SeqCst);
            self.look();
        }
    }

    /// So many more paths were flushed.
    pub fn add_paths(&self, count: u64) {
        if self.start.is_some() {
            self.steps.fetch_add(count, Ordering::SeqCst);
            self.look();
        }
    }

    /// So many more bytes were read.
    pub fn add_bytes(&self, count: u64) {
        if self.start.is_some() {
            self.bytes.fetch_add(count, Ordering::SeqCst);
            self.look();
        }
    }

    /// The phase is over, and nobody counts any more: its line goes.
    pub fn end(&self) {
        let drawn = self.drawn.load(Ordering::SeqCst);
        if drawn > 0 {
            let _ = self.erase(drawn);
        }
    }

    /// How many milliseconds passed since the command began.
    fn elapsed(&self) -> Option<u64> {
        let start = self.start?;
        match start.elapsed(self.screen) {
            Ok(elapsed) => u64::try_from(elapsed.as_millis()).ok(),
            Err(_) => None,
        }
    }

    /// Draws where a line is due, and nobody else draws. So what one line counts is never less than what the one before did.
    fn look(&self) {
        let Some(now) = self.elapsed() else {
            return;
        };
        if now < self.due.load(Ordering::SeqCst) || self.is_busy.swap(true, Ordering::SeqCst) {
            return;
        }
        if now >= self.due.load(Ordering::SeqCst) {
            let _ = self.draw(now);
            self.due.store(now.saturating_add(PERIOD), Ordering::SeqCst);
        }
        self.is_busy.store(false, Ordering::SeqCst);
    }

    /// How far the phase is at a time.
    fn standing(&self, now: u64) -> Standing {
        let steps = self.steps.load(Ordering::SeqCst);
        let bytes = self.bytes.load(Ordering::SeqCst);
        Standing {
            phase: self.phase,
            done: Amount { steps, bytes },
            expected: self.expected,
            elapsed: now.saturating_sub(self.begun),
        }
    }

    /// Draws the line over the one before.
    fn draw(&self, now: u64) -> Result<(), AllocError> {
        let line = line(self.alloc, self.columns, self.standing(now))?;
        let before = self.drawn.load(Ordering::SeqCst);
        let width = line.len() as u64;
        let mut text = Vec::from_slice(self.alloc, b"\r")?;
        text.extend_from_slice(&line)?;
        push_spaces(&mut text, before.saturating_sub(width))?;
        self.drawn.store(before.max(width), Ordering::SeqCst);
        self.screen.draw(&text);
        Ok(())
    }

    /// Draws over so many columns, and goes back to the first.
    fn erase(&self, drawn: u64) -> Result<(), AllocError> {
        let mut text = Vec::from_slice(self.alloc, b"\r")?;
        push_spaces(&mut text, drawn)?;
        text.push(b'\r')?;
        self.screen.draw(&text);
        Ok(())
    }
}

/// Appends so many spaces.
fn push_spaces(text: &mut Vec<u8>, count: u64) -> Result<(), AllocError> {
    for _i in 0..count {
        text.push(b' ')?;
    }
    Ok(())
}
