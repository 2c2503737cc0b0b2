//! How far long work is.

use std::time::{Clock, Instant};

/// The count of the files that are done, for one who watches a terminal.
#[derive(Drop)]
pub struct Progress {
    /// When the count was shown, or when the work began; `None` where nobody watches.
    since: Option<Instant>,
    is_shown: bool,
}

impl Progress {
    /// Work that begins.
    pub fn begin<R: Clock>(rt: &R, is_watched: bool) -> Progress {
        let since = if is_watched {
            Instant::now(rt).ok()
        } else {
            None
        };
        Progress {
            since,
            is_shown: false,
        }
    }

    /// Shows the count, at most once a second.
    pub fn show<R: Clock + Eprint>(&mut self, rt: &R, done: usize, count: usize) {
        if is_due(rt, self.since) {
            self.since = Instant::now(rt).ok();
            self.is_shown = rt.eprint(format_args!("\r{done} of {count} files")).is_ok();
        }
    }

    /// Takes the count away.
    pub fn end<R: Eprint>(self, rt: &R) {
        if self.is_shown {
            let _is_gone = rt.eprint("\r\x1b[K").is_ok();
        }
    }
}

/// Whether a second has gone.
fn is_due<R: Clock>(rt: &R, since: Option<Instant>) -> bool {
    match since {
        Some(since) => match since.elapsed(rt) {
            Ok(gone) => gone.as_secs() >= 1,
            Err(_) => false,
        },
        None => false,
    }
}
