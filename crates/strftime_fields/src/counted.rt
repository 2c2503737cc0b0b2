//! The length of a text that is kept nowhere.

ghost use Rattle.std.specs.Prelude.{◌≡◌, length, replicate};
ghost use Rattle.strftime_fields.specs.Kept.{Counted};

use crate::output::Output;
use crate::stop::Stop;
use std::mem::replace;
use time_cat::NAME_FRONT;

/// How many bytes a text has.
#[derive(Drop)]
pub struct Counter {
    pub count: usize,
}

impl Output for Counter {
    ghost kind = { Counted };

    ghost text = { λ c _. replicate c.count 0 };

    ghost room = { λ _ _. 18446744073709551615 };

    #[inline(always)]
    fn text_len(&self, _lent: &[u8]) -> usize {
        self.count
    }

    #[inline(always)]
    fn room_for(&self, _lent: &[u8]) -> usize {
        usize::MAX
    }

    #[inline(always)]
    fn is_within(&self, _lent: &[u8], stop: usize) -> bool {
        self.count <= stop
    }

    #[inline(always)]
    fn put(&mut self, _lent: &mut [u8], max: usize, bytes: &[u8]) -> Result<(), Stop> {
        if bytes.len() > max - self.count {
            return Err(Stop::TooBig);
        }
        self.count += bytes.len();
        Ok(())
    }

    #[inline(always)]
    fn put_within(&mut self, _lent: &mut [u8], bytes: &[u8]) {
        self.count += bytes.len();
    }

    #[inline(always)]
    fn put_front(&mut self, _lent: &mut [u8], _front: &[u8; NAME_FRONT], len: usize) {
        self.count += len;
    }

    #[inline(always)]
    fn held(&mut self) -> Counter {
        replace(self, Counter { count: 0 })
    }
}
