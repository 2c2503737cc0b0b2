//! A text in a `Vec`.

ghost use Rattle.std.specs.Prelude.{◌≡◌, ◌+◌, ◌++◌, ◌≤◌, true, length, vec_capacity};
ghost use Rattle.strftime_fields.specs.Kept.{Growing};

use crate::output::Output;
use crate::stop::Stop;
use std::mem::replace;
use time_cat::NAME_FRONT;

impl Output for Vec<u8> {
    ghost kind = { Growing };

    ghost text = { λ v _. v.items };

    ghost room = { λ v _. vec_capacity v };

    #[inline(always)]
    fn text_len(&self, _lent: &[u8]) -> usize {
        self.len()
    }

    #[inline(always)]
    fn room_for(&self, _lent: &[u8]) -> usize {
        self.capacity()
    }

    #[inline(always)]
    fn is_within(&self, _lent: &[u8], stop: usize) -> bool {
        self.len() <= stop
    }

    #[inline(always)]
    fn put(&mut self, _lent: &mut [u8], max: usize, bytes: &[u8]) -> Result<(), Stop> {
        if bytes.len() > max - self.len() {
            return Err(Stop::TooBig);
        }
        self.extend_from_slice(bytes)?;
        Ok(())
    }

    #[inline(always)]
    fn put_within(&mut self, _lent: &mut [u8], bytes: &[u8]) {
        push_all(self, bytes);
    }

    #[inline(always)]
    fn put_front(&mut self, _lent: &mut [u8], front: &[u8; NAME_FRONT], len: usize) {
        let end = self.len() + len;
        // The bytes behind the name are added too, and taken off again: so one move adds all.
        let bytes = *front;
        push_all(self, &bytes);
        self.truncate(end);
    }

    #[inline(always)]
    fn held(&mut self) -> Vec<u8> {
        let empty = Vec::new(*self.allocator());
        replace(self, empty)
    }
}

/// Adds bytes for which there is room.
#[inline(always)]
fn push_all(out: &mut Vec<u8>, bytes: &[u8])
    requires room { length out.old.items + length bytes.now ≤ vec_capacity out.old }
    ensures text { out.new.items ≡ out.old.items ++ bytes.now }
    ensures long { length out.new.items ≡ length out.old.items + length bytes.now }
    ensures room { vec_capacity out.new ≡ vec_capacity out.old }
{
    for byte in bytes {
        out.push_reserved(*byte);
    }
}
