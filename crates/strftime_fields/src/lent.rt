//! A text in bytes that a caller lends.

ghost use Rattle.std.specs.Prelude.{◌≡◌, ◌≤◌, ◌+◌, ◌-◌, ◌++◌, length, take, drop};
ghost use Rattle.text_buffer.specs.Written.{over};
ghost use Rattle.strftime_fields.specs.Kept.{Lent};

use crate::output::Output;
use crate::stop::Stop;
use std::mem::replace;
use text_buffer::put_at;
use time_cat::NAME_FRONT;

/// How many of the bytes that are lent hold the text: their first ones.
#[derive(Drop)]
pub struct Place {
    pub at: usize,
}

impl Output for Place {
    ghost kind = { Lent };

    ghost text = { λ p lent. take p.at lent };

    // None at a place behind the bytes that are lent.
    ghost room = { λ p lent. lent - (p.at - lent) };

    #[inline(always)]
    fn text_len(&self, lent: &[u8]) -> usize {
        self.at.min(lent.len())
    }

    #[inline(always)]
    fn room_for(&self, lent: &[u8]) -> usize {
        lent.len()
            .saturating_sub(self.at.saturating_sub(lent.len()))
    }

    #[inline(always)]
    fn is_within(&self, _lent: &[u8], stop: usize) -> bool {
        self.at <= stop
    }

    #[inline(always)]
    fn put(&mut self, lent: &mut [u8], max: usize, bytes: &[u8]) -> Result<(), Stop> {
        let at = self.text_len(lent);
        if bytes.len() > max - at {
            return Err(Stop::TooBig);
        }
        self.at = put_at(lent, at, bytes);
        Ok(())
    }

    #[inline(always)]
    fn put_within(&mut self, lent: &mut [u8], bytes: &[u8]) {
        if bytes.is_empty() {
            return;
        }
        self.at = put_at(lent, self.at, bytes);
    }

    #[inline(always)]
    fn put_front(&mut self, lent: &mut [u8], front: &[u8; NAME_FRONT], len: usize) {
        let _end = put_array(lent, self.at, *front);
        self.at += len;
    }

    #[inline(always)]
    fn held(&mut self) -> Place {
        replace(self, Place { at: 0 })
    }
}

/// Writes an array over the first bytes of a buffer.
#[inline(always)]
fn put_first<const N: usize>(target: &mut [u8], bytes: [u8; N])
    requires { N ≤ length target.old }
    ensures { target.new ≡ bytes.entry ++ drop N target.old }
{
    match target.first_chunk_mut::<N>() {
        Some(chunk) => *chunk = bytes,
        None => unreachable!(),
    }
}

/// Writes an array over the bytes of a buffer from a place on, and says where it ends.
#[inline(always)]
fn put_array<const N: usize>(target: &mut [u8], at: usize, bytes: [u8; N]) -> usize
    requires { at + N ≤ length target.old }
    ensures ends { result ≡ at + N }
    ensures written { target.new ≡ over target.old at bytes.entry }
{
    put_first(&mut target[at..], bytes);
    at + N
}
