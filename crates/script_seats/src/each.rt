//! Concurrent calls, each in a thread that the caller starts.

ghost use Rattle.std.specs.Prelude.{◌≡◌, ℕ, ◌+◌, ◌^◌, ◌<◌, ◌≤◌, length, slice_index_or};
ghost use denote.Param.Send.{IsSync, IsSend};
ghost use Rattle.std.specs.Fork.{AcceptsAt, ChangesAt, AcceptsEach, ChangesEach};
ghost use Rattle.script_seats.specs.Places.{AcceptsFrom, ChangesFrom};

use std::thread::{Threads, join_mut};

/// Calls f(i, &mut s[i]) at each place: the last call in this thread, and each other in one of its own,
/// where one can be made, that this thread starts. `for_each_mut` of std has threads start each other,
/// and one that just began may have to share its processor with the one that it starts, though another
/// processor is idle.
pub fn for_each_beside<R: Threads + Sync, T: Send, F: Fn(usize, &mut T) + Sync>(
    rt: &R,
    s: &mut [T],
    f: &F,
)
    requires { AcceptsEach F.Fn f.now s.old }
    ensures { ChangesEach F.Fn f.now s.old s.new }
{
    each_from(rt, f, 0, s);
}

// Calls f(base + i, &mut s[i]) at each place of a slice that stands at `base` of a longer one.
#[cycle(each)]
fn each_from<R: Threads + Sync, T: Send, F: Fn(usize, &mut T) + Sync>(
    rt: &R,
    f: &F,
    base: usize,
    s: &mut [T],
)
    requires room { base + length s.old < 2 ^ 64 }
    requires accepts { AcceptsFrom (AcceptsAt F.Fn f.now) base s.old }
    ensures { ChangesFrom (ChangesAt F.Fn f.now) base s.old s.new }
{
    if s.len() < 2 {
        at_most_one(f, base, s);
        return;
    }
    let (one, rest) = s.split_at_mut(1);
    one_beside(rt, f, base, one, base + 1, rest);
}

// A separate function from `each_from`, so that what the closures require is what this function is given.
#[cycle(each)]
fn one_beside<R: Threads + Sync, T: Send, F: Fn(usize, &mut T) + Sync>(
    rt: &R,
    f: &F,
    base: usize,
    one: &mut [T],
    next: usize,
    rest: &mut [T],
)
    requires short { length one.old < 2 }
    requires accepts { AcceptsFrom (AcceptsAt F.Fn f.now) base one.old }
    requires rest_room { next + length rest.old < 2 ^ 64 }
    requires rest_accepts { AcceptsFrom (AcceptsAt F.Fn f.now) next rest.old }
    ensures one { ChangesFrom (ChangesAt F.Fn f.now) base one.old one.new }
    ensures rest { ChangesFrom (ChangesAt F.Fn f.now) next rest.old rest.new }
{
    let mut first = ||
        requires { IsSync F.row × IsSend T.row × (length one.now < 2) × AcceptsFrom (AcceptsAt F.Fn f.now) base one.now }
        ensures { ChangesFrom (ChangesAt F.Fn f.entry.now) base one.entry.now one.exit.now }
    { at_most_one(f, base, one) };
    let mut others = ||
        requires { IsSync R.row × IsSync F.row × IsSend T.row × (next + length rest.now < 2 ^ 64) × AcceptsFrom (AcceptsAt F.Fn f.now) next rest.now }
        ensures { ChangesFrom (ChangesAt F.Fn f.entry.now) next rest.entry.now rest.exit.now }
    { each_from(rt, f, next, rest) };
    join_mut(rt, &mut first, &mut others);
}

// The call at the place of a lone element.
fn at_most_one<T, F: Fn(usize, &mut T)>(f: &F, base: usize, s: &mut [T])
    requires short { length s.old < 2 }
    requires accepts { AcceptsFrom (AcceptsAt F.Fn f.now) base s.old }
    ensures { ChangesFrom (ChangesAt F.Fn f.now) base s.old s.new }
{
    if !s.is_empty() {
        at_one(f, base, &mut s[0]);
    }
}

fn at_one<T, F: Fn(usize, &mut T)>(f: &F, i: usize, item: &mut T)
    requires { AcceptsAt F.Fn f.now i item.old }
    ensures { ChangesAt F.Fn f.now i item.old item.new }
{
    f(i, item);
}
