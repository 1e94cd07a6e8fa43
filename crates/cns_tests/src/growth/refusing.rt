// Handles on an allocator that refuses one growth, and the loop over the growths of a call.
use crate::checks::check_at;
use cns_rationed::Rationed;
use std::alloc::{Allocator, Global};
use std::process::Abort;

pub(crate) type Rations<'a> = &'a Rationed<Global>;

// A handle whose copy is a growth too, which may be refused.
pub(crate) type Refusing<'a> = Rationed<Rations<'a>>;

// More growths than any call here asks for.
pub(crate) const MOST: u64 = 200;

// A handle on an allocator that refuses.
pub(crate) trait Handle<'a>: Allocator + Drop + Clone {
    fn over(rationed: Rations<'a>) -> Self;
}

impl<'a> Handle<'a> for Refusing<'a> {
    fn over(rationed: Rations<'a>) -> Self {
        Rationed::new(rationed)
    }
}

// A call that takes memory, with its arguments. That it hands out what it should, and that its arguments are as before where
// it found no memory, is said by its clauses.
pub(crate) trait Call<H>: Drop {
    // Arguments of a size, which is at most 3,000, on an allocator.
    fn prepared(rt: &impl Abort, global: Global, alloc: H, size: u16) -> Self;

    // Makes the call, and drops what it hands out: whether it found its memory.
    fn make(&mut self, rt: &impl Abort) -> bool;
}

// Makes a call with the growth after so many refused; whether one was. The call finds no memory exactly then, and its blocks
// are given back, but for those that may be left; made once more, it finds its memory. None where it is not so.
fn refuse<H, C: Call<H>>(
    rt: &impl Abort,
    rationed: Rations,
    call: &mut C,
    left: u64,
    growths: u64,
) -> Option<bool> {
    let held = rationed.held();
    rationed.ration(growths);
    let found = call.make(rt);
    let is_refused = rationed.refused() > 0;
    rationed.ration(u64::MAX);
    let is_kept = !is_refused || rationed.held() <= held.saturating_add(left);
    let is_so = found != is_refused && is_kept && (found || call.make(rt));
    is_so.then_some(is_refused)
}

// The same of a call with arguments of a size.
fn is_refused<'a, H: Handle<'a>, C: Call<H>>(
    rt: &impl Abort,
    global: Global,
    rationed: Rations<'a>,
    size: u16,
    left: u64,
    growths: u64,
) -> Option<bool> {
    let mut call = C::prepared(rt, global, H::over(rationed), size);
    refuse(rt, rationed, &mut call, left, growths)
}

// Refuses each growth of a call in turn; how many there are.
fn growths_of<'a, H: Handle<'a>, C: Call<H>>(
    rt: &impl Abort,
    global: Global,
    rationed: Rations<'a>,
    size: u16,
    left: u64,
) -> u64 {
    for growths in 0..MOST {
        let is_refused = is_refused::<H, C>(rt, global, rationed, size, left, growths);
        let is_so = is_refused.is_some() && rationed.held() == 0;
        check_at(rt, is_so, u64::from(size));
        if is_refused == Some(false) {
            return growths;
        }
    }
    panic!(rt; "no end of growths");
}

// Makes a call with no growth refused.
fn is_made<'a, H: Handle<'a>, C: Call<H>>(
    rt: &impl Abort,
    global: Global,
    rationed: Rations<'a>,
    size: u16,
) -> bool {
    let mut call = C::prepared(rt, global, H::over(rationed), size);
    call.make(rt)
}

// Sizes at which lists are full, and nodes of maps.
const SIZES: [u16; 6] = [1, 4, 8, 15, 16, 24];

// Sizes at which no growth is refused: a call must not give up because it has much to keep.
const LARGE_SIZES: [u16; 3] = [100, 400, 3_000];

// The most growths of a call, whose arguments have each of the first sizes. It is made at the large ones too. A refused growth
// may leave so many blocks in the arguments.
pub(crate) fn most_growths<'a, H: Handle<'a>, C: Call<H>>(
    rt: &impl Abort,
    global: Global,
    rationed: Rations<'a>,
    left: u64,
) -> u64 {
    let mut most = 0;
    for size in &SIZES {
        most = growths_of::<H, C>(rt, global, rationed, *size, left).max(most);
    }
    for size in &LARGE_SIZES {
        check_at(
            rt,
            is_made::<H, C>(rt, global, rationed, *size),
            u64::from(*size),
        );
    }
    most
}
