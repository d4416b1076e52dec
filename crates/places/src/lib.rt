// Counting by place: words that count alike share a place, and the steps counted at each are added up at once.
#![tactic(auto)]

ghost use Rattle.std.specs.Prelude.{◌≡◌, true, ◌+◌, ◌<◌, ◌≤◌, length};
ghost use Rattle.usage.specs.Counting.{counted_steps, Room};
ghost use Rattle.places.specs.Places.{with_taken, place_of, word_of, NoneFrom, folded};

use usage::Usage;

// How many places there are: 1,024 by the upper ten bits, and 4,096 for each of the opcodes 0, 1, 11 and 12.
pub const PLACES: usize = 17408;

// In the fold, so many places are passed over at once where no step is counted at any.
const BLOCK: usize = 64;

// The place of the word w.
pub fn place_of(w: u16) -> usize
    ensures is { result ≡ place_of w }
    ensures few { result < 17408 }
{
    let op = w / 4096;
    let at = w as usize;
    if op < 2 {
        at + 1024
    } else if op < 11 {
        at / 64
    } else if op < 13 {
        at - 35840
    } else {
        at / 64
    }
}

// A word that counts as those of the place do.
fn word_of(place: usize) -> u16
    requires { place < 17408 }
    ensures { result ≡ word_of place }
{
    if place < 1024 {
        (place * 64) as u16
    } else if place < 9216 {
        (place - 1024) as u16
    } else {
        (place + 35840) as u16
    }
}

// n steps more of the place's word.
fn count_place(usage: &mut Usage, place: usize, n: u32)
    requires place_bound { place < 17408 }
    requires room { Room n usage.old }
    ensures { usage.new ≡ counted_steps n (word_of place) usage.old }
{
    if n != 0 {
        usage.count_steps(word_of(place), u64::from(n))
    }
}

// No step is counted at the places of a block from that one on. (No early end, so that LLVM takes several at once.)
fn is_empty(counts: &[u32], from: usize) -> bool
    requires { from + 64 ≤ length counts.now }
    ensures { result ≡ true → NoneFrom 64 from counts.now }
{
    let mut empty = true;
    for place in from..from + BLOCK {
        empty &= counts[place] == 0;
    }
    empty
}

// The counts of all places, where so many lines were taken.
pub fn fold(counts: &[u32], taken: u64) -> Usage
    requires { length counts.now ≡ 17408 }
    ensures { result ≡ with_taken taken (folded counts.now) }
{
    let mut usage = Usage::none();
    for block in 0..PLACES / BLOCK {
        let from = block * BLOCK;
        if !is_empty(counts, from) {
            for place in from..from + BLOCK {
                count_place(&mut usage, place, counts[place]);
            }
        }
    }
    Usage { taken, ..usage }
}
