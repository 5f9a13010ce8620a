// The history of a vector record: bit k stands for the number anchor - k. This file alone knows how a history is held:
// eight words of 64 bits, the lowest first. Words are named by constant places wherever the common cases go, since a place
// that is computed would keep the whole record in memory; and a window of at most a word has a short way. (Document 01 names the form:
// an array by value of eight words in the record, shifted across words and tested bit by bit.)
// A place is a number below 512, and a shift within a word one below 64. Neither has a type of its own: the callers have them from a
// record or from marks, which C and other crates fill, and would make the type only to take it apart again.
ghost use Rattle.std.specs.Prelude.{◌≡◌, ◌+◌, ◌-◌, ◌*◌, ◌/◌, ◌%◌, ◌^◌, ◌<◌, ◌≤◌, bit_or, count_ones, fold, ◌↔◌, IsTrue, EachIndex, slice_index};
ghost use Rattle.record.specs.Sizes.{window_most};
ghost use Rattle.stream.specs.History.{value, words_of, is_empty, bit, within, set_bit, leaving, marked, marked_first};

use record::Stream;
use std::array;

// Bits in a word.
const WORD: u16 = 64;

// A way of so many places up in a window, which has more places than that.
#[derive(Clone, Copy)]
pub struct Shift {
    pub window: u16,
    pub up: u16,
    ghost inside: { up < window },
    ghost most: { window ≤ window_most },
}

// The words joined by `or`.
fn any_of(words: &[u64]) -> u64
    ensures { result ≡ fold bit_or 0 words.now }
{
    words.iter().fold(0, |all, x| all | x)
}

// No bit is set above the first word. (Seven tests one after the other, by `is_clear`, took 14 instructions more than this one.)
fn is_short(h: [u64; 8]) -> bool
    ensures { result ≡ within 64 h }
{
    any_of(&h[1..]) == 0
}

pub fn is_empty(h: [u64; 8]) -> bool
    ensures { result ≡ is_empty h }
{
    h[0] == 0 && is_short(h)
}

// Bit k, above the first word.
fn has_above(h: [u64; 8], k: u16) -> bool
    requires { k < window_most }
    ensures { result ≡ bit k h }
{
    let i = (k / WORD) as usize;
    (h[i] >> (k % WORD)) % 2 == 1
}

pub fn has_bit(h: [u64; 8], k: u16) -> bool
    requires { k < window_most }
    ensures { result ≡ bit k h }
{
    if k < WORD {
        return (h[0] >> k) % 2 == 1;
    }
    has_above(h, k)
}

// Each of the words is zero. The first that is not ends it: with `any_of`, which goes over all, a decision in a window of 512 took a
// fifth more instructions (442 for 372).
fn is_clear(words: &[u64]) -> bool
    ensures { IsTrue result ↔ EachIndex words.now (λ k. slice_index words.now k ≡ 0) }
{
    words.iter().all(|&x| x == 0)
}

// No bit is set at w or above: none in the words above that of place w - 1, and none in the rest of that.
fn is_long_within(h: [u64; 8], w: u16) -> bool
    requires { (1 ≤ w) × (w ≤ window_most) }
    ensures { result ≡ within w h }
{
    let i = ((w - 1) / WORD) as usize;
    is_clear(&h[i + 1..]) && (h[i] >> ((w - 1) % WORD)) < 2
}

// No bit is set at w or above. There is no shift by 64. (With `&&` in place of the second test a decision took 4 instructions more.)
pub fn is_within(h: [u64; 8], w: u16) -> bool
    requires { (1 ≤ w) × (w ≤ window_most) }
    ensures { result ≡ within w h }
{
    if w > WORD {
        return is_long_within(h, w);
    }
    if !is_short(h) {
        return false;
    }
    (h[0] >> (w - 1)) < 2
}

// A bit of the first word is set there by a constant place.
fn set_bit(h: [u64; 8], k: u16) -> [u64; 8]
    requires { k < window_most }
    ensures { result ≡ set_bit k h }
{
    let mut out = h;
    if k < WORD {
        out[0] |= 1 << k;
        return out;
    }
    out[(k / WORD) as usize] |= 1 << (k % WORD);
    out
}

// hi, b places up, and below it the b highest bits of lo.
fn joined(hi: u64, lo: u64, b: u16) -> u64
    requires { b < 64 }
    ensures { result ≡ (hi * 2 ^ b) % 2 ^ 64 + lo / 2 ^ (64 - b) }
{
    (hi << b) | ((lo >> 1) >> (63 - b))
}

// b places up, for b below 64.
fn bits_up(h: [u64; 8], b: u16) -> [u64; 8]
    requires { b < 64 }
    ensures { result ≡ words_of 8 (value h * 2 ^ b) }
{
    array::from_fn(|i| joined(h[i], if i == 0 { 0 } else { h[i - 1] }, b))
}

// The 64 - up lowest bits of x.
fn cut(x: u64, up: u16) -> u64
    requires { up < 64 }
    ensures { result ≡ x % 2 ^ (64 - up) }
{
    (x << up) >> up
}

// Word i of a history, cut at the window's end.
fn kept(x: u64, w: u16, i: u16) -> u64
    requires { i < 8 }
    ensures { result ≡ x % 2 ^ (w - 64 * i) }
{
    if w >= 64 * i + 64 {
        return x;
    }
    if w <= 64 * i {
        return 0;
    }
    cut(x, 64 - (w - 64 * i))
}

// The places below w. The greatest window keeps all.
fn cut_at(h: [u64; 8], w: u16) -> [u64; 8]
    ensures { result ≡ words_of 8 (value h % 2 ^ w) }
{
    if w == Stream::WINDOW_MOST {
        return h;
    }
    array::from_fn(|i| kept(h[i], w, i as u16))
}

// The places of a shift up, word by word: for 64 places and more.
fn places_up(h: [u64; 8], shift: Shift) -> [u64; 8]
    ensures { result ≡ words_of 8 ((value h * 2 ^ shift.up) % 2 ^ shift.window) }
{
    let Shift { window: w, up: d } = shift;
    let q = (d / WORD) as usize;
    let b = d % WORD;
    let top = ((w - 1) / WORD) as usize;
    let mut out = [0u64; 8];
    out[q] = h[0] << b;
    for i in q + 1..top + 1 {
        out[i] = joined(h[i - q], h[i - q - 1], b);
    }
    out[top] = cut(out[top], 63 - (w - 1) % WORD);
    out
}

// The places of a shift up. A window of at most a word stands at the first word's top when it is cut.
fn moved(h: [u64; 8], shift: Shift) -> [u64; 8]
    ensures { result ≡ words_of 8 ((value h * 2 ^ shift.up) % 2 ^ shift.window) }
{
    let Shift { window: w, up: d } = shift;
    if w <= WORD {
        let up = WORD - w;
        let mut out = [0; 8];
        out[0] = ((h[0] << d) << up) >> up;
        return out;
    }
    if d < WORD {
        return cut_at(bits_up(h, d), w);
    }
    places_up(h, shift)
}

// The places of a shift up, and then bit k set.
pub fn marked(h: [u64; 8], shift: Shift, k: u16) -> [u64; 8]
    requires { k < window_most }
    ensures { result ≡ marked shift.window shift.up k h }
{
    if shift.up == 0 {
        return set_bit(h, k);
    }
    set_bit(moved(h, shift), k)
}

// The same in a window of at most a word, by the first word alone: the others stay.
pub fn marked_first(h: [u64; 8], shift: Shift, k: u16) -> [u64; 8]
    requires { (k < 64) × (shift.window ≤ 64) }
    ensures { result ≡ marked_first shift.window shift.up k h }
{
    let top = WORD - shift.window;
    let mut out = h;
    out[0] = (((h[0] << shift.up) << top) >> top) | (1 << k);
    out
}

// How many bits are set. A word of zeros needs no counting.
fn count(x: u64) -> u32
    ensures { result ≡ count_ones x }
{
    if x == 0 { 0 } else { x.count_ones() }
}

// How many of the places that leave in a shift are set, word by word.
fn gone_words(h: [u64; 8], shift: Shift) -> u32
    requires { 1 ≤ shift.up }
    ensures { result ≡ count_ones (value h / 2 ^ (shift.window - shift.up) % 2 ^ shift.up) }
{
    let Shift { window: w, up: d } = shift;
    let top = ((w - 1) / WORD) as usize;
    let mut n: u32 = 0;
    // The first of the words is counted from this place on, and each other from its lowest.
    let mut from = (w - d) % WORD;
    for i in ((w - d) / WORD) as usize..top {
        n += count(h[i] >> from);
        from = 0;
    }
    n + count(cut(h[top], 63 - (w - 1) % WORD) >> from)
}

// How many of the places that leave in a shift are set. In the first word they are moved to its top, and then to its bottom.
fn gone(h: [u64; 8], shift: Shift) -> u32
    requires { 1 ≤ shift.up }
    ensures { result ≡ count_ones (value h / 2 ^ (shift.window - shift.up) % 2 ^ shift.up) }
{
    let Shift { window: w, up: d } = shift;
    if w <= WORD {
        return ((h[0] << (WORD - w)) >> (WORD - d)).count_ones();
    }
    gone_words(h, shift)
}

// How many zero bits leave and count in a shift, where n places are left for numbers older than the first. The next number is the
// common case, and has no bits to count.
pub fn lost(h: [u64; 8], shift: Shift, n: u16) -> u64
    requires { 1 ≤ shift.up }
    ensures { result ≡ leaving shift.window shift.up n h }
{
    let Shift { window: w, up: d } = shift;
    if d <= n {
        return 0;
    }
    if d == 1 {
        return u64::from(!has_bit(h, w - 1));
    }
    let left = Shift {
        window: w - n,
        up: d - n,
    };
    u64::from(u32::from(left.up) - gone(h, left))
}
