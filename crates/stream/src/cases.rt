// What an arrival is to a lawful record: the conditions of the decision (document 01, "Decisions").
ghost use Rattle.std.specs.Prelude.{◌≡◌, ℕ, ◌<◌, ◌≤◌, true, false, ◌==◌};
ghost use Rattle.std.specs.Prelude.{if◌then◌else◌};
ghost use Rattle.record.specs.Sizes.{window_least, window_most, vector_rule, link_rule};
ghost use Rattle.stream.specs.History.{bit};
ghost use Rattle.stream.specs.Decisions.{again, late, next, link_up, case_of};
ghost use Rattle.stream.specs.Steps.{weighed_as};

use super::history::{self, Shift};
use super::number::difference;
use super::{Marks, Weighed};
use record::Stream;

// Handed up, the number as the new anchor, where the history moves no place up.
fn taken(anchor: u16, early: u16, disorder: bool) -> Weighed
    ensures { result ≡ Weighed.HandedUp (record { lost = 0; places = 0; bit = 0; anchor = anchor; early = early; disorder = disorder }) }
{
    Weighed::HandedUp(Marks {
        anchor,
        early,
        disorder,
        ..Marks::default()
    })
}

// Vector, k behind the anchor. The anchor stays, so that the number itself is not looked at.
fn behind(s: Stream, k: u16) -> Weighed
    requires { k < window_most }
    ensures { (number : ℕ) → result ≡ weighed_as s number (if bit k s.state.history then again else late k) }
{
    if history::has_bit(s.state.history, k) {
        return Weighed::Duplicate;
    }
    Weighed::HandedUp(Marks {
        bit: k,
        anchor: s.state.anchor,
        early: s.state.early,
        disorder: true,
        ..Marks::default()
    })
}

// Vector, k ahead of the anchor.
fn ahead(s: Stream, number: u16, k: u16) -> Weighed
    requires { (1 ≤ k) × ((k < s.window) × (s.window ≤ window_most)) }
    ensures { result ≡ weighed_as s number (next k) }
{
    let n = s.state.early;
    let shift = Shift {
        window: s.window,
        up: k,
    };
    Weighed::HandedUp(Marks {
        lost: history::lost(s.state.history, shift, n),
        places: k,
        anchor: number,
        early: n.saturating_sub(k),
        disorder: k != 1,
        ..Marks::default()
    })
}

// Vector. The two rogue tests come before the history is looked at, so that its bits are asked for within the window only.
pub fn by_vector(s: Stream, number: u16) -> Weighed
    requires { (window_least ≤ s.window) × ((s.window ≤ window_most) × (s.rule ≡ vector_rule)) }
    ensures { result ≡ weighed_as s number (case_of s number) }
{
    if s.state.any != 0 {
        return taken(number, s.window - 1, false);
    }
    let d = difference(number, s.state.anchor);
    let w = i32::from(s.window);
    if d >= w || d <= -w {
        return Weighed::Rogue;
    }
    let k = d.unsigned_abs() as u16;
    if d <= 0 {
        behind(s, k)
    } else {
        ahead(s, number, k)
    }
}

// Match: the history stays zero, and there is no rogue.
pub fn by_match(s: Stream, number: u16) -> Weighed
    requires { ((s.rule == vector_rule) ≡ false) × ((s.rule == link_rule) ≡ false) }
    ensures { result ≡ weighed_as s number (case_of s number) }
{
    if s.state.any != 0 {
        return taken(number, 0, false);
    }
    let d = difference(number, s.state.anchor);
    if d == 0 {
        return Weighed::Duplicate;
    }
    taken(number, s.state.early, d != 1)
}

// A virtual link: is a number handed up after the last one? Among 1 to 255 the steps forward are counted in a ring of 255, and
// after 0 from 0 on. Both are bytes, so that this needs no division.
fn link_up(last: u16, number: u16) -> bool
    requires { last ≤ 255 }
    ensures { result ≡ link_up last number }
{
    match number {
        0 => last != 0,
        256.. => link_up_far(last, number),
        _ if last < number => number - last <= 127,
        _ => last - number >= 128,
    }
}

// The same of a number that no frame has, as the definition counts: `weigh` takes any. (Where the number is read from a frame the
// compiler knows that it is a byte, and leaves this out.)
fn link_up_far(last: u16, number: u16) -> bool
    requires { (last ≤ 255) × (255 < number) }
    ensures { result ≡ link_up last number }
{
    let steps = (u32::from(number) + 255 - u32::from(last)) % 255;
    last != 0 && (1..=127).contains(&steps)
}

// A virtual link: the history stays zero, and there is no rogue and nothing out of order. (What it has in common with match is `taken`;
// the test is another, and so is what is out of order.)
pub fn by_link(s: Stream, number: u16) -> Weighed
    requires { (s.rule ≡ link_rule) × ((s.state.any == 0) ≡ true → s.state.anchor ≤ 255) }
    ensures { result ≡ weighed_as s number (case_of s number) }
{
    if s.state.any != 0 {
        return taken(number, 0, false);
    }
    if !link_up(s.state.anchor, number) {
        return Weighed::Duplicate;
    }
    taken(number, s.state.early, false)
}
