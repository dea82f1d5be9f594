//! Tests of two key ranges: whether they share a key and whether one contains the other; and whether a message has a part in a range.
//!
//! A range is from a key up to but excluding an end; `None` is no end.
ghost use Rattle.std.specs.Prelude.{◌≡◌, ◌&&◌, true, is_some};
ghost use Rattle.std.specs.Option.{option_copied};
ghost use Rattle.message.specs.Cuts.{cut_to};
ghost use Rattle.message.specs.Ranges.{ends_within, reaches, later_key, earlier_end};
ghost use Rattle.pathkey.specs.Keys.{is_below};

use crate::ends::{earlier, ends_by, is_before_end, is_within};
use crate::msg::Msg;
use crate::update::Update;
use pathkey::Key;

/// Whether a key can be both from `low` up to `high` and from `lo` up to `hi`, excluding the ends; `None` is no end.
pub fn overlaps(low: &Key, high: Option<&Key>, lo: &Key, hi: Option<&Key>) -> bool
    ensures { result ≡ is_below (later_key lo.now low.now) (earlier_end (option_copied hi.entry) (option_copied high.entry)) }
{
    let from = if lo.cmp(low).is_lt() { low } else { lo };
    is_before_end(from, earlier(hi, high))
}

/// Whether the message has a part from `lo` up to but excluding `hi`; `None` is no end.
pub fn overlaps_range<U: Update>(msg: &Msg<U>, lo: &Key, hi: Option<&Key>) -> bool
    ensures { result ≡ is_some (cut_to lo.now (option_copied hi.entry) msg.now) }
{
    match msg {
        Msg::DelRange(range) => overlaps(&range.lo, range.hi.as_ref(), lo, hi),
        Msg::Put(key, _) | Msg::Del(key) | Msg::Edit(key, _) => is_within(key, lo, hi),
    }
}

/// Whether a range has keys and all of them are from `lo` up to but excluding `hi`; `None` is no end.
pub fn is_within_range(lo: &Key, hi: Option<&Key>, low: &Key, high: Option<&Key>) -> bool
    ensures is { result ≡ (is_below low.now (option_copied high.entry) && (reaches lo.now low.now && ends_within (option_copied high.entry) (option_copied hi.entry))) }
    ensures some { result ≡ true → is_below low.now (option_copied high.entry) ≡ true }
    ensures low { result ≡ true → later_key lo.now low.now ≡ low.now }
    ensures high { result ≡ true → earlier_end (option_copied hi.entry) (option_copied high.entry) ≡ option_copied high.entry }
{
    is_before_end(low, high) && covers_range(lo, hi, low, high)
}

/// Whether every key from `lo` up to `hi` is from `low` up to `high`, excluding the ends; `None` is no end.
pub fn covers_range(low: &Key, high: Option<&Key>, lo: &Key, hi: Option<&Key>) -> bool
    ensures { result ≡ (reaches low.now lo.now && ends_within (option_copied hi.entry) (option_copied high.entry)) }
{
    low.cmp(lo).is_le() && ends_by(hi, high)
}
