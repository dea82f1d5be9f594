//! Tests of messages and pending lists, at keys of one byte, against the same messages in plain numbers.
use crate::numbers;
use message::{Msg, cut, touches};
use pathkey::{Key, KeyRange, NoMemory};
use pending::Pending;
use std::alloc::Global;
use test_support::{Digit, Holds, Plain, all_hold, are, batch, key, range, waits};

fn list_of(alloc: Global, msgs: &[Plain]) -> Result<Pending<Digit>, NoMemory> {
    let mut list = Pending::new(alloc);
    for plain in msgs {
        push(alloc, &mut list, *plain)?;
    }
    Ok(list)
}

/// Appends a message to a list.
fn push(alloc: Global, list: &mut Pending<Digit>, plain: Plain) -> Result<(), NoMemory> {
    list.reserve(1)?;
    let msg = plain.message(alloc)?;
    list.push_reserved(msg);
    Ok(())
}

/// A property of a message, with its expected value.
#[derive(Clone, Copy)]
enum Check {
    /// Whether it touches the key of a number.
    Touches(u8, bool),
    /// The result of applying it to a value at the key 3.
    TurnsInto(Option<u64>, Option<u64>),
    /// Its part in the range with these two ends.
    Cut(u8, Option<u8>, Option<Plain>),
}

/// Whether a message touches the key of a number; `None` if an allocation fails.
fn touches_at(alloc: Global, msg: &Msg<Digit>, at: u8) -> Option<bool> {
    match key(alloc, at) {
        Ok(key) => Some(touches(msg, &key)),
        Err(_) => None,
    }
}

/// Whether a message turns a value at the key 3 into this one.
fn turns_into(alloc: Global, msg: &Msg<Digit>, old: Option<u64>, wanted: Option<u64>) -> bool {
    match key(alloc, 3) {
        Ok(at) => msg.apply_msg(alloc, &at, old) == Ok(wanted),
        Err(_) => false,
    }
}

/// Whether this is the plain form of a message, or neither exists.
fn is_plain(msg: &Option<Msg<Digit>>, wanted: Option<Plain>) -> bool {
    match msg {
        Some(msg) => wanted == Some(Plain::of(msg)),
        None => wanted.is_none(),
    }
}

/// Whether this is the part of a message in a range.
fn is_cut(alloc: Global, msg: &Msg<Digit>, range: &KeyRange, wanted: Option<Plain>) -> bool {
    match cut(alloc, msg, range) {
        Ok(piece) => is_plain(&piece, wanted),
        Err(_) => false,
    }
}

/// Whether this is the part of a message in the range of two numbers.
fn is_cut_to(
    alloc: Global,
    msg: &Msg<Digit>,
    ends: (u8, Option<u8>),
    wanted: Option<Plain>,
) -> bool {
    match range(alloc, ends.0, ends.1) {
        Ok(range) => is_cut(alloc, msg, &range, wanted),
        Err(_) => false,
    }
}

/// Whether a message has the property.
fn answers(alloc: Global, msg: &Msg<Digit>, check: Check) -> bool {
    match check {
        Check::Touches(at, wanted) => touches_at(alloc, msg, at) == Some(wanted),
        Check::TurnsInto(old, wanted) => turns_into(alloc, msg, old, wanted),
        Check::Cut(lo, hi, wanted) => is_cut_to(alloc, msg, (lo, hi), wanted),
    }
}

/// A message, and a property of it.
struct Reported(Plain, Check);

impl Holds for Reported {
    fn holds(&self, alloc: Global) -> bool {
        match self.0.message(alloc) {
            Ok(msg) => answers(alloc, &msg, self.1),
            Err(_) => false,
        }
    }
}

const TOUCHED: &[Reported] = &[
    Reported(Plain::DelRange(3, Some(5)), Check::Touches(2, false)),
    Reported(Plain::DelRange(3, Some(5)), Check::Touches(3, true)),
    Reported(Plain::DelRange(3, Some(5)), Check::Touches(4, true)),
    Reported(Plain::DelRange(3, Some(5)), Check::Touches(5, false)),
    Reported(Plain::DelRange(3, None), Check::Touches(2, false)),
    Reported(Plain::DelRange(3, None), Check::Touches(255, true)),
    Reported(Plain::DelRange(3, Some(3)), Check::Touches(3, false)),
    Reported(Plain::Put(3, 7), Check::Touches(3, true)),
    Reported(Plain::Del(3), Check::Touches(4, false)),
    Reported(Plain::Edit(3, 7), Check::Touches(2, false)),
];

#[test]
fn touches_from_the_low_end_up_to_the_high_end(rt: HostRuntime) -> Result<(), usize> {
    all_hold(rt.alloc(), TOUCHED)
}

const LAID: &[Reported] = &[
    Reported(Plain::Put(3, 7), Check::TurnsInto(Some(12), Some(7))),
    Reported(Plain::Put(3, 7), Check::TurnsInto(None, Some(7))),
    Reported(Plain::Put(4, 7), Check::TurnsInto(Some(12), Some(12))),
    Reported(Plain::Del(3), Check::TurnsInto(Some(12), None)),
    Reported(Plain::Del(3), Check::TurnsInto(None, None)),
    Reported(
        Plain::DelRange(3, Some(5)),
        Check::TurnsInto(Some(12), None),
    ),
    Reported(
        Plain::DelRange(1, Some(3)),
        Check::TurnsInto(Some(12), Some(12)),
    ),
    Reported(Plain::Edit(3, 7), Check::TurnsInto(Some(12), Some(127))),
    Reported(Plain::Edit(3, 7), Check::TurnsInto(None, Some(7))),
    Reported(Plain::Edit(4, 7), Check::TurnsInto(None, None)),
];

#[test]
fn applies_each_message_to_a_value_and_to_none(rt: HostRuntime) -> Result<(), usize> {
    all_hold(rt.alloc(), LAID)
}

const CUT: &[Reported] = &[
    Reported(
        Plain::DelRange(4, Some(5)),
        Check::Cut(3, Some(6), Some(Plain::DelRange(4, Some(5)))),
    ),
    Reported(
        Plain::DelRange(3, Some(6)),
        Check::Cut(3, Some(6), Some(Plain::DelRange(3, Some(6)))),
    ),
    Reported(
        Plain::DelRange(2, Some(5)),
        Check::Cut(3, Some(6), Some(Plain::DelRange(3, Some(5)))),
    ),
    Reported(
        Plain::DelRange(4, Some(9)),
        Check::Cut(3, Some(6), Some(Plain::DelRange(4, Some(6)))),
    ),
    Reported(
        Plain::DelRange(0, None),
        Check::Cut(3, Some(6), Some(Plain::DelRange(3, Some(6)))),
    ),
    Reported(
        Plain::DelRange(4, None),
        Check::Cut(3, None, Some(Plain::DelRange(4, None))),
    ),
    Reported(Plain::DelRange(1, Some(3)), Check::Cut(3, Some(6), None)),
    Reported(Plain::DelRange(6, Some(9)), Check::Cut(3, Some(6), None)),
    Reported(
        Plain::Put(3, 7),
        Check::Cut(3, Some(6), Some(Plain::Put(3, 7))),
    ),
    Reported(Plain::Put(6, 7), Check::Cut(3, Some(6), None)),
    Reported(Plain::Del(2), Check::Cut(3, None, None)),
    Reported(Plain::Del(255), Check::Cut(3, None, Some(Plain::Del(255)))),
    Reported(
        Plain::Edit(5, 7),
        Check::Cut(3, Some(6), Some(Plain::Edit(5, 7))),
    ),
];

#[test]
fn cuts_to_a_range(rt: HostRuntime) -> Result<(), usize> {
    all_hold(rt.alloc(), CUT)
}

/// Whether applying a list to a value at the key of a number gives this one.
fn applies_at(
    alloc: Global,
    list: &Pending<Digit>,
    at: u8,
    old: Option<u64>,
    wanted: Option<u64>,
) -> bool {
    match key(alloc, at) {
        Ok(at) => list.value_after(alloc, &at, old) == Ok(wanted),
        Err(_) => false,
    }
}

/// Whether applying the messages to a value at the key of a number gives this one.
fn apply_at(alloc: Global, msgs: &[Plain], at: u8, old: Option<u64>, wanted: Option<u64>) -> bool {
    match list_of(alloc, msgs) {
        Ok(list) => applies_at(alloc, &list, at, old, wanted),
        Err(_) => false,
    }
}

/// Messages, and the result of applying them to the value 9 at the key 3.
struct Applied(&'static [Plain], Option<u64>);

impl Holds for Applied {
    fn holds(&self, alloc: Global) -> bool {
        apply_at(alloc, self.0, 3, Some(9), self.1)
    }
}

const APPLIED: &[Applied] = &[
    Applied(&[Plain::Put(3, 1), Plain::Edit(3, 2)], Some(12)),
    Applied(&[Plain::Edit(3, 2), Plain::Put(3, 1)], Some(1)),
    Applied(&[Plain::Edit(3, 2), Plain::Edit(3, 4)], Some(924)),
    Applied(&[Plain::Del(3), Plain::Edit(3, 4)], Some(4)),
    Applied(&[Plain::Edit(3, 4), Plain::DelRange(3, None)], None),
    Applied(&[Plain::Put(4, 1), Plain::Del(2)], Some(9)),
];

#[test]
fn applies_the_oldest_message_first(rt: HostRuntime) -> Result<(), usize> {
    all_hold(rt.alloc(), APPLIED)
}

/// The result of applying the messages to a value at the key of a number, one after the other.
fn after(msgs: &[Plain], at: u8, old: Option<u64>) -> Option<u64> {
    let mut value = old;
    for plain in msgs {
        value = plain.value_after(at, value);
    }
    value
}

const TEN: &[Plain] = &[
    Plain::Put(1, 4),
    Plain::Edit(1, 5),
    Plain::DelRange(1, Some(3)),
    Plain::Edit(2, 6),
    Plain::Put(3, 7),
    Plain::Edit(3, 8),
    Plain::Edit(2, 9),
    Plain::Del(5),
    Plain::DelRange(6, None),
    Plain::Put(7, 1),
];

/// Whether applying the ten messages at once to the value of each of ten keys is the same as one by one.
fn apply_ten(alloc: Global, old: Option<u64>) -> bool {
    for at in 0..10 {
        if !apply_at(alloc, TEN, at, old, after(TEN, at, old)) {
            return false;
        }
    }
    true
}

#[test]
fn applies_as_the_messages_do_one_by_one(rt: HostRuntime) {
    assert!(rt; apply_ten(rt.alloc(), None));
    assert!(rt; apply_ten(rt.alloc(), Some(23)));
}

/// Appends messages to a list; returns whether all were appended.
fn takes_all(list: &mut Pending<Digit>, newer: &mut Vec<Msg<Digit>>) -> bool {
    if list.reserve(newer.len()).is_err() {
        return false;
    }
    list.append_reserved(newer);
    newer.is_empty()
}

/// Appends plain messages to a list; returns whether all were appended.
fn takes(alloc: Global, list: &mut Pending<Digit>, newer: &[Plain]) -> bool {
    match batch(alloc, newer) {
        Ok(mut newer) => takes_all(list, &mut newer),
        Err(_) => false,
    }
}

/// Whether copies of the first messages are these.
fn begins_with(alloc: Global, list: &Pending<Digit>, front: &[Plain]) -> bool {
    if list.len() < front.len() {
        return false;
    }
    match list.copy_front(alloc, front.len()) {
        Ok(copy) => are(&copy, front),
        Err(_) => false,
    }
}

/// Removes that many messages from the front; returns whether there were as many.
fn gives_up(list: &mut Pending<Digit>, count: usize) -> bool {
    if list.len() < count {
        return false;
    }
    list.drop_front(count);
    true
}

const OLDER: &[Plain] = &[Plain::Put(1, 1), Plain::Del(2), Plain::Edit(3, 3)];

/// Whether two messages are appended to a list of three and its first two are removed, while a copy is unchanged.
fn changes_beside(alloc: Global, list: &mut Pending<Digit>, copy: &Pending<Digit>) -> bool {
    takes(alloc, list, &[Plain::DelRange(4, None), Plain::Put(5, 5)])
        && list.len() == 5
        && begins_with(alloc, list, &[Plain::DelRange(4, None), Plain::Put(1, 1)])
        && gives_up(list, 2)
        && waits(
            alloc,
            list,
            &[Plain::Del(2), Plain::Edit(3, 3), Plain::Put(5, 5)],
        )
        && waits(alloc, copy, OLDER)
}

/// Whether two messages are appended to a list of three and its first two are removed, while a copy made before is
/// unchanged.
fn changes_beside_a_copy(alloc: Global, list: &mut Pending<Digit>) -> bool {
    match list.copy(alloc) {
        Ok(copy) => changes_beside(alloc, list, &copy),
        Err(_) => false,
    }
}

/// Whether two messages are appended to a new list of three and its first two are removed, while a copy is unchanged.
fn changes_alone(alloc: Global) -> bool {
    match list_of(alloc, OLDER) {
        Ok(mut list) => changes_beside_a_copy(alloc, &mut list),
        Err(_) => false,
    }
}

#[test]
fn takes_messages_at_the_back_and_gives_them_up_at_the_front(rt: HostRuntime) {
    assert!(rt; changes_alone(rt.alloc()));
}

/// A list that is split: its messages, how many of the oldest are consumed, its low end and the pivot, and the two parts.
struct Parted(
    &'static [Plain],
    usize,
    u8,
    u8,
    &'static [Plain],
    &'static [Plain],
);

impl Parted {
    /// Splits a list of these messages.
    fn cut(&self, alloc: Global, list: &mut Pending<Digit>) -> Result<Pending<Digit>, NoMemory> {
        if list.len() < self.1 {
            return Err(NoMemory);
        }
        let lo = key(alloc, self.2)?;
        let pivot = key(alloc, self.3)?;
        list.split_off(alloc, self.1, &lo, &pivot)
    }

    /// Whether both parts are the expected ones.
    fn parts(&self, alloc: Global, list: &mut Pending<Digit>) -> bool {
        match self.cut(alloc, list) {
            Ok(back) => waits(alloc, list, self.4) && waits(alloc, &back, self.5),
            Err(_) => false,
        }
    }
}

impl Holds for Parted {
    fn holds(&self, alloc: Global) -> bool {
        match list_of(alloc, self.0) {
            Ok(mut list) => self.parts(alloc, &mut list),
            Err(_) => false,
        }
    }
}

const POINTS: &[Plain] = &[
    Plain::Put(1, 1),
    Plain::Edit(3, 3),
    Plain::Put(5, 5),
    Plain::Del(7),
];

const OVER_THE_PIVOT: &[Plain] = &[
    Plain::Put(1, 1),
    Plain::DelRange(2, Some(6)),
    Plain::Put(7, 7),
];

const PARTED: &[Parted] = &[
    Parted(
        POINTS,
        0,
        0,
        4,
        &[Plain::Put(1, 1), Plain::Edit(3, 3)],
        &[Plain::Put(5, 5), Plain::Del(7)],
    ),
    Parted(
        POINTS,
        0,
        0,
        5,
        &[Plain::Put(1, 1), Plain::Edit(3, 3)],
        &[Plain::Put(5, 5), Plain::Del(7)],
    ),
    Parted(
        POINTS,
        1,
        0,
        4,
        &[Plain::Edit(3, 3)],
        &[Plain::Put(5, 5), Plain::Del(7)],
    ),
    Parted(POINTS, 3, 0, 4, &[], &[Plain::Del(7)]),
    Parted(POINTS, 0, 0, 9, POINTS, &[]),
    Parted(POINTS, 0, 0, 1, &[], POINTS),
    Parted(
        POINTS,
        0,
        2,
        4,
        &[Plain::Edit(3, 3)],
        &[Plain::Put(5, 5), Plain::Del(7)],
    ),
    Parted(
        OVER_THE_PIVOT,
        0,
        0,
        4,
        &[Plain::DelRange(2, Some(4)), Plain::Put(1, 1)],
        &[Plain::DelRange(4, Some(6)), Plain::Put(7, 7)],
    ),
    Parted(
        OVER_THE_PIVOT,
        1,
        0,
        4,
        &[Plain::Put(1, 1)],
        &[Plain::Put(7, 7)],
    ),
];

#[test]
fn is_cut_at_a_pivot(rt: HostRuntime) -> Result<(), usize> {
    all_hold(rt.alloc(), PARTED)
}

/// A list of the messages whose first one is consumed.
fn without_first(alloc: Global, msgs: &[Plain]) -> Result<Pending<Digit>, NoMemory> {
    let mut list = list_of(alloc, msgs)?;
    if list.len() > 0 {
        list.drop_front(1);
    }
    Ok(list)
}

/// Two lists, before the key 5 and after it, merged. Each has two updates of one key, of which the first is consumed.
fn merged_half_consumed(alloc: Global) -> Result<Pending<Digit>, NoMemory> {
    let front = without_first(alloc, EDITS_OF_THREE)?;
    match without_first(alloc, EDITS_OF_SEVEN) {
        Ok(back) => joined_at(alloc, front, back, 5),
        Err(NoMemory) => Err(NoMemory),
    }
}

const EDITS_OF_THREE: &[Plain] = &[Plain::Edit(3, 1), Plain::Edit(3, 2)];

const EDITS_OF_SEVEN: &[Plain] = &[Plain::Edit(7, 3), Plain::Edit(7, 4)];

/// Two lists, before a key and after it, merged.
fn joined_at(
    alloc: Global,
    front: Pending<Digit>,
    back: Pending<Digit>,
    at: u8,
) -> Result<Pending<Digit>, NoMemory> {
    match key(alloc, at) {
        Ok(at) => front.merged(alloc, back, &at),
        Err(NoMemory) => Err(NoMemory),
    }
}

/// Whether the lists were merged, and both remaining updates are pending.
fn waits_joined(alloc: Global, joined: Result<Pending<Digit>, NoMemory>) -> bool {
    match joined {
        Ok(all) => waits(alloc, &all, &[Plain::Edit(3, 2), Plain::Edit(7, 4)]),
        Err(NoMemory) => false,
    }
}

#[test]
fn two_lists_that_are_half_consumed_are_merged(rt: HostRuntime) {
    let alloc = rt.alloc();
    assert!(rt; waits_joined(alloc, merged_half_consumed(alloc)));
}

/// How many numbers a long list has.
const LONG: u16 = 1_000;

/// A list with the numbers up to a thousand, which are appended in a mixed order, each at the key of its two bytes.
fn long_list(alloc: Global) -> Result<Pending<Digit>, NoMemory> {
    let mut list = Pending::new(alloc);
    for i in 0..LONG as u64 {
        let at = i * 7_919 % LONG as u64;
        put_number(alloc, &mut list, at as u16)?;
    }
    Ok(list)
}

/// Appends a number to a list, at the key of its two bytes.
fn put_number(alloc: Global, list: &mut Pending<Digit>, number: u16) -> Result<(), NoMemory> {
    list.reserve(1)?;
    let key = numbers::key(alloc, number)?;
    list.push_reserved(Msg::Put(key, number as u64));
    Ok(())
}

/// Whether this is the number at the key of its two bytes.
fn is_number(msg: &Msg<Digit>, number: u16) -> bool {
    match msg {
        Msg::Put(key, value) => *value == number as u64 && is_key_of(key, number),
        _ => false,
    }
}

/// Whether a key has the two bytes of a number.
fn is_key_of(key: &Key, number: u16) -> bool {
    key.as_bytes() == numbers::bytes_of(number).as_slice()
}

/// Whether the messages are the numbers from `first` on, in their order.
fn are_numbers_from(msgs: &[Msg<Digit>], first: u16) -> bool {
    let mut number = first;
    for msg in msgs {
        if !is_number(msg, number) {
            return false;
        }
        number = number.wrapping_add(1);
    }
    true
}

/// Whether the list has that many numbers, from `first` on.
fn has_numbers(alloc: Global, list: &Pending<Digit>, first: u16, count: u16) -> bool {
    match list.copy_front(alloc, list.len()) {
        Ok(msgs) => msgs.len() == count as usize && are_numbers_from(msgs.as_slice(), first),
        Err(_) => false,
    }
}

/// Splits the list at a number.
fn parted_at(
    alloc: Global,
    list: &mut Pending<Digit>,
    at: u16,
) -> Result<Pending<Digit>, NoMemory> {
    match numbers::key(alloc, at) {
        Ok(pivot) => list.split_off(alloc, 0, &Key::new(alloc), &pivot),
        Err(NoMemory) => Err(NoMemory),
    }
}

/// Whether that many messages move to another list, one at a time.
fn sinks(from: &mut Pending<Digit>, to: &mut Pending<Digit>, count: u16) -> bool {
    for _ in 0..count {
        if from.flush_oldest(to, 1) != Ok(1) {
            return false;
        }
    }
    from.len() == 0 && from.flush_oldest(to, 1) == Ok(0)
}

/// A number at which a long list is split. The second part then moves back.
struct CutAt(u16);

impl CutAt {
    /// Whether both parts have their numbers, and the list has all again when those that were split off have moved
    /// back.
    fn parts(&self, alloc: Global, list: &mut Pending<Digit>) -> bool {
        let others = LONG.saturating_sub(self.0);
        match parted_at(alloc, list, self.0) {
            Ok(mut back) => {
                has_numbers(alloc, list, 0, self.0)
                    && has_numbers(alloc, &back, self.0, others)
                    && sinks(&mut back, list, others)
                    && has_numbers(alloc, list, 0, LONG)
            }
            Err(_) => false,
        }
    }
}

impl Holds for CutAt {
    fn holds(&self, alloc: Global) -> bool {
        match long_list(alloc) {
            Ok(mut list) => self.parts(alloc, &mut list),
            Err(_) => false,
        }
    }
}

const CUTS: &[CutAt] = &[
    CutAt(0),
    CutAt(1),
    CutAt(63),
    CutAt(64),
    CutAt(500),
    CutAt(999),
    CutAt(1_000),
];

#[test]
fn long_lists_are_cut_anywhere_and_sink_message_by_message(rt: HostRuntime) -> Result<(), usize> {
    all_hold(rt.alloc(), CUTS)
}
