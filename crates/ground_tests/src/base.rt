// Each public call of the ground once with ample memory, with expected values worked out by hand.
ghost use Rattle.std.specs.Prelude.{◌≡◌, ◌+◌, ◌<◌};
ghost use Rattle.eb_base.specs.Places.{place_cmp};

use eb_base::{
    Calc, CalcFault, Items, Name, NameMap, Place, Reserved, Steps, Text, ascends, fix_read,
    fix_write, is_name, name_read, name_write, number_read,
};
use std::alloc::Global;
use std::cmp::Ordering;
use std::marker::Brand;
use std::sync::ledger::{Blank, Ledger};

// ---- calculations

#[derive(Clone, Copy)]
enum Operation {
    Add,
    Sub,
    Mul,
    Div,
    FixedMul,
    FixedDiv,
}

/// An operation, its operands and its result.
type Calculation = (Operation, i64, i64, Result<i64, CalcFault>);

const CALCULATIONS: [Calculation; 18] = [
    (Operation::Add, 7, -9, Ok(-2)),
    (Operation::Add, i64::MAX, 1, Err(CalcFault::Overflow)),
    (Operation::Sub, i64::MIN, 1, Err(CalcFault::Overflow)),
    (Operation::Mul, -3, 5, Ok(-15)),
    (Operation::Mul, i64::MIN, -1, Err(CalcFault::Overflow)),
    (Operation::Div, 7, 2, Ok(3)),
    (Operation::Div, -7, 2, Ok(-4)),
    (Operation::Div, 7, -2, Ok(-4)),
    (Operation::Div, -7, -2, Ok(3)),
    (Operation::Div, i64::MIN, -1, Err(CalcFault::Overflow)),
    (Operation::Div, i64::MIN, 0, Err(CalcFault::DivZero)),
    (Operation::FixedMul, 32768, 3, Ok(1)),
    (Operation::FixedMul, -32768, 3, Ok(-2)),
    (
        Operation::FixedMul,
        i64::MIN,
        i64::MIN,
        Err(CalcFault::Overflow),
    ),
    (Operation::FixedDiv, 1, 3, Ok(21845)),
    (Operation::FixedDiv, -1, 3, Ok(-21846)),
    (Operation::FixedDiv, i64::MAX, 0, Err(CalcFault::DivZero)),
    (
        Operation::FixedDiv,
        i64::MAX,
        65535,
        Err(CalcFault::Overflow),
    ),
];

fn calculated(operation: Operation, a: i64, b: i64) -> Result<i64, CalcFault> {
    match operation {
        Operation::Add => Calc::add(a, b),
        Operation::Sub => Calc::sub(a, b),
        Operation::Mul => Calc::mul(a, b),
        Operation::Div => Calc::div(a, b),
        Operation::FixedMul => Calc::fmul(a, b),
        Operation::FixedDiv => Calc::fdiv(a, b),
    }
}

/// The place of the first calculation with another result.
fn other_calculation(cases: &[Calculation]) -> Option<usize> {
    for (index, (operation, a, b, wanted)) in cases.iter().enumerate() {
        if calculated(*operation, *a, *b) != *wanted {
            return Some(index);
        }
    }
    None
}

#[test]
fn calculations_round_down(rt: HostRuntime) {
    assert_eq!(rt; other_calculation(&CALCULATIONS), None);
}

// ---- fixed text

/// Texts, and the units that they say.
const FIXED: [(&str, Option<i64>); 24] = [
    ("0.1", Some(6553)),
    ("-0.1", Some(-6554)),
    ("1", Some(65536)),
    ("-0", Some(0)),
    ("007.50", Some(491520)),
    ("0.0000152587890625", Some(1)),
    ("-0.0000000000000001", Some(-1)),
    ("140737488355327.9999847412109375", Some(i64::MAX)),
    ("140737488355328", None),
    ("-140737488355328", Some(i64::MIN)),
    ("-140737488355328.0000152587890625", None),
    ("", None),
    ("-", None),
    ("1.", None),
    (".5", None),
    ("+1", None),
    ("--1", None),
    ("1.5.2", None),
    ("1.-5", None),
    ("1 ", None),
    ("0000000000000001", None),
    ("000000000000001", Some(65536)),
    ("0.00000000000000000", None),
    ("1e3", None),
];

/// Units, and the text that they are printed as.
const PRINTED: [(i128, &str); 10] = [
    (0, "0"),
    (65536, "1"),
    (-98304, "-1.5"),
    (1, "0.0000152587890625"),
    (-1, "-0.0000152587890625"),
    (6553, "0.0999908447265625"),
    (i64::MIN as i128, "-140737488355328"),
    (i64::MAX as i128, "140737488355327.9999847412109375"),
    (i128::MIN, "-2596148429267413814265248164610048"),
    (
        i128::MAX,
        "2596148429267413814265248164610047.9999847412109375",
    ),
];

/// The first text that is read otherwise.
fn other_reading(cases: &[(&'static str, Option<i64>)]) -> Option<&'static str> {
    for (text, wanted) in cases {
        if fix_read(text.as_bytes()) != *wanted {
            return Some(*text);
        }
    }
    None
}

/// Whether units are printed so.
fn prints(alloc: Global, units: i128, wanted: &str) -> bool {
    match fix_write(alloc, units) {
        Ok(text) => text.is(wanted.as_bytes()),
        Err(_) => false,
    }
}

/// The first text that isn't printed.
fn other_print(alloc: Global, cases: &[(i128, &'static str)]) -> Option<&'static str> {
    for (units, wanted) in cases {
        if !prints(alloc, *units, wanted) {
            return Some(*wanted);
        }
    }
    None
}

#[test]
fn fixed_text_is_read_and_printed(rt: HostRuntime) {
    assert_eq!(rt; other_reading(&FIXED), None);
    assert_eq!(rt; other_print(rt.alloc(), &PRINTED), None);
}

// ---- names, numbers and words

const NAME: Name = Name {
    play: 0,
    scene: 16,
    object: 4294967295,
    extra: 17,
};

/// Texts that are no names of entities.
const NO_NAMES: [&str; 12] = [
    "",
    "0.1.2",
    "0.1.2.3.4",
    "0.1.2.",
    ".1.2.3",
    "0.01.2.3",
    "0.1.2.4294967296",
    "0.1.2.-3",
    "0.1.+2.3",
    "0.1.2.3 ",
    "0..2.3",
    "00.1.2.3",
];

/// Texts, each with a bound above the number that it says.
const NUMBERS: [(u64, &str, Option<u64>); 6] = [
    (100, "99", Some(99)),
    (100, "100", None),
    (u64::MAX, "18446744073709551614", Some(18446744073709551614)),
    (u64::MAX, "99999999999999999999999999999999999999999", None),
    (9, "0", Some(0)),
    (9, "05", None),
];

/// Texts, and whether types and fields may be named so.
const WORDS: [(&str, bool); 13] = [
    ("Value", true),
    ("v", true),
    ("a_1", true),
    ("aaaaaaaaaabbbbbbbbbbccccccccccdd", true),
    ("aaaaaaaaaabbbbbbbbbbccccccccccddd", false),
    ("", false),
    ("_a", false),
    ("1a", false),
    ("a-b", false),
    ("baker", false),
    ("false", false),
    ("Baker", true),
    ("keys", true),
];

/// Whether the name is printed so and read back.
fn is_name_text(alloc: Global, name: &Name, wanted: &str) -> bool {
    match name_write(alloc, name) {
        Ok(text) => text.is(wanted.as_bytes()) && name_read(text.bytes()) == Some(*name),
        Err(_) => false,
    }
}

/// The first text that is read as a name.
fn a_name(texts: &[&'static str]) -> Option<&'static str> {
    for text in texts {
        if name_read(text.as_bytes()).is_some() {
            return Some(*text);
        }
    }
    None
}

/// The first text that is read as another number.
fn other_number(cases: &[(u64, &'static str, Option<u64>)]) -> Option<&'static str> {
    for (limit, text, wanted) in cases {
        if number_read(*limit, text.as_bytes()) != *wanted {
            return Some(*text);
        }
    }
    None
}

/// The first text of which it is told otherwise whether it is a name.
fn other_word(cases: &[(&'static str, bool)]) -> Option<&'static str> {
    for (text, wanted) in cases {
        if is_name(text.as_bytes()) != *wanted {
            return Some(*text);
        }
    }
    None
}

#[test]
fn names_numbers_and_words(rt: HostRuntime) {
    assert!(rt; is_name_text(rt.alloc(), &NAME, "0.16.4294967295.17"));
    assert_eq!(rt; a_name(&NO_NAMES), None);
    assert_eq!(rt; other_number(&NUMBERS), None);
    assert_eq!(rt; other_word(&WORDS), None);
    assert!(rt; ascends::<u8>(&[1, 2, 9]) && ascends::<u8>(&[]) && !ascends::<u8>(&[1, 1]));
}

// ---- lists and maps

/// The list 4, 6, 7, made by pushing, inserting and setting.
fn three(alloc: Global) -> Option<Items<u32>> {
    let mut items: Items<u32> = Items::new(alloc);
    items.push(5).ok()?;
    items.push(7).ok()?;
    items.insert(1, 6).ok()?;
    items.set(0, 4);
    Some(items)
}

/// Whether 8 and 9 go behind it, and out of the list where they were.
fn appends(alloc: Global, items: &mut Items<u32>) -> Option<bool> {
    let mut more = Items::of(Vec::from_slice(alloc, &[8, 9]).ok()?);
    items.append(&mut more).ok()?;
    Some(more.is_empty() && items.len() == 5)
}

/// What is taken out of the list, and what stands at two places then.
fn taken(items: &mut Items<u32>) -> Option<(u32, Option<u32>, Option<u32>, Option<u32>)> {
    if items.len() < 2 {
        return None;
    }
    Some((
        items.remove(1),
        items.pop(),
        items.get(1).copied(),
        items.get(3).copied(),
    ))
}

/// Whether a list is changed as each call says.
fn a_list_changes(alloc: Global) -> Option<bool> {
    let mut items = three(alloc)?;
    let first = items.items() == [4, 6, 7].as_slice();
    let appended = appends(alloc, &mut items)?;
    let removed = taken(&mut items) == Some((6, Some(9), Some(7), None));
    items.truncate(2);
    Some(first && appended && removed && items.into_vec().as_slice() == [4, 7].as_slice())
}

/// Whether a list with room takes two items without memory.
fn a_list_has_room(alloc: Global) -> Option<bool> {
    let mut list = Items::new(alloc);
    list.push(1u8).ok()?;
    let mut reserved = Reserved::with_room(list, 2).ok()?;
    let room = reserved.room() >= 2;
    reserved.push(2);
    reserved.push(3);
    let same = reserved.items() == [1, 2, 3].as_slice();
    Some(room && same && reserved.into_items().len() == 3)
}

#[test]
fn lists_are_changed(rt: HostRuntime) {
    assert_eq!(rt; a_list_changes(rt.alloc()), Some(true));
    assert_eq!(rt; a_list_has_room(rt.alloc()), Some(true));
}

const LOW: Name = Name {
    play: 0,
    scene: 1,
    object: 2,
    extra: 0,
};

const HIGH: Name = Name {
    play: 0,
    scene: 2,
    object: 1,
    extra: 0,
};

/// Scenes and values of a map in its order, as one number.
fn digits(map: &NameMap<u32>) -> u32 {
    let mut total: u32 = 0;
    for (name, value) in map.iter() {
        total = total
            .wrapping_mul(100)
            .wrapping_add(name.scene.wrapping_mul(10))
            .wrapping_add(*value);
    }
    total
}

/// What stood before under each name that is put, what is found, the order, and what is left.
fn a_map_changes(alloc: Global) -> Option<([Option<u32>; 5], u32, bool)> {
    let mut map = NameMap::new(alloc);
    let before = [
        map.put(HIGH, 1).ok()?,
        map.put(LOW, 2).ok()?,
        map.put(HIGH, 3).ok()?,
    ];
    let found = map.get(&HIGH).copied();
    let order = digits(&map);
    let gone = map.take(&LOW);
    let left = !map.contains(&LOW) && map.len() == 1;
    Some(([before[0], before[1], before[2], found, gone], order, left))
}

#[test]
fn a_map_is_changed(rt: HostRuntime) {
    let told = [None, None, Some(1), Some(3), Some(2)];
    assert_eq!(rt; a_map_changes(rt.alloc()), Some((told, 1223, true)));
}

// ---- steps, and what threads may share

// What takes steps, over any ledger.
fn three_steps<L: Ledger>(steps: &mut Steps<L>) -> u32
    ensures { steps.new ≡ steps.old + 3 }
{
    steps.tick();
    steps.tick();
    steps.tick();
    3
}

// What counts steps of its own.
fn counted<L: Ledger>(blank: Blank) -> u32
    requires name { blank.name ≡ L.name }
    requires parts { blank.parts ≡ L.parts }
    requires some { 0 < blank.parts }
{
    let mut steps: Steps<L> = Steps::open(blank);
    three_steps(&mut steps)
}

#[test]
fn a_caller_that_counts_nothing(rt: HostRuntime) {
    assert_eq!(rt; counted::<Brand>(Blank::new(1)), 3);
}

// The order that `Ord` derives.
fn compared(a: Place, b: Place) -> Ordering
    ensures { result ≡ place_cmp a b }
{
    a.cmp(&b)
}

// What threads may share.
fn shared<T: Send + Sync>(_value: &T) {}

const FIRST: Place = Place {
    scene: 1,
    section: 9,
};

const SECOND: Place = Place {
    scene: 2,
    section: 0,
};

/// Whether a copy of a text is that text.
fn is_copied(alloc: Global) -> Option<bool> {
    let names: NameMap<Items<Text>> = NameMap::new(alloc);
    shared(&names);
    let text = Text::of(alloc, b"abc").ok()?;
    let same = text.copy(alloc).ok()?;
    Some(same.is(b"abc") && !same.is(b"ab"))
}

#[test]
fn places_and_texts(rt: HostRuntime) {
    assert!(rt; compared(FIRST, SECOND).is_lt());
    shared(&FIRST);
    assert_eq!(rt; is_copied(rt.alloc()), Some(true));
}
