//! Members around the ends of words and blocks.
ghost use Rattle.std.specs.Prelude.{◌≤◌, length};

use std::test::Fail;
use wdf_sets::IdSet;

/// What happens to a set, and what is read of it, with the answer that is due.
#[derive(Clone, Copy)]
enum Act {
    /// An id becomes a member, or is taken out.
    Put(u32, bool),
    /// How many members there are.
    Len(u32),
    /// The member with a number is this id: as many are below it, and it is the first from itself on.
    Member(u32, u32),
    /// An id that is no member, how many members are below it, and the first member from it on.
    Gap(u32, u32, Option<u32>),
    /// The member with a number.
    At(u32, Option<u32>),
    /// The first member from an id on.
    From(u32, Option<u32>),
    /// The first member from an id on below another.
    Next(u32, u32, Option<u32>),
    /// All members are taken out.
    Clear,
}

/// Ids around the ends of words and blocks come in any order, below 9,001.
static AROUND: [Act; 26] = [
    Act::Put(4096, true),
    Act::Put(63, true),
    Act::Put(64, true),
    Act::Put(9000, true),
    Act::Put(127, true),
    Act::Put(0, true),
    Act::Put(8191, true),
    Act::Put(4095, true),
    Act::Len(8),
    Act::Member(0, 0),
    Act::Member(1, 63),
    Act::Member(2, 64),
    Act::Member(3, 127),
    Act::Member(4, 4095),
    Act::Member(5, 4096),
    Act::Member(6, 8191),
    Act::Member(7, 9000),
    Act::At(8, None),
    Act::Gap(1, 1, Some(63)),
    Act::Gap(65, 3, Some(127)),
    Act::Gap(128, 4, Some(4095)),
    Act::Gap(4097, 6, Some(8191)),
    Act::Gap(8192, 7, Some(9000)),
    Act::Gap(9001, 8, None),
    Act::Gap(12287, 8, None),
    Act::Gap(12288, 8, None),
];

/// Members are taken out, one of them twice, and one comes twice, below 5,000.
static TAKEN_OUT: [Act; 14] = [
    Act::Put(63, true),
    Act::Put(64, true),
    Act::Put(64, true),
    Act::Put(4096, true),
    Act::Put(63, false),
    Act::Put(63, false),
    Act::Len(2),
    Act::At(0, Some(64)),
    Act::From(65, Some(4096)),
    Act::From(4097, None),
    Act::Next(0, 64, None),
    Act::Next(0, 65, Some(64)),
    Act::Next(65, 4096, None),
    Act::Gap(63, 0, Some(64)),
];

/// The words of 64 ids lose their members one by one, and later members are found past them, below 9,001.
static EMPTIED: [Act; 38] = [
    Act::Put(63, true),
    Act::Put(64, true),
    Act::Put(4095, true),
    Act::Put(4096, true),
    Act::Put(8192, true),
    Act::From(0, Some(63)),
    Act::Put(63, false),
    Act::From(0, Some(64)),
    Act::From(63, Some(64)),
    Act::Put(64, false),
    Act::Gap(64, 0, Some(4095)),
    Act::Put(4095, false),
    Act::From(0, Some(4096)),
    Act::At(0, Some(4096)),
    Act::At(1, Some(8192)),
    Act::Put(4096, false),
    Act::Gap(4096, 0, Some(8192)),
    Act::Next(0, 8192, None),
    Act::Next(0, 8193, Some(8192)),
    Act::Put(64, true),
    Act::At(0, Some(64)),
    Act::From(65, Some(8192)),
    Act::Put(8192, false),
    Act::From(65, None),
    Act::At(1, None),
    Act::Put(64, false),
    Act::Gap(0, 0, None),
    Act::Put(4095, true),
    Act::Put(450, true),
    Act::Put(200, true),
    Act::Member(0, 200),
    Act::Member(1, 450),
    Act::Member(2, 4095),
    Act::Clear,
    Act::Len(0),
    Act::From(0, None),
    Act::Put(4096, true),
    Act::Member(0, 4096),
];

/// Whether the member with a number is this id.
fn is_member(set: &IdSet, number: u32, id: u32) -> bool {
    set.contains(id)
        && set.before(id) == number
        && set.at(number) == Some(id)
        && set.from(id) == Some(id)
}

/// Does an act on a set of ids below a bound; whether it may come, and the answer is the due one.
fn does(set: &mut IdSet, bound: u32, act: Act) -> bool
    requires { bound ≤ length set.old }
    ensures { bound ≤ length set.new }
{
    match act {
        Act::Put(id, on) if id < bound => set.put(id, on),
        Act::Len(due) => return set.len() == due,
        Act::Member(number, id) => return is_member(set, number, id),
        Act::Gap(id, before, from) => {
            return !set.contains(id) && set.before(id) == before && set.from(id) == from;
        }
        Act::At(number, due) => return set.at(number) == due,
        Act::From(id, due) => return set.from(id) == due,
        Act::Next(id, end, due) => return set.next(id, end) == due,
        Act::Clear => set.clear(),
        _ => return false,
    }
    true
}

/// The place of the first act that isn't as due.
fn first_wrong(set: &mut IdSet, bound: u32, acts: &[Act]) -> Option<usize>
    requires { bound ≤ length set.old }
{
    'all: for at in 0..acts.len() {
        if !does(set, bound, acts[at]) {
            return Some(at);
        }
    }
    None
}

#[test]
fn members_around_words_and_blocks(rt: HostRuntime) -> Result<(), Fail> {
    let mut set = IdSet::make(rt.alloc(), 9001)?;
    assert_eq!(rt; first_wrong(&mut set, 9001, &AROUND), None);
    Ok(())
}

#[test]
fn members_are_taken_out(rt: HostRuntime) -> Result<(), Fail> {
    let mut set = IdSet::make(rt.alloc(), 5000)?;
    assert_eq!(rt; first_wrong(&mut set, 5000, &TAKEN_OUT), None);
    Ok(())
}

#[test]
fn words_become_empty(rt: HostRuntime) -> Result<(), Fail> {
    let mut set = IdSet::make(rt.alloc(), 9001)?;
    assert_eq!(rt; first_wrong(&mut set, 9001, &EMPTIED), None);
    Ok(())
}
