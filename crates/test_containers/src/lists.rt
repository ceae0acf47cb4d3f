//! Items come to either end of a list, and leave from any place.
ghost use Rattle.std.specs.Prelude.{◌≡◌, length};

use std::test::Fail;
use wdf_ilist::Links;

/// What happens to two lists and four items, and what is read of them, with the answer that is due.
#[derive(Clone, Copy)]
enum Act {
    /// An item comes to the end of a list.
    Append(u32, u32),
    /// An item comes to the front of a list.
    Prepend(u32, u32),
    /// An item leaves. The list that it was on.
    Unlink(u32, Option<u32>),
    /// The first item of a list leaves. Which it is.
    Pop(u32, Option<u32>),
    /// The first item of a list.
    Front(u32, Option<u32>),
    /// The last item of a list.
    Back(u32, Option<u32>),
    /// The item after this one.
    After(u32, Option<u32>),
    /// The list that an item is on.
    Owner(u32, Option<u32>),
    /// How many items a list has.
    Len(u32, u32),
    IsEmpty(u32, bool),
}

/// The items 3, 0, 1 and 2 are on the list 0, in this order, and one leaves from the middle.
static LEAVING: [Act; 12] = [
    Act::Append(0, 0),
    Act::Append(0, 1),
    Act::Append(0, 2),
    Act::Prepend(0, 3),
    Act::Unlink(1, Some(0)),
    Act::Unlink(1, None),
    Act::Pop(0, Some(3)),
    Act::Pop(0, Some(0)),
    Act::Pop(0, Some(2)),
    Act::Pop(0, None),
    Act::Front(1, None),
    Act::Len(0, 0),
];

/// The same list is read, and again after its last item left.
static READ: [Act; 17] = [
    Act::Append(0, 0),
    Act::Append(0, 1),
    Act::Append(0, 2),
    Act::Prepend(0, 3),
    Act::Front(0, Some(3)),
    Act::Back(0, Some(2)),
    Act::After(3, Some(0)),
    Act::After(0, Some(1)),
    Act::After(2, None),
    Act::Owner(2, Some(0)),
    Act::Len(0, 4),
    Act::IsEmpty(1, true),
    Act::Unlink(2, Some(0)),
    Act::After(2, None),
    Act::Owner(2, None),
    Act::Back(0, Some(1)),
    Act::Len(0, 3),
];

/// An item comes to the end of a list; whether it was on none.
fn appends(links: &mut Links, list: u32, item: u32) -> bool
    requires { (length links.old.lists ≡ 2) × (links.old.items ≡ 4) }
    ensures { (length links.new.lists ≡ 2) × (links.new.items ≡ 4) }
{
    if list >= 2 || item >= 4 {
        return false;
    }
    match links.owner(item) {
        Some(_) => false,
        None => {
            links.push_back(list, item);
            true
        }
    }
}

/// An item comes to the front of a list; whether it was on none.
fn prepends(links: &mut Links, list: u32, item: u32) -> bool
    requires { (length links.old.lists ≡ 2) × (links.old.items ≡ 4) }
    ensures { (length links.new.lists ≡ 2) × (links.new.items ≡ 4) }
{
    if list >= 2 || item >= 4 {
        return false;
    }
    match links.owner(item) {
        Some(_) => false,
        None => {
            links.push_front(list, item);
            true
        }
    }
}

/// Whether what is read of the lists is as due.
fn is_so(links: &Links, act: Act) -> bool {
    match act {
        Act::Front(list, due) => links.front(list) == due,
        Act::Back(list, due) => links.back(list) == due,
        Act::After(item, due) => links.after(item) == due,
        Act::Owner(item, due) => links.owner(item) == due,
        Act::Len(list, due) => links.len(list) == due,
        Act::IsEmpty(list, due) => links.is_empty(list) == due,
        _ => false,
    }
}

/// Does an act; whether it may come, and the answer is the due one.
fn does(links: &mut Links, act: Act) -> bool
    requires { (length links.old.lists ≡ 2) × (links.old.items ≡ 4) }
    ensures { (length links.new.lists ≡ 2) × (links.new.items ≡ 4) }
{
    match act {
        Act::Append(list, item) => appends(links, list, item),
        Act::Prepend(list, item) => prepends(links, list, item),
        Act::Unlink(item, due) => links.unlink(item) == due,
        Act::Pop(list, due) => links.pop_front(list) == due,
        _ => is_so(links, act),
    }
}

/// The place of the first act that isn't as due.
fn first_wrong(links: &mut Links, acts: &[Act]) -> Option<usize>
    requires { (length links.old.lists ≡ 2) × (links.old.items ≡ 4) }
{
    'all: for at in 0..acts.len() {
        if !does(links, acts[at]) {
            return Some(at);
        }
    }
    None
}

/// The same in lists that are made for it.
fn wrong_in(mut links: Links, acts: &[Act]) -> Option<usize>
    requires { (length links.lists ≡ 2) × (links.items ≡ 4) }
{
    first_wrong(&mut links, acts)
}

#[test]
fn lists_change_as_told(rt: HostRuntime) -> Result<(), Fail> {
    for (name, acts) in [("leaving", LEAVING.as_slice()), ("read", READ.as_slice())] {
        let links = Links::make(rt.alloc(), 2, 4)?;
        assert_eq!(rt; wrong_in(links, acts), None, "{name}");
    }
    Ok(())
}
