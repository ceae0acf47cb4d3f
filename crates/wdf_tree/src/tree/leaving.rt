//! The objects whose deletion isn't finished: it was asked, and they aren't gone. No call goes over
//! all objects.

ghost use Rattle.std.specs.Prelude.{◌≡◌, ◌&&◌, ◌||◌, MatchOption, find, nat_le, option_map};
ghost use Rattle.std.specs.List.{list_any};
ghost use Rattle.wdf_base.specs.Lives.{is_asked, is_cleaned};
ghost use Rattle.wdf_model.specs.Tables.{ids_of};
ghost use Rattle.wdf_model.specs.parts.Tree as tree;
ghost use Rattle.wdf_sets.specs.Members.{is_in};
ghost use Rattle.wdf_sets.specs.Nexts.{IsNext, NoneFrom};
ghost use Rattle.wdf_tree.specs.Turns.{is_counted_cleaned};

use super::Tree;
use wdf_base::ObjectId;
use wdf_maps::object_at;
use wdf_sets::IdSet;

/// The first id from one on below an end that two sets have. It goes from a member of the one to the next of the other.
pub(super) fn first_in_both(one: &IdSet, other: &IdSet, from: u32, end: u32) -> Option<u32>
    ensures { MatchOption result (NoneFrom (λ id. is_in id one.now && is_in id other.now) from end)
        (λ id. IsNext (λ id. is_in id one.now && is_in id other.now) from end id) }
{
    let mut at = from;
    'search: while let Some(found) = one.next(at, end) {
        let both = match other.next(found, end) {
            Some(both) => both,
            None => return None,
        };
        if both == found {
            return Some(found);
        }
        at = both;
    }
    None
}

impl Tree {
    /// The first object from an id on that is cleaned up, and isn't destroyed yet.
    pub fn cleaned_from(&self, from: ObjectId) -> Option<ObjectId>
        ensures { option_map (λ o. o.0) result
            ≡ find (λ o. nat_le from.0 o && is_cleaned (tree.life_of self.now o))
            (ids_of self.now.nodes) }
    {
        object_at(self.cleaned.from(from.0))
    }

    /// The first object from an id on below an end that is cleaned up and isn't destroyed yet, and that counts against
    /// the limit: no arrived request.
    pub fn next_counted_cleaned(&self, from: u32, end: u32) -> Option<u32>
        ensures { MatchOption result (NoneFrom (is_counted_cleaned self.now) from end) (λ o. IsNext (is_counted_cleaned self.now) from end o) }
    {
        first_in_both(&self.cleaned, &self.counted, from, end)
    }

    /// Whether some deletion isn't finished.
    pub fn some_leaving(&self) -> bool
        ensures { result ≡ list_any
            (λ o. is_asked (tree.life_of self.now o) || is_cleaned (tree.life_of self.now o))
            (ids_of self.now.nodes) }
    {
        self.asked.len() > 0 || self.cleaned.len() > 0
    }
}
