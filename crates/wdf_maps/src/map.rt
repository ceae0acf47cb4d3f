ghost use Rattle.std.specs.Prelude.{◌≡◌, ◌<◌, ◌≤◌, length, option_map, vec_capacity};
ghost use Rattle.wdf_model.specs.Tables.{entry, put, same_id};

use wdf_base::ObjectId;

/// The entry of an id, the blank one where none was written. (own)
pub fn entry_at<T: Copy>(entries: &[T], blank: T, id: u32) -> T
    ensures { result ≡ entry blank entries.now id }
{
    entries.get(id as usize).copied().unwrap_or(blank)
}

/// Writes the entry of an id, with blank entries on the way to it. It takes no memory. (own)
#[tactic(auto, using(crate::proofs::Beyond::put_there, wdf_model::proofs::Maps::put_long))]
pub fn put_at<T: Copy>(entries: &mut Vec<T>, blank: T, id: u32, new: T)
    requires room { id < vec_capacity entries.old }
    ensures entries { entries.new.items ≡ put blank entries.old.items id new }
    ensures there { id < length entries.new.items }
    ensures longer { length entries.old.items ≤ length entries.new.items }
    ensures room { vec_capacity entries.old ≤ vec_capacity entries.new }
{
    let id = id as usize;
    if id < entries.len() {
        entries[id] = new;
    } else {
        entries.resize(id, blank).unwrap();
        entries.push_reserved(new);
    }
}

/// The object with an id, if there is one.
pub fn object_at(id: Option<u32>) -> Option<ObjectId>
    ensures { option_map (λ o. o.0) result ≡ id }
{
    id.map(ObjectId)
}

/// Whether there is an id, and it is this one.
pub fn is_id(found: Option<ObjectId>, id: ObjectId) -> bool
    ensures { result ≡ same_id (option_map (λ o. o.0) found) id.0 }
{
    found == Some(id)
}
