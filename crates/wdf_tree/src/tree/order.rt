//! What has to go before an object, for the list of what a stuck run waits for.

ghost use Rattle.std.specs.Prelude.{◌≡◌, ◌<◌, length, option_map};
ghost use Rattle.wdf_model.specs.Tables.{least};
ghost use Rattle.wdf_tree.specs.GoFirst.{go_first};

use super::Tree;
use wdf_base::ObjectId;
use wdf_maps::lesser_if;

impl Tree {
    /// The id of the least object that has to go before this one.
    fn first_id(&self, o: ObjectId) -> Option<u32>
        requires there { o.0 < length self.now.nodes }
        ensures { result ≡ least (go_first self.now o.0) }
    {
        if self.life(o).is_cleaned() {
            return self.children.front(o.0);
        }
        let child = self.waiting.front(o.0);
        if !self.life(self.parent(o)).is_asked() {
            return child;
        }
        lesser_if(child, self.waiting.after(o.0))
    }

    /// The least object that has to go before this one. (own)
    ///
    /// Once this one is cleaned up, that is a child that is left. Before that it is a child whose
    /// cleanup is still to come, or, where the deletion of the parent was asked too, such a younger
    /// sibling.
    pub fn goes_first(&self, o: ObjectId) -> Option<ObjectId>
        requires there { o.0 < length self.now.nodes }
        ensures { option_map (λ x. x.0) result ≡ least (go_first self.now o.0) }
    {
        self.first_id(o).map(ObjectId)
    }
}
