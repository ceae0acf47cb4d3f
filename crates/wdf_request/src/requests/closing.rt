//! The requests of a queue are closed: the framework will complete them.

ghost use Rattle.std.specs.Prelude.{◌≡◌, ◌<◌, length, map};
ghost use Rattle.wdf_model.specs.parts.Requests as requests;
ghost use Rattle.wdf_request.specs.Closed.{is_part};

use super::Requests;
use crate::change::moved;
use wdf_base::{ObjectId, Place, Status};

/// Which requests of a queue are closed.
#[derive(Clone, Copy)]
enum ClosedPart {
    /// Those that return to it.
    Returning(ObjectId),
    /// Those that wait in it too.
    Whole(ObjectId),
}

/// Whether a request at this place waits in a queue or returns to it.
fn is_in(q: ObjectId, place: Place) -> bool
    ensures { result ≡ requests.is_in q.0 place }
{
    match place {
        Place::Queued(queue) | Place::Returning(queue) => queue.0 == q.0,
        _ => false,
    }
}

impl ClosedPart {
    /// Whether a request at this place is among them.
    fn has(self, place: Place) -> bool
        ensures { result ≡ is_part self place }
    {
        match self {
            ClosedPart::Returning(q) => place.is_returning_to(q),
            ClosedPart::Whole(q) => is_in(q, place),
        }
    }
}

impl Requests {
    /// Closes one request, if it is among these.
    #[tactic(auto, using(wdf_model::proofs::Maps::put_within, wdf_model::proofs::Maps::set_as_it_was))]
    fn close_one(&mut self, r: ObjectId, part: ClosedPart)
        requires there { r.0 < length self.old.all }
        ensures done { self.new ≡ requests.with_request self.old r.0 (requests.closed_at (is_part part)) }
        ensures size { length self.new.all ≡ length self.old.all }
    {
        let request = self.request(r);
        if part.has(request.place) {
            self.write(r, moved(Place::Closing(Status::Cancelled), request));
        }
    }

    /// Closes these requests of a queue. It goes over all requests.
    fn close_part(&mut self, part: ClosedPart)
        ensures done { self.new ≡ record self.old { all = map (requests.closed_at (is_part part)) self.old.all } }
        ensures size { length self.new.all ≡ length self.old.all }
    {
        for id in 0..self.len() {
            self.close_one(ObjectId(id), part);
        }
    }

    /// What returns to a queue is to be completed with CANCELLED. Where nothing does, no request is
    /// looked at.
    #[tactic(auto, using(crate::proofs::Closing::none_closed))]
    pub fn close_returning(&mut self, q: ObjectId)
        ensures done { self.new ≡ requests.close_returning self.old q.0 }
        ensures size { length self.new.all ≡ length self.old.all }
    {
        if self.returns_to(q) {
            self.close_part(ClosedPart::Returning(q));
        }
    }

    /// What waits in a queue or returns to it is to be completed with CANCELLED. It goes over all
    /// requests.
    pub fn close(&mut self, q: ObjectId)
        ensures done { self.new ≡ requests.close self.old q.0 }
        ensures size { length self.new.all ≡ length self.old.all }
    {
        self.close_part(ClosedPart::Whole(q));
    }
}
