//! What is drawn of a run.
ghost use Rattle.std.specs.Prelude.{◌≡◌};
ghost use Rattle.wdf_view.specs.Formed.{drawn_bytes};

use wdf_page::Page;

/// What is drawn of a run, in the form that was asked for.
#[derive(Drop)]
pub enum Drawn {
    /// A page of HTML.
    Html(Page),
    /// JSON for viewers of traces.
    Json(String),
}

impl Drawn {
    /// The bytes of what is drawn.
    pub fn bytes(&self) -> &[u8]
        ensures { result.now ≡ drawn_bytes self.now }
    {
        match self {
            Drawn::Html(page) => page.bytes(),
            Drawn::Json(text) => text.as_bytes(),
        }
    }
}
