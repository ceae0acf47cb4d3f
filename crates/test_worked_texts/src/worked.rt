use wdf_base::Ending;

/// A worked run.
pub struct Worked {
    pub name: &'static str,
    /// The text of its scenario.
    pub scenario: &'static str,
    /// A line for each event, then the ending's, then those of the wait list.
    pub trace: &'static str,
    /// How many events it has.
    pub events: usize,
    pub ending: Ending,
}
