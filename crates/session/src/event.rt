use bench::Request;

/// What is asked in the course of a section.
#[derive(Drop)]
pub enum Event {
    /// To check the bytes of a table.
    Load(Vec<u8>),
    /// One request to the bench.
    Jog(Request),
}
