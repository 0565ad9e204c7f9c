/// The routine that a run starts with: the place of its heading, and how many arguments it takes.
#[derive(Clone, Copy, PartialEq, Eq, Debug)]
pub struct Main {
    pub place: usize,
    pub parameters: u8,
}
