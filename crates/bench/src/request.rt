/// What a bench is asked: an operation and a number, any two numbers.
#[derive(Clone, Copy, PartialEq, Eq, Debug)]
pub struct Request {
    pub operation: i32,
    pub number: i32,
}
