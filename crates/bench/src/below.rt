ghost use Rattle.std.specs.Prelude.{◌<◌};

pub mod angle;
pub mod feeder;
mod range;
pub mod site;

/// A number from 0 up to a bound, the bound itself left out.
#[derive(Clone, Copy, PartialEq, Eq, Debug)]
pub struct Below<const N: u16> {
    value: u16,
    ghost within: { value < N },
}
