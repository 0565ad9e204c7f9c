ghost use Rattle.std.specs.Prelude.{◌≡◌};
ghost use Rattle.bench.specs.Reading.{state_under};

use super::below::angle::Angle;
use super::below::feeder::Feeder;
use super::below::site::Site;
use super::spot;
use super::spot::Spot;

/// The state that a bench stands for, however the bench keeps it.
#[derive(Clone, Copy, PartialEq, Eq, Debug)]
pub struct State {
    /// Over which site the head stands.
    pub site: Site,
    /// The angle of the nozzle.
    pub angle: Angle,
    /// The feeder of the part in the nozzle, if it holds one.
    pub nozzle: Option<Feeder>,
    /// The parts left in each feeder.
    pub counts: [u16; 8],
    /// The parts dropped.
    pub bin: u16,
    /// What is at each site.
    pub sites: [Spot; 32],
}

impl State {
    /// The state as it reads under a shift: every angle in it is read so.
    pub fn read_under(self, shift: Angle) -> State
        ensures { result ≡ state_under shift self }
    {
        State {
            angle: self.angle.read_under(shift),
            sites: self.sites.map(|spot| spot::read_under(spot, shift)),
            ..self
        }
    }
}
