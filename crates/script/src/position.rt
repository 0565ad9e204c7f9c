ghost use Rattle.std.specs.Prelude.{◌≡◌, IfErr};
ghost use Rattle.script.specs.Fields.{Found};
ghost use Rattle.script.specs.Order.{Next, wanted};
ghost use Rattle.script.specs.declared.position.Position.{Position};

use super::expected::Expected;
use super::line::Line;

/// Where in a script one stands. A script is a row of sections: a bench line, then a turn line if
/// the benches are turned, then events, then a state line if the state is asked for.
#[derive(Clone, Copy, PartialEq, Eq, Debug)]
pub enum Position {
    /// Before the first section.
    Start,
    /// Right after a bench line.
    Opened,
    /// Among the events of a section.
    Within,
    /// After a state line.
    Closed,
}

impl Position {
    /// The position after one more line, or what is expected in its place.
    pub fn after(self, line: Line) -> Result<Position, Expected>
        ensures next { Found (Next self line) result }
        ensures wants { IfErr result (λ e. e ≡ wanted self) }
        ensures alone { (p q : Position) → Next self line p → Next self line q → p ≡ q }
    {
        match (line, self) {
            (Line::Bench(_), _) => Ok(Position::Opened),
            (Line::Turn(_), Position::Opened) => Ok(Position::Within),
            (Line::Load, Position::Opened | Position::Within) => Ok(Position::Within),
            (Line::Jog(_), Position::Opened | Position::Within) => Ok(Position::Within),
            (Line::State, Position::Opened | Position::Within) => Ok(Position::Closed),
            (_, Position::Within) => Err(Expected::Event),
            (_, Position::Start | Position::Closed) => Err(Expected::Bench),
        }
    }
}
