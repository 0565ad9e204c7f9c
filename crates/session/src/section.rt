ghost use Rattle.std.specs.Prelude.{◌≡◌, false, [], ◌∷◌, ◌++◌, None, MatchResult};
ghost use Rattle.session.specs.Lines.{turn_with, jogs_of, state_with};
ghost use Rattle.session.specs.declared.event.Event.TheVariants.{Load as Loaded};

use super::event::Event;
use script::{Line, Pairing};
use std::alloc::{AllocError, Global};

/// A section of a script: two benches that are set up with the same counts, and what is asked of
/// both.
#[derive(Drop)]
pub struct Section {
    pub pairing: Pairing,
    /// By what both benches are turned, if they are.
    pub turn: Option<i32>,
    pub events: Vec<Event>,
    /// Whether the state is asked for at the end.
    pub state: bool,
}

impl Section {
    /// A section with these benches, that asks nothing yet.
    pub fn new(heap: Global, pairing: Pairing) -> Section
        ensures pairing { result.pairing ≡ pairing }
        ensures asked { (result.turn ≡ None) × ((result.events.items ≡ []) × (result.state ≡ false)) }
    {
        Section {
            pairing,
            turn: None,
            events: Vec::new(heap),
            state: false,
        }
    }

    /// Adds what a line other than a load line asks. Refused memory, the section is as it was.
    pub fn add(&mut self, line: Line) -> Result<(), AllocError>
        ensures pairing { self.new.pairing ≡ self.old.pairing }
        ensures turn { self.new.turn ≡ turn_with line self.old.turn }
        ensures events { MatchResult result (λ _. self.new.events.items ≡ self.old.events.items ++ jogs_of line) (λ _. self.new.events.items ≡ self.old.events.items) }
        ensures state { self.new.state ≡ state_with line self.old.state }
    {
        match line {
            Line::Turn(shift) => self.turn = Some(shift),
            Line::Jog(request) => self.events.push(Event::Jog(request))?,
            Line::State => self.state = true,
            Line::Bench(_) | Line::Load => {}
        }
        Ok(())
    }

    /// Adds the bytes of a table that is to be loaded. Refused memory, the section is as it was.
    pub fn load(&mut self, bytes: Vec<u8>) -> Result<(), AllocError>
        ensures pairing { self.new.pairing ≡ self.old.pairing }
        ensures asked { (self.new.turn ≡ self.old.turn) × (self.new.state ≡ self.old.state) }
        ensures events { MatchResult result (λ _. self.new.events.items ≡ self.old.events.items ++ Loaded bytes ∷ []) (λ _. self.new.events.items ≡ self.old.events.items) }
    {
        self.events.push(Event::Load(bytes))?;
        Ok(())
    }
}
