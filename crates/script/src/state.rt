//! The text of a bench's state.
ghost use Rattle.std.specs.Prelude.{Some};
ghost use Rattle.std.specs.List.{flat_map};
ghost use Rattle.script.specs.Answers.{nozzle_text_of, spaced, sites_text_of, state_text_of};

use bench::{Feeder, Spot, State};
use std::fmt;

/// A state as the words of a state line.
#[derive(Clone, Copy)]
pub struct StateWords<'a>(pub &'a State);

impl<'a> fmt::Display for StateWords<'a> {
    ghost output = { λ w. Some (state_text_of w.0.now) };

    fn fmt<W: fmt::Write>(&self, f: &mut fmt::Formatter<W>) -> fmt::Result {
        let state = self.0;
        let site = state.site.get();
        let angle = state.angle.get();
        let nozzle = NozzleWord(state.nozzle);
        let counts = CountWords(&state.counts);
        let bin = state.bin;
        let sites = SiteWords(&state.sites);
        write!(
            f,
            "state {site} {angle} {nozzle} counts{counts} bin {bin} sites{sites}"
        )
    }
}

/// The feeder of the part in the nozzle, or a dash.
#[derive(Clone, Copy)]
struct NozzleWord(Option<Feeder>);

impl fmt::Display for NozzleWord {
    ghost output = { λ w. Some (nozzle_text_of w.0) };

    fn fmt<W: fmt::Write>(&self, f: &mut fmt::Formatter<W>) -> fmt::Result {
        match self.0 {
            None => f.write_str("-"),
            Some(feeder) => write!(f, "{}", feeder.get()),
        }
    }
}

/// Each count, after a blank.
#[derive(Clone, Copy)]
struct CountWords<'a>(&'a [u16]);

impl<'a> fmt::Display for CountWords<'a> {
    ghost output = { λ w. Some (flat_map spaced w.0.now) };

    fn fmt<W: fmt::Write>(&self, f: &mut fmt::Formatter<W>) -> fmt::Result {
        for count in self.0 {
            write!(f, " {count}")?;
        }
        Ok(())
    }
}

/// Each site that is taken, with the feeder and the angle of its part, after a blank; or the word
/// none.
#[derive(Clone, Copy)]
struct SiteWords<'a>(&'a [Spot]);

impl<'a> fmt::Display for SiteWords<'a> {
    ghost output = { λ w. Some (sites_text_of w.0.now) };

    fn fmt<W: fmt::Write>(&self, f: &mut fmt::Formatter<W>) -> fmt::Result {
        if self.0.iter().all(|spot| spot.is_none()) {
            return f.write_str(" none");
        }
        for (site, spot) in self.0.iter().enumerate() {
            if let Some(part) = spot {
                write!(f, " {site}:{}:{}", part.feeder.get(), part.angle.get())?;
            }
        }
        Ok(())
    }
}
