//! Performs an event script from standard input, and prints one line for each event.
#![tactic(auto)]

mod stop;

use anyhow::anyhow;
use script::{Line, Position, pair_text};
use session::Section;
use std::io::{BufRead, BufReader};
use std::process::ExitCode;
use stop::Stop;

/// What has been read of a script.
#[derive(Drop)]
struct Script {
    position: Position,
    /// The section that is being read, once one has begun.
    section: Option<Section>,
}

impl Script {
    /// Takes one more line in, which stands in this text. A section that ends with it is performed.
    fn take(&mut self, rt: &HostRuntime, line: Line, text: &[u8]) -> Result<(), Stop> {
        self.position = self.position.after(line)?;
        if let Line::Bench(pairing) = line {
            self.finish(rt)?;
            self.section = Some(Section::new(rt.alloc(), pairing));
        } else if let Some(section) = &mut self.section {
            match line {
                Line::Load => section.load(Line::table(rt.alloc(), text)?)?,
                _ => section.add(line)?,
            }
        }
        Ok(())
    }

    /// Performs the section that is being read, and prints its answers.
    fn finish(&mut self, rt: &HostRuntime) -> anyhow::Result<()> {
        if let Some(section) = self.section.take() {
            for exchange in section.perform(rt.alloc())?.iter() {
                rt.println(pair_text(rt.alloc(), &exchange.first, &exchange.second)?)?;
            }
        }
        Ok(())
    }
}

/// Performs the whole script. Where a line cannot be read, what stands before it is performed, and
/// nothing after it.
fn run(rt: &HostRuntime) -> anyhow::Result<()> {
    let mut script = Script {
        position: Position::Start,
        section: None,
    };
    let lines = BufReader::new(rt.alloc(), rt.stdin())?.split(rt.alloc(), b'\n');
    for (number, text) in (1u64..).zip(lines) {
        let text = text?;
        let taken = match Line::read(&text) {
            Ok(Some(line)) => script.take(rt, line, &text),
            // a line that asks nothing costs no more than its reading
            Ok(None) => continue,
            Err(expected) => Err(Stop::Unread(expected)),
        };
        match taken {
            Ok(()) => {}
            Err(Stop::Unread(expected)) => {
                script.finish(rt)?;
                return Err(anyhow!(format!(in rt.alloc(); "line {number}: {expected}")?));
            }
            Err(Stop::Failed(error)) => return Err(error),
        }
    }
    script.finish(rt)
}

/// What cannot be read is told on standard error, once; the status is then 1.
fn main(rt: HostRuntime) -> ExitCode {
    match run(&rt) {
        Ok(()) => ExitCode::SUCCESS,
        Err(error) => {
            let _ = eprintln!(rt; "{error}");
            ExitCode::FAILURE
        }
    }
}
