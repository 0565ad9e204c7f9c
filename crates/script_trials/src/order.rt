use bench::Request;
use script::{Expected, Kind, Line, Pairing, Position};
use std::test::*;

const BENCH: Line = Line::Bench(Pairing {
    first: Kind::Site,
    second: Kind::Log,
    counts: [0; 8],
});

const TURN: Line = Line::Turn(0);

const JOG: Line = Line::Jog(Request {
    operation: 0,
    number: 0,
});

#[test]
fn a_section(rt: HostRuntime) -> Result<(), Fail> {
    let opened = Position::Start.after(BENCH)?;
    let turned = opened.after(TURN)?;
    let jogged = turned.after(JOG)?.after(JOG)?;
    let closed = jogged.after(Line::State)?;
    assert_eq!(rt; closed, Position::Closed);
    assert_eq!(rt; closed.after(BENCH), Ok(Position::Opened));
    Ok(())
}

#[test]
fn short_sections(rt: HostRuntime) -> Result<(), Fail> {
    assert_eq!(rt; Position::Opened.after(BENCH), Ok(Position::Opened));
    assert_eq!(rt; Position::Opened.after(JOG), Ok(Position::Within));
    assert_eq!(rt; Position::Opened.after(Line::State), Ok(Position::Closed));
    assert_eq!(rt; Position::Within.after(BENCH), Ok(Position::Opened));
    Ok(())
}

#[test]
fn out_of_order(rt: HostRuntime) -> Result<(), Fail> {
    assert_eq!(rt; Position::Start.after(TURN), Err(Expected::Bench));
    assert_eq!(rt; Position::Start.after(JOG), Err(Expected::Bench));
    assert_eq!(rt; Position::Start.after(Line::State), Err(Expected::Bench));
    assert_eq!(rt; Position::Within.after(TURN), Err(Expected::Event));
    assert_eq!(rt; Position::Closed.after(JOG), Err(Expected::Bench));
    assert_eq!(rt; Position::Closed.after(Line::State), Err(Expected::Bench));
    Ok(())
}
