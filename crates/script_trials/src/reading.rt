use bench::Request;
use script::{Expected, Kind, Line, Pairing};
use std::process::Abort;
use std::test::*;

fn asks(rt: &impl Abort, text: &[u8], line: Line) -> Result<(), Fail> {
    assert_eq!(rt; Line::read(text), Ok(Some(line)));
    Ok(())
}

fn asks_nothing(rt: &impl Abort, text: &[u8]) -> Result<(), Fail> {
    assert_eq!(rt; Line::read(text), Ok(None));
    Ok(())
}

fn refuses(rt: &impl Abort, text: &[u8], expected: Expected) -> Result<(), Fail> {
    assert_eq!(rt; Line::read(text), Err(expected));
    Ok(())
}

fn jog(operation: i32, number: i32) -> Line {
    Line::Jog(Request { operation, number })
}

#[test]
fn each_form(rt: HostRuntime) -> Result<(), Fail> {
    let counts = [0, 1, 2, 3, 999, 1000, -7, 7];
    asks(
        &rt,
        b"bench site log 0 1 2 3 999 1000 -7 7",
        Line::Bench(Pairing {
            first: Kind::Site,
            second: Kind::Log,
            counts,
        }),
    )?;
    asks(&rt, b"turn 35999", Line::Turn(35_999))?;
    asks(&rt, b"jog 4 31", jog(4, 31))?;
    asks(&rt, b"state", Line::State)
}

#[test]
fn blanks_and_comments(rt: HostRuntime) -> Result<(), Fail> {
    asks_nothing(&rt, b"")?;
    asks_nothing(&rt, b" \t \r")?;
    asks_nothing(&rt, b"# turn 5")?;
    asks_nothing(&rt, b"  #\xff\xfe")?;
    asks(&rt, b"\t jog   1 \t 2 \r", jog(1, 2))
}

#[test]
fn ends_of_range(rt: HostRuntime) -> Result<(), Fail> {
    asks(&rt, b"turn 2147483647", Line::Turn(2_147_483_647))?;
    asks(&rt, b"turn -2147483648", Line::Turn(-2_147_483_648))?;
    asks(&rt, b"turn +0007", Line::Turn(7))?;
    refuses(&rt, b"turn 2147483648", Expected::Number)?;
    refuses(&rt, b"turn -2147483649", Expected::Number)
}

#[test]
fn no_numbers(rt: HostRuntime) -> Result<(), Fail> {
    refuses(&rt, b"turn", Expected::Number)?;
    refuses(&rt, b"turn 0x10", Expected::Number)?;
    refuses(&rt, b"turn -", Expected::Number)?;
    refuses(&rt, b"jog 1", Expected::Number)?;
    refuses(&rt, b"jog 1 \xff\xfe", Expected::Number)
}

#[test]
fn no_keywords(rt: HostRuntime) -> Result<(), Fail> {
    refuses(&rt, b"turns 5", Expected::Keyword)?;
    refuses(&rt, b"Turn 5", Expected::Keyword)?;
    refuses(&rt, b"\xff", Expected::Keyword)?;
    refuses(&rt, b"turn\x0b5", Expected::Keyword)
}

#[test]
fn no_ends(rt: HostRuntime) -> Result<(), Fail> {
    refuses(&rt, b"state 1", Expected::End)?;
    refuses(&rt, b"turn 5 # note", Expected::End)?;
    refuses(&rt, b"jog 1 2 3", Expected::End)?;
    refuses(&rt, b"bench log log 1 2 3 4 5 6 7 8 9", Expected::End)
}

#[test]
fn no_benches(rt: HostRuntime) -> Result<(), Fail> {
    refuses(&rt, b"bench", Expected::Kind)?;
    refuses(&rt, b"bench site", Expected::Kind)?;
    refuses(&rt, b"bench site sites 1 2 3 4 5 6 7 8", Expected::Kind)?;
    refuses(&rt, b"bench site log 1 2 3 4 5 6 7", Expected::Counts)?;
    refuses(&rt, b"bench site log 1 2 3 4 5 6 x 8", Expected::Counts)
}

#[test]
fn tables(rt: HostRuntime) -> Result<(), Fail> {
    asks(&rt, b"load 52fF", Line::Load)?;
    asks(&rt, b"load -", Line::Load)?;
    assert_eq!(rt;
        Line::table(rt.alloc(), b"load 52fF")?.as_slice(),
        [0x52, 0xff].as_slice()
    );
    assert_eq!(rt; Line::table(rt.alloc(), b"load -")?.len(), 0);
    refuses(&rt, b"load", Expected::Table)?;
    refuses(&rt, b"load 520", Expected::Table)?;
    refuses(&rt, b"load 5g", Expected::Table)?;
    refuses(&rt, b"load --", Expected::Table)?;
    refuses(&rt, b"load 52 00", Expected::End)
}
