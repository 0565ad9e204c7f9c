use bench::{Bench, Request};
use benches::SiteBench;
use direct::{Gone, Stand};
use language::{GoRefusal, StartRefusal, progress};
use std::test::*;

/// Routine 0 calls routine 1, which picks from the feeder that it is given.
const PICKING: [u8; 48] = [
    b'R', 0, 1, 1, 0, 0, 0, 0, b'F', 1, 1, 1, 0, 0, 0, 0, b'T', 1, 0, 0, 0, 0, 0, 0, b'R', 1, 1, 1,
    0, 0, 0, 0, b'A', 1, 2, 0, 0, 0, 0, 0, b'T', 1, 0, 0, 0, 0, 0, 0,
];

/// Places with nothing held, under a handler that returns the fault.
const CAUGHT: [u8; 56] = [
    b'R', 0, 0, 2, 0, 0, 0, 0, b'G', 1, 0, 0, 0, 0, 0, 0, b'B', 1, 1, 2, 1, 0, 0, 0, b'A', 0, 3, 0,
    0, 0, 0, 0, b'T', 0, 0, 0, 0, 0, 0, 0, b'B', 2, 0, 0, 0, 0, 0, 0, b'T', 1, 0, 0, 0, 0, 0, 0,
];

/// Where a run is, its value and the beats made, as numbers.
fn went(answer: Result<Gone, GoRefusal>) -> Result<(i32, i32, u32), i32> {
    match answer {
        Ok(gone) => Ok((
            progress::number(gone.progress),
            progress::value(gone.progress),
            gone.beats,
        )),
        Err(refusal) => Err(refusal.number()),
    }
}

fn started(answer: Result<(), StartRefusal>) -> Result<(), i32> {
    answer.map_err(|refusal| refusal.number())
}

#[test]
fn a_routine_picks(rt: HostRuntime) {
    let (bench, _) = SiteBench::set_up([4, 3, 2, 1, 0, 0, 0, 0]);
    let mut stand = Stand::new(bench);
    assert!(rt; stand.load(&PICKING).is_ok());
    assert_eq!(rt; started(stand.start(&[0])), Ok(()));
    assert_eq!(rt; went(stand.go(0)), Ok((0, 0, 0)));
    assert_eq!(rt; went(stand.go(3)), Ok((0, 0, 3)));
    assert_eq!(rt; went(stand.go(100_000)), Ok((1, 3, 1)));
    assert_eq!(rt; went(stand.go(5)), Ok((1, 3, 0)));
}

#[test]
fn a_fault_is_caught(rt: HostRuntime) {
    let (bench, _) = SiteBench::set_up([4, 3, 2, 1, 0, 0, 0, 0]);
    let mut stand = Stand::new(bench);
    assert!(rt; stand.load(&CAUGHT).is_ok());
    assert_eq!(rt; started(stand.start(&[])), Ok(()));
    assert_eq!(rt; went(stand.go(100)), Ok((1, 46, 3)));
}

#[test]
fn calls_are_refused(rt: HostRuntime) {
    let (bench, _) = SiteBench::set_up([4, 3, 2, 1, 0, 0, 0, 0]);
    let mut stand = Stand::new(bench);
    assert_eq!(rt; started(stand.start(&[0])), Err(20));
    assert_eq!(rt; went(stand.go(1)), Err(22));
    assert!(rt; stand.load(&PICKING[..40]).is_err());
    assert!(rt; stand.load(&PICKING).is_ok());
    assert_eq!(rt; started(stand.start(&[])), Err(21));
    assert_eq!(rt; went(stand.go(-1)), Err(22));
    assert_eq!(rt; started(stand.start(&[9])), Ok(()));
    assert_eq!(rt; went(stand.go(-1)), Err(23));
    assert_eq!(rt; went(stand.go(100_001)), Err(23));
    assert_eq!(rt; went(stand.go(100_000)), Ok((2, 43, 2)));
    assert_eq!(rt; went(stand.go(100_001)), Err(23));
}

#[test]
fn a_bench_is_handed_back(rt: HostRuntime) {
    let (bench, _) = SiteBench::set_up([4, 3, 2, 1, 0, 0, 0, 0]);
    let mut stand = Stand::new(bench);
    let pick = Request {
        operation: 2,
        number: 1,
    };
    assert!(rt; stand.jog(pick).is_ok());
    let mut bench = stand.into_bench();
    assert!(rt; bench.request(pick).is_err());
}
